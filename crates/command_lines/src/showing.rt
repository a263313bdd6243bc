//! The lines of what a core keeps.

ghost use Rattle.std.specs.Prelude.{◌<◌, [], length, slice_index_or};
ghost use Rattle.boxes.specs.Entries.{Entry};
ghost use Rattle.boxes.specs.Posts.{Post};
ghost use Rattle.dr_ports.specs.Writing.{Writes};
ghost use Rattle.answer_lines.specs.Texts.{content_line};
ghost use Rattle.command_lines.specs.Lines.{inbox_lines, outbox_lines, packet_line, state_lines};

use crate::lines::{count_lines, name_lines, packet_line};
use answer_lines::write_content;
use client::Core;
use dr_ports::{Failed, Sink, write_all};
use kem_laws::Kem;

/// Writes the line of an entry.
fn write_entry<K: Kem, O: Sink>(core: &Core<K>, out: &mut O, at: usize) -> Result<(), Failed>
    requires { at < length core.now.inbox }
    ensures { (d : Entry) → Writes (O.at out.old) (O.at out.new)
        (content_line [] (slice_index_or core.now.inbox at d)) result }
{
    match core.inbox(at) {
        Some(entry) => write_content(out, &[], &entry),
        None => Ok(()),
    }
}

/// Writes the line of a packet. The room of the line stands only here.
#[inline(never)]
fn write_packet<K: Kem, O: Sink>(core: &Core<K>, out: &mut O, at: usize) -> Result<(), Failed>
    requires { at < length core.now.outbox }
    ensures { (d : Post) → Writes (O.at out.old) (O.at out.new)
        (packet_line (slice_index_or core.now.outbox at d)) result }
{
    match core.outbox(at) {
        Some((position, packet)) => write_all(out, packet_line(position, packet).as_slice()),
        None => Ok(()),
    }
}

/// Writes the lines of the inbox.
pub(crate) fn write_inbox<K: Kem, O: Sink>(core: &Core<K>, out: &mut O) -> Result<(), Failed>
    ensures { Writes (O.at out.old) (O.at out.new) (inbox_lines core.now) result }
{
    'texts: for at in 0..core.state().inbox {
        match write_entry(core, out, at as usize) {
            Err(Failed) => return Err(Failed),
            Ok(()) => {}
        }
    }
    Ok(())
}

/// Writes the lines of the outbox.
pub(crate) fn write_outbox<K: Kem, O: Sink>(core: &Core<K>, out: &mut O) -> Result<(), Failed>
    ensures { Writes (O.at out.old) (O.at out.new) (outbox_lines core.now) result }
{
    'packets: for at in 0..core.state().outbox {
        match write_packet(core, out, at as usize) {
            Err(Failed) => return Err(Failed),
            Ok(()) => {}
        }
    }
    Ok(())
}

/// Writes the six lines of what the core is and holds.
pub(crate) fn write_state<K: Kem, O: Sink>(core: &Core<K>, out: &mut O) -> Result<(), Failed>
    ensures { Writes (O.at out.old) (O.at out.new) (state_lines core.now) result }
{
    match write_all(out, name_lines(core).as_bytes()) {
        Err(Failed) => Err(Failed),
        Ok(()) => write_all(out, count_lines(core).as_bytes()),
    }
}
