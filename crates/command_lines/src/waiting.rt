//! The lines of the texts that wait for a receipt.

ghost use Rattle.std.specs.Prelude.{◌≡◌, ◌<◌, [], codes, flat_map, length, slice_index_or};
ghost use Rattle.answer_lines.specs.Texts.{place_line};
ghost use Rattle.dr_base.specs.declared.position.Position.{Position};
ghost use Rattle.dr_ports.specs.Writing.{Writes};
ghost use Rattle.command_lines.specs.Lines.{awaiting_lines, count_line};

use crate::lines::put_count;
use answer_lines::place_line;
use client::Core;
use dr_ports::{Failed, OutputLine, Sink, write_all};
use kem_laws::Kem;

/// The line of how many texts wait.
fn waiting_line<K: Kem>(core: &Core<K>) -> OutputLine
    ensures { result ≡ count_line (codes "awaiting ") (length core.now.state.awaiting) }
{
    let mut line = OutputLine::new();
    put_count(&mut line, b"awaiting ", core.waiting());
    line
}

/// Writes the line of a text that waits.
fn write_place<K: Kem, O: Sink>(core: &Core<K>, out: &mut O, at: usize) -> Result<(), Failed>
    requires { at < length core.now.state.awaiting }
    ensures { (d : Position) → Writes (O.at out.old) (O.at out.new)
        (place_line [] (slice_index_or core.now.state.awaiting at d)) result }
{
    match core.awaiting(at) {
        Some(position) => write_all(out, place_line(&[], position).as_bytes()),
        None => Ok(()),
    }
}

/// Writes the lines of the texts that wait.
fn write_places<K: Kem, O: Sink>(core: &Core<K>, out: &mut O) -> Result<(), Failed>
    ensures { Writes (O.at out.old) (O.at out.new)
        (flat_map (place_line []) core.now.state.awaiting) result }
{
    'texts: for at in 0..core.waiting() {
        match write_place(core, out, at as usize) {
            Err(Failed) => return Err(Failed),
            Ok(()) => {}
        }
    }
    Ok(())
}

/// Writes how many texts wait, and their lines.
pub(crate) fn write_awaiting<K: Kem, O: Sink>(core: &Core<K>, out: &mut O) -> Result<(), Failed>
    ensures { Writes (O.at out.old) (O.at out.new) (awaiting_lines core.now) result }
{
    match write_all(out, waiting_line(core).as_bytes()) {
        Err(Failed) => Err(Failed),
        Ok(()) => write_places(core, out),
    }
}
