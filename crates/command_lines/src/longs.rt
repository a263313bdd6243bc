//! The long text of an id, shown, and the line of a part that was said.

ghost use Rattle.std.specs.Prelude.{◌≡◌, ◌≤◌, length};
ghost use Rattle.dr_ports.specs.Writing.{Writes};
ghost use Rattle.endings.specs.Ends.{Ends};
ghost use Rattle.long_text.specs.Longs.{long_of};
ghost use Rattle.long_text.specs.Seen.{Fills};
ghost use Rattle.long_text.specs.declared.limits.TheConstants.{LONG_LIMIT};
ghost use Rattle.command_lines.specs.LongLines.{long_ending, long_lines, said_part_line};

use crate::closing::finish_written;
use answer_lines::{put_part_number, put_position, write_long};
use client::Core;
use dr_base::Position;
use dr_ports::{Failed, OutputLine, Sink, write_all};
use endings::{Ending, Status, finish};
use kem_laws::Kem;
use long_text::{LONG_LIMIT, LongRefusal};

/// Joins the parts of the long text of an id at the beginning of the room.
fn join<K: Kem>(core: &Core<K>, id: u32, room: &mut [u8]) -> Result<usize, LongRefusal>
    requires { length room.old ≡ LONG_LIMIT }
    ensures { Fills room.old room.new result (long_of id core.now.inbox) }
{
    match room.as_mut_array::<LONG_LIMIT>() {
        Some(room) => core.long(id, room),
        None => unreachable!(),
    }
}

/// Writes the line of the long text of an id that a core's inbox has, `long ID "TEXT"`, or the last
/// line of why there is none. The text is joined in the room that is lent.
pub fn close_long<K: Kem, O: Sink>(core: &Core<K>, id: u32, room: &mut [u8], out: &mut O) -> Status
    requires { length room.old ≡ LONG_LIMIT }
    ensures ends { Ends (long_ending id core.now) (long_lines id core.now)
        (O.at out.old) (O.at out.new) result.code }
    ensures later { (O.at out.old).faults ≤ (O.at out.new).faults }
{
    match join(core, id, room) {
        Ok(len) => {
            let wrote = write_long(out, &[], id, &room[..len]);
            finish_written(out, wrote)
        }
        Err(refusal) => finish(out, Ending::Unjoined(refusal)),
    }
}

/// The line of a part that was said.
#[tactic(auto, unfolding(crate::specs::LongLines::said_part_line))]
fn said_part_line(position: Position, number: u8, count: u8) -> OutputLine
    ensures { result ≡ said_part_line position number count }
{
    let mut line = OutputLine::new();
    line.text(b"said ");
    put_position(&mut line, position);
    put_part_number(&mut line, number, count);
    line.text(b"\n");
    line
}

/// Writes the line of a part that was said, `said E.I part K/N`.
pub fn write_said_part<O: Sink>(
    out: &mut O,
    position: Position,
    number: u8,
    count: u8,
) -> Result<(), Failed>
    ensures { Writes (O.at out.old) (O.at out.new) (said_part_line position number count) result }
{
    write_all(out, said_part_line(position, number, count).as_bytes())
}
