//! The command that says a text under a name.

ghost use Rattle.std.specs.Prelude.{◌≡◌};
ghost use Rattle.dr_disk.specs.Spans.{IsQuiet};
ghost use Rattle.command_lines.specs.Asking.{asked_say};
ghost use Rattle.command_lines.specs.Closing.{ending_by, lines_of_ending};
ghost use Rattle.command_lines.specs.InWorlds.{RunsActAt};
ghost use Rattle.command_lines.specs.Runs.{RunsAndCounts};
ghost use Rattle.book_commands.specs.Opening.{HasBookRoom};
ghost use Rattle.book_commands.specs.Places.{name_place};

use crate::endings_of::unopened;
use crate::outcomes::said_under;
use book::Book;
use book_store::BOOK_ROWS;
use command_lines::close;
use dr_disk::Disk;
use dr_ports::{Draws, Sink};
use endings::{Ending, Status};
use kem_laws::Kem;
use session_model::Answer;
use session_record::record_law;
use std::alloc::Global;

/// Opens the book, whose session of the name says the text.
fn say_text<K: Kem, D: Disk, W: Draws>(
    alloc: Global,
    name: &str,
    text: &[u8],
    disk: &mut D,
    draws: &mut W,
) -> Result<Answer, Ending>
    requires { HasBookRoom (D.state disk.old) }
    ensures { RunsActAt (name_place K.mechanism name.now) D.state K.mechanism
        (asked_say W.at text.now draws.old draws.new) disk.old disk.new
        (ending_by result) (lines_of_ending result) }
{
    record_law();
    match Book::<K>::open(alloc, disk, BOOK_ROWS) {
        Err(error) => Err(unopened(error)),
        Ok(mut book) => {
            let acted = book.say(disk, name, text, draws);
            said_under(acted)
        }
    }
}

/// Says a text in the session of a name, and writes `said E.I`. A seed is drawn exactly where the
/// book has the name and the text needs one.
#[inline(never)]
pub fn say<K: Kem, D: Disk, O: Sink, W: Draws>(
    alloc: Global,
    name: &str,
    text: &[u8],
    disk: &mut D,
    out: &mut O,
    draws: &mut W,
) -> Status
    requires { HasBookRoom (D.state disk.old) }
    ensures { RunsAndCounts
        (RunsActAt (name_place K.mechanism name.now) D.state K.mechanism
        (asked_say W.at text.now draws.old draws.new) disk.old disk.new)
        (IsQuiet (D.state disk.old) (D.state disk.new)
        × ((W.at draws.new).faults ≡ (W.at draws.old).faults))
        (O.at out.old) (O.at out.new) result.code }
{
    let worked = say_text::<K, D, W>(alloc, name, text, disk, draws);
    close(out, worked)
}
