//! The commands that drop items of a box under a name.

ghost use Rattle.dr_disk.specs.Spans.{IsQuiet};
ghost use Rattle.dr_model.specs.Machines.Acts.{dropping};
ghost use Rattle.command_lines.specs.Asking.{asked_drop};
ghost use Rattle.command_lines.specs.Closing.{ending_by, lines_of_ending};
ghost use Rattle.command_lines.specs.InWorlds.{RunsActAt};
ghost use Rattle.command_lines.specs.Runs.{RunsAndCounts};
ghost use Rattle.book_commands.specs.Opening.{HasBookRoom};
ghost use Rattle.book_commands.specs.Places.{name_place};

use crate::endings_of::unopened;
use crate::outcomes::dropped_under;
use book::Book;
use book_store::BOOK_ROWS;
use command_lines::close;
use dr_disk::Disk;
use dr_ports::Sink;
use endings::{Ending, Status};
use kem_laws::Kem;
use session_model::{Answer, Which};
use session_record::record_law;
use std::alloc::Global;

/// Opens the book, whose session of the name drops items of a box.
fn open_and_drop<K: Kem, D: Disk>(
    alloc: Global,
    name: &str,
    which: Which,
    disk: &mut D,
) -> Result<Answer, Ending>
    requires { HasBookRoom (D.state disk.old) }
    ensures { RunsActAt (name_place K.mechanism name.now) D.state K.mechanism
        (asked_drop (dropping which)) disk.old disk.new
        (ending_by result) (lines_of_ending result) }
{
    record_law();
    match Book::<K>::open(alloc, disk, BOOK_ROWS) {
        Err(error) => Err(unopened(error)),
        Ok(mut book) => {
            let acted = book.drop_items(disk, name, which);
            dropped_under(Answer::Dropped(which), acted)
        }
    }
}

/// Drops items of a box of a name's session: texts of the inbox, which are done, and writes
/// `done N`, or packets of the outbox, which were sent, and writes `sent N`.
#[inline(never)]
pub fn drop_items<K: Kem, D: Disk, O: Sink>(
    alloc: Global,
    name: &str,
    which: Which,
    disk: &mut D,
    out: &mut O,
) -> Status
    requires { HasBookRoom (D.state disk.old) }
    ensures { RunsAndCounts
        (RunsActAt (name_place K.mechanism name.now) D.state K.mechanism
        (asked_drop (dropping which)) disk.old disk.new)
        (IsQuiet (D.state disk.old) (D.state disk.new))
        (O.at out.old) (O.at out.new) result.code }
{
    let worked = open_and_drop::<K, D>(alloc, name, which, disk);
    close(out, worked)
}
