//! The command that forgets the session of a name.

ghost use Rattle.dr_disk.specs.Spans.{IsQuiet};
ghost use Rattle.command_lines.specs.Runs.{RunsAndCounts};
ghost use Rattle.book_commands.specs.Forgetting.{RunsForget, forgot_ending, forgot_lines};
ghost use Rattle.book_commands.specs.Opening.{HasBookRoom};

use crate::endings_of::unopened;
use crate::lines::write_forgot;
use crate::outcomes::forgotten_under;
use book::Book;
use book_store::{BOOK_ROWS, resting_books};
use command_lines::finish_written;
use dr_disk::Disk;
use dr_ports::Sink;
use endings::{Ending, Status, finish};
use kem_laws::Kem;
use session_record::record_law;
use std::alloc::Global;

/// Opens the book, which forgets the session of the name.
fn open_and_forget<K: Kem, D: Disk>(alloc: Global, name: &str, disk: &mut D) -> Result<(), Ending>
    requires { HasBookRoom (D.state disk.old) }
    ensures { RunsForget D.state K.mechanism name.now disk.old disk.new
        (forgot_ending result) (forgot_lines name.now result) }
{
    record_law();
    resting_books();
    match Book::<K>::open(alloc, disk, BOOK_ROWS) {
        Err(error) => Err(unopened(error)),
        Ok(mut book) => {
            let acted = book.forget(disk, name);
            forgotten_under(acted)
        }
    }
}

/// Forgets the session of a name, and writes `forgot NAME`.
#[inline(never)]
pub fn forget<K: Kem, D: Disk, O: Sink>(
    alloc: Global,
    name: &str,
    disk: &mut D,
    out: &mut O,
) -> Status
    requires { HasBookRoom (D.state disk.old) }
    ensures { RunsAndCounts (RunsForget D.state K.mechanism name.now disk.old disk.new)
        (IsQuiet (D.state disk.old) (D.state disk.new))
        (O.at out.old) (O.at out.new) result.code }
{
    match open_and_forget::<K, D>(alloc, name, disk) {
        Err(ending) => finish(out, ending),
        Ok(()) => {
            let wrote = write_forgot(name, out);
            finish_written(out, wrote)
        }
    }
}
