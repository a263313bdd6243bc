//! The command that shows what a name's session keeps.

ghost use Rattle.command_lines.specs.Listings.{lines_of};
ghost use Rattle.dr_disk.specs.Spans.{IsQuiet};
ghost use Rattle.command_lines.specs.Runs.{RunsAndCounts};
ghost use Rattle.command_lines.specs.Showing.{RunsShowAt};
ghost use Rattle.book_commands.specs.Opening.{HasBookRoom};
ghost use Rattle.book_commands.specs.Places.{name_place};

use crate::endings_of::unopened;
use book::{Book, NoName};
use book_store::BOOK_ROWS;
use command_lines::{Listing, finish_written, write_listing};
use dr_disk::Disk;
use dr_ports::Sink;
use endings::{Ending, Status, finish};
use kem_laws::Kem;
use session_record::record_law;
use std::alloc::Global;

/// Shows what the session of a name keeps: the lines of a listing.
#[inline(never)]
pub fn show<K: Kem, D: Disk, O: Sink>(
    alloc: Global,
    name: &str,
    listing: Listing,
    disk: &mut D,
    out: &mut O,
) -> Status
    requires { HasBookRoom (D.state disk.old) }
    ensures { RunsAndCounts
        (RunsShowAt (name_place K.mechanism name.now) D.state K.mechanism (lines_of listing)
        disk.old disk.new)
        (IsQuiet (D.state disk.old) (D.state disk.new))
        (O.at out.old) (O.at out.new) result.code }
{
    record_law();
    match Book::<K>::open(alloc, disk, BOOK_ROWS) {
        Err(error) => finish(out, unopened(error)),
        Ok(book) => match book.core(name) {
            Err(NoName) => finish(out, Ending::NoName),
            Ok(core) => {
                let wrote = write_listing(core, listing, out);
                finish_written(out, wrote)
            }
        },
    }
}
