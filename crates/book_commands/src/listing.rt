//! The command that lists the names of a book.

ghost use Rattle.std.specs.Prelude.{◌≡◌, ◌<◌, None, get_or, length};
ghost use Rattle.book_store.specs.declared.layout.TheConstants.{BOOK_ROWS};
ghost use Rattle.dr_disk.specs.Spans.{IsQuiet};
ghost use Rattle.dr_ports.specs.Writing.{Writes};
ghost use Rattle.command_lines.specs.Runs.{RunsAndCounts};
ghost use Rattle.book_commands.specs.Listing.{RunsList, name_lines, row_line};
ghost use Rattle.book_commands.specs.Opening.{HasBookRoom};

use crate::endings_of::unopened;
use crate::lines::write_name;
use book::Book;
use book_store::BOOK_ROWS;
use command_lines::finish_written;
use dr_disk::Disk;
use dr_ports::{Failed, Sink};
use endings::{Status, finish};
use kem_laws::Kem;
use std::alloc::Global;

/// Writes the name of a row, where it is present.
fn write_row<K: Kem, O: Sink>(book: &Book<K>, row: usize, out: &mut O) -> Result<(), Failed>
    ensures { Writes (O.at out.old) (O.at out.new) (row_line (get_or book.now.rows row None))
        result }
{
    match book.name(row) {
        None => Ok(()),
        Some(name) => write_name(name, out),
    }
}

/// Writes the names of all rows.
fn write_names<K: Kem, O: Sink>(book: &Book<K>, out: &mut O) -> Result<(), Failed>
    requires { length book.now.rows ≡ BOOK_ROWS }
    ensures { Writes (O.at out.old) (O.at out.new) (name_lines book.now.rows) result }
{
    'rows: for row in 0..BOOK_ROWS {
        match write_row(book, row as usize, out) {
            Err(Failed) => return Err(Failed),
            Ok(()) => {}
        }
    }
    Ok(())
}

/// Lists the names of a book, a line for each, by row.
#[inline(never)]
pub fn list<K: Kem, D: Disk, O: Sink>(alloc: Global, disk: &mut D, out: &mut O) -> Status
    requires { HasBookRoom (D.state disk.old) }
    ensures { RunsAndCounts (RunsList D.state K.mechanism disk.old disk.new)
        (IsQuiet (D.state disk.old) (D.state disk.new))
        (O.at out.old) (O.at out.new) result.code }
{
    match Book::<K>::open(alloc, disk, BOOK_ROWS) {
        Err(error) => finish(out, unopened(error)),
        Ok(book) => {
            let wrote = write_names(&book, out);
            finish_written(out, wrote)
        }
    }
}
