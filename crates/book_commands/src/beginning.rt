//! The command that begins a session under a name.

ghost use Rattle.std.specs.Prelude.{◌≡◌, ◌≤◌, IsSome, Some};
ghost use Rattle.book_model.specs.Rows.{under};
ghost use Rattle.dr_disk.specs.Spans.{IsQuiet};
ghost use Rattle.session_model.specs.Clients.{Client};
ghost use Rattle.command_lines.specs.Closing.{begun_ending, begun_lines};
ghost use Rattle.command_lines.specs.Lines.{session_line};
ghost use Rattle.command_lines.specs.Runs.{RunsAndCounts};
ghost use Rattle.book_commands.specs.Beginning.{BeginsUnder, RunsBeginUnder};
ghost use Rattle.book_commands.specs.Opening.{HasBookRoom};

use crate::endings_of::{unbegun, unopened};
use bodies::Format;
use book::{Book, NoName};
use book_store::{BOOK_ROWS, resting_books};
use client::Begin;
use command_lines::{finish_with, read_key, session_line};
use dr_base::Side;
use dr_disk::Disk;
use dr_model::both_sides_follow;
use dr_ports::{OutputLine, Sink, Source};
use endings::{Ending, Status, finish};
use kem_laws::{Kem, laws};
use session_record::record_law;
use std::alloc::Global;

/// The line of a session of the book.
fn begun_line<K: Kem>(book: &Book<K>, name: &str) -> OutputLine
    requires { IsSome (under name.now book.now.rows) }
    ensures { (kept : Client) → under name.now book.now.rows ≡ Some kept
        → result ≡ session_line kept.state.session }
{
    match book.core(name) {
        Err(NoName) => unreachable!(),
        Ok(core) => session_line(core.session()),
    }
}

/// Begins the session of a key in a format under a name, and gives the line of its own name.
fn begin_on<K: Kem, D: Disk>(
    alloc: Global,
    name: &str,
    begin: &Begin,
    disk: &mut D,
) -> Result<OutputLine, Ending>
    requires { HasBookRoom (D.state disk.old) }
    ensures { BeginsUnder D.state K.mechanism name.now begin.now disk.old disk.new
        (begun_ending result) (begun_lines result) }
{
    laws::<K>();
    both_sides_follow();
    record_law();
    resting_books();
    match Book::<K>::open(alloc, disk, BOOK_ROWS) {
        Err(error) => Err(unopened(error)),
        Ok(mut book) => {
            match book.begin(alloc, disk, name, begin.side, begin.format, &begin.key) {
                Err(error) => Err(unbegun(error)),
                Ok(()) => Ok(begun_line(&book, name)),
            }
        }
    }
}

/// Reads a key, and begins its session.
fn read_and_begin<K: Kem, D: Disk, S: Source>(
    alloc: Global,
    name: &str,
    side: Side,
    format: Format,
    disk: &mut D,
    source: &mut S,
) -> Result<OutputLine, Ending>
    requires { HasBookRoom (D.state disk.old) }
    ensures runs { RunsBeginUnder D.state K.mechanism name.now side format
        (S.at source.old) (S.at source.new)
        disk.old disk.new (begun_ending result) (begun_lines result) }
    ensures later { (S.at source.old).faults ≤ (S.at source.new).faults }
{
    match read_key(alloc, source) {
        Err(ending) => Err(ending),
        Ok(key) => begin_on::<K, D>(alloc, name, &Begin { side, format, key }, disk),
    }
}

/// Begins the session of the key whose 64 hex digits the source holds under a name, in the lowest
/// absent row, and writes `session S`. The side seals its texts in this format. Once the book is
/// open it refuses `BadName`, `NameTaken`, `BookFull` and then `NoPair`.
#[inline(never)]
pub fn begin<K: Kem, D: Disk, S: Source, O: Sink>(
    alloc: Global,
    name: &str,
    side: Side,
    format: Format,
    disk: &mut D,
    source: &mut S,
    out: &mut O,
) -> Status
    requires { HasBookRoom (D.state disk.old) }
    ensures runs { RunsAndCounts
        (RunsBeginUnder D.state K.mechanism name.now side format
        (S.at source.old) (S.at source.new) disk.old disk.new)
        (IsQuiet (D.state disk.old) (D.state disk.new)
        × ((S.at source.new).faults ≡ (S.at source.old).faults))
        (O.at out.old) (O.at out.new) result.code }
    ensures reads { (S.at source.old).faults ≤ (S.at source.new).faults }
{
    match read_and_begin::<K, D, S>(alloc, name, side, format, disk, source) {
        Err(ending) => finish(out, ending),
        Ok(line) => finish_with(out, line.as_bytes()),
    }
}
