//! The command that takes a packet under a name.

ghost use Rattle.std.specs.Prelude.{◌≡◌, ◌≤◌};
ghost use Rattle.dr_disk.specs.Spans.{IsQuiet};
ghost use Rattle.command_lines.specs.Asking.{asked_take};
ghost use Rattle.command_lines.specs.Closing.{ending_by, lines_of_ending};
ghost use Rattle.command_lines.specs.InWorlds.{RunsActAt};
ghost use Rattle.command_lines.specs.Runs.{RunsAndCounts, RunsTakeAt};
ghost use Rattle.book_commands.specs.Opening.{HasBookRoom};
ghost use Rattle.book_commands.specs.Places.{name_place};

use crate::endings_of::unopened;
use crate::outcomes::taken_under;
use book::Book;
use book_store::BOOK_ROWS;
use command_lines::{close, read_packet};
use dr_disk::Disk;
use dr_ports::{Sink, Source};
use endings::{Ending, Status};
use kem_laws::Kem;
use session_model::Answer;
use session_record::record_law;
use std::alloc::Global;

/// Opens the book, whose session of the name takes a packet.
fn take_packet<K: Kem, D: Disk>(
    alloc: Global,
    name: &str,
    packet: &[u8],
    disk: &mut D,
) -> Result<Answer, Ending>
    requires { HasBookRoom (D.state disk.old) }
    ensures { RunsActAt (name_place K.mechanism name.now) D.state K.mechanism
        (asked_take K.mechanism packet.now) disk.old disk.new
        (ending_by result) (lines_of_ending result) }
{
    record_law();
    match Book::<K>::open(alloc, disk, BOOK_ROWS) {
        Err(error) => Err(unopened(error)),
        Ok(mut book) => {
            let acted = book.take(disk, name, packet);
            taken_under(acted)
        }
    }
}

/// Reads a packet, and takes it.
fn read_and_take<K: Kem, D: Disk, S: Source>(
    alloc: Global,
    name: &str,
    disk: &mut D,
    source: &mut S,
) -> Result<Answer, Ending>
    requires { HasBookRoom (D.state disk.old) }
    ensures runs { RunsTakeAt (name_place K.mechanism name.now) D.state K.mechanism
        (S.at source.old) (S.at source.new)
        disk.old disk.new (ending_by result) (lines_of_ending result) }
    ensures later { (S.at source.old).faults ≤ (S.at source.new).faults }
{
    match read_packet(alloc, source) {
        Err(ending) => Err(ending),
        Ok(packet) => take_packet::<K, D>(alloc, name, packet.as_slice(), disk),
    }
}

/// Takes the packet whose hex digits the source holds in the session of a name, and writes
/// `opened E.I`. Where the source holds none the disk is left alone.
#[inline(never)]
pub fn take<K: Kem, D: Disk, S: Source, O: Sink>(
    alloc: Global,
    name: &str,
    disk: &mut D,
    source: &mut S,
    out: &mut O,
) -> Status
    requires { HasBookRoom (D.state disk.old) }
    ensures runs { RunsAndCounts
        (RunsTakeAt (name_place K.mechanism name.now) D.state K.mechanism
        (S.at source.old) (S.at source.new) disk.old disk.new)
        (IsQuiet (D.state disk.old) (D.state disk.new)
        × ((S.at source.new).faults ≡ (S.at source.old).faults))
        (O.at out.old) (O.at out.new) result.code }
    ensures reads { (S.at source.old).faults ≤ (S.at source.new).faults }
{
    let worked = read_and_take::<K, D, S>(alloc, name, disk, source);
    close(out, worked)
}
