//! The command that takes a packet.

ghost use Rattle.std.specs.Prelude.{◌≡◌, ◌≤◌};
ghost use Rattle.dr_disk.specs.Spans.{IsQuiet};
ghost use Rattle.command_lines.specs.Asking.{asked_take};
ghost use Rattle.command_lines.specs.Closing.{ending_by, lines_of_ending};
ghost use Rattle.session_commands.specs.Disks.{HasClientRoom};
ghost use Rattle.session_commands.specs.Acting.{RunsAct};
ghost use Rattle.command_lines.specs.Runs.{RunsAndCounts};
ghost use Rattle.session_commands.specs.Taking.{RunsTake};

use crate::endings_of::unopened;
use client::Client;
use command_lines::{close, read_packet, taken};
use dr_disk::Disk;
use dr_ports::{Sink, Source};
use endings::{Ending, Status};
use kem_laws::Kem;
use session_model::Answer;
use std::alloc::Global;

/// Opens the client, which takes a packet.
fn take_packet<K: Kem, D: Disk>(
    alloc: Global,
    packet: &[u8],
    disk: &mut D,
) -> Result<Answer, Ending>
    requires { HasClientRoom (D.state disk.old) }
    ensures { RunsAct D.state K.mechanism (asked_take K.mechanism packet.now) disk.old disk.new
        (ending_by result) (lines_of_ending result) }
{
    match Client::<K>::open(alloc, disk) {
        Err(refusal) => Err(unopened(refusal)),
        Ok(mut client) => {
            let acted = client.take(disk, packet);
            taken(acted)
        }
    }
}

/// Reads a packet, and takes it.
fn read_and_take<K: Kem, D: Disk, S: Source>(
    alloc: Global,
    disk: &mut D,
    source: &mut S,
) -> Result<Answer, Ending>
    requires { HasClientRoom (D.state disk.old) }
    ensures runs { RunsTake D.state K.mechanism (S.at source.old) (S.at source.new)
        disk.old disk.new (ending_by result) (lines_of_ending result) }
    ensures later { (S.at source.old).faults ≤ (S.at source.new).faults }
{
    match read_packet(alloc, source) {
        Err(ending) => Err(ending),
        Ok(packet) => take_packet::<K, D>(alloc, packet.as_slice(), disk),
    }
}

/// Takes the packet whose hex digits the source holds, and writes `opened E.I`. Where the source
/// holds none the disk is left alone.
#[inline(never)]
pub fn take<K: Kem, D: Disk, S: Source, O: Sink>(
    alloc: Global,
    disk: &mut D,
    source: &mut S,
    out: &mut O,
) -> Status
    requires { HasClientRoom (D.state disk.old) }
    ensures runs { RunsAndCounts
        (RunsTake D.state K.mechanism (S.at source.old) (S.at source.new) disk.old disk.new)
        (IsQuiet (D.state disk.old) (D.state disk.new)
        × ((S.at source.new).faults ≡ (S.at source.old).faults))
        (O.at out.old) (O.at out.new) result.code }
    ensures reads { (S.at source.old).faults ≤ (S.at source.new).faults }
{
    let worked = read_and_take::<K, D, S>(alloc, disk, source);
    close(out, worked)
}
