//! The command that begins a session.

ghost use Rattle.std.specs.Prelude.{◌≡◌, ◌≤◌};
ghost use Rattle.dr_disk.specs.Spans.{IsQuiet};
ghost use Rattle.session_commands.specs.Beginning.{Begins, RunsBegin};
ghost use Rattle.command_lines.specs.Closing.{begun_ending, begun_lines};
ghost use Rattle.session_commands.specs.Disks.{HasClientRoom};
ghost use Rattle.command_lines.specs.Runs.{RunsAndCounts};

use crate::endings_of::unbegun;
use bodies::Format;
use client::{Begin, Client};
use command_lines::{finish_with, read_key, session_line};
use dr_base::Side;
use dr_disk::Disk;
use dr_ports::{OutputLine, Sink, Source};
use endings::{Ending, Status, finish};
use kem_laws::Kem;
use slot_store::readings;
use std::alloc::Global;

/// Begins the session of a key in a format, and gives the line of its name.
fn begin_on<K: Kem, D: Disk>(
    alloc: Global,
    begin: &Begin,
    disk: &mut D,
) -> Result<OutputLine, Ending>
    requires { HasClientRoom (D.state disk.old) }
    ensures { Begins D.state K.mechanism begin.now disk.old disk.new
        (begun_ending result) (begun_lines result) }
{
    readings();
    match Client::<K>::begin(alloc, disk, begin.side, begin.format, &begin.key) {
        Err(refusal) => Err(unbegun(refusal)),
        Ok(client) => Ok(session_line(client.session())),
    }
}

/// Reads a key, and begins its session.
fn read_and_begin<K: Kem, D: Disk, S: Source>(
    alloc: Global,
    side: Side,
    format: Format,
    disk: &mut D,
    source: &mut S,
) -> Result<OutputLine, Ending>
    requires { HasClientRoom (D.state disk.old) }
    ensures runs { RunsBegin D.state K.mechanism side format (S.at source.old) (S.at source.new)
        disk.old disk.new (begun_ending result) (begun_lines result) }
    ensures later { (S.at source.old).faults ≤ (S.at source.new).faults }
{
    match read_key(alloc, source) {
        Err(ending) => Err(ending),
        Ok(key) => begin_on::<K, D>(alloc, &Begin { side, format, key }, disk),
    }
}

/// Begins the session of the key whose 64 hex digits the source holds, on a disk that holds none,
/// and writes `session S`. The side seals its texts in this format.
#[inline(never)]
pub fn begin<K: Kem, D: Disk, S: Source, O: Sink>(
    alloc: Global,
    side: Side,
    format: Format,
    disk: &mut D,
    source: &mut S,
    out: &mut O,
) -> Status
    requires { HasClientRoom (D.state disk.old) }
    ensures runs { RunsAndCounts
        (RunsBegin D.state K.mechanism side format (S.at source.old) (S.at source.new)
        disk.old disk.new)
        (IsQuiet (D.state disk.old) (D.state disk.new)
        × ((S.at source.new).faults ≡ (S.at source.old).faults))
        (O.at out.old) (O.at out.new) result.code }
    ensures reads { (S.at source.old).faults ≤ (S.at source.new).faults }
{
    match read_and_begin::<K, D, S>(alloc, side, format, disk, source) {
        Err(ending) => finish(out, ending),
        Ok(line) => finish_with(out, line.as_bytes()),
    }
}
