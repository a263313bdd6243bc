//! The command as a whole.

ghost use Rattle.std.specs.Prelude.{◌≡◌, ◌<◌, ◌≤◌, ℕ, length, map};
ghost use Rattle.dr_disk.specs.declared.call.Call.{Call};
ghost use Rattle.dr_disk.specs.Spans.{IsQuiet};
ghost use Rattle.dr_ports.specs.declared.pipe.Part.{Part};
ghost use Rattle.dr_ports.specs.declared.pipe.Part.TheVariants.{Gate};
ghost use Rattle.relay_core.specs.declared.limits.TheConstants.{RELAY_LIMIT};
ghost use Rattle.relay_command.specs.Names.{AreNames};
ghost use Rattle.relay_command.specs.Relaying.{Looks, RunsRelay, ending_after_look};
ghost use Rattle.relay_command.specs.declared.relaying.TheConstants.{RELAY_DISK_SIZE};

use crate::names::{check_names, specs_of};
use crate::serving::serve_all;
use dr_disk::Disk;
use dr_ports::{Door, Failed, Sink};
use endings::{Ending, Status, finish};
use relay_core::RELAY_LIMIT;
use relay_server::{HALF_SIZE, Looked, Server, ServerOpenError, UPPER_START};
use std::alloc::Global;

/// The size of the disk of a relay, in bytes: the areas of 16 boxes.
pub const RELAY_DISK_SIZE: u64 = UPPER_START + HALF_SIZE * RELAY_LIMIT as u64;

/// How the command ends where the look is refused. Boxes are counted from 1 here.
fn unopened(error: ServerOpenError) -> Ending
    requires name { (k : ℕ) → error ≡ ServerOpenError.BoxName k → k < RELAY_LIMIT }
    requires keys { (k : ℕ) → error ≡ ServerOpenError.BoxKeys k → k < RELAY_LIMIT }
    ensures { result ≡ ending_after_look error }
{
    match error {
        ServerOpenError::Memory => Ending::NoMemory,
        ServerOpenError::StoreFault { .. } => Ending::DiskFault,
        ServerOpenError::Damaged { area, slot, at } => Ending::DamagedArea { area, slot, at },
        ServerOpenError::BoxName { k } => Ending::BoxName(k + 1),
        ServerOpenError::BoxKeys { k } => Ending::BoxKeys(k + 1),
    }
}

/// Looks at the areas of these boxes.
fn look<A: Disk>(alloc: Global, boxes: &[&str], disk: &mut A) -> Result<Looked, Ending>
    requires names { AreNames (map (λ word. word.now) boxes.now) }
    requires few { length boxes.now ≤ RELAY_LIMIT }
    requires within { RELAY_DISK_SIZE ≤ (A.state disk.old).size }
    ensures { Looks (map (λ word. word.now) boxes.now) (A.state disk.old)
        (A.state disk.new) result }
{
    let Ok(specs) = specs_of(alloc, boxes) else {
        return Err(Ending::NoMemory);
    };
    match Server::look(alloc, disk, specs.as_slice()) {
        Err(error) => Err(unopened(error)),
        Ok(looked) => Ok(looked),
    }
}

/// Serves a relay with these boxes on this many connections at a port: the line `relay PORT` once
/// it listens, and for the I-th connection `connection I ended N`, with N the number of its
/// replies, or `connection I failed`, where receiving or sending failed.
///
/// A word is the name of a box, or the name, `=`, and the keys of its guard: the owner's, a comma
/// and the poster's, each as 64 hex digits of either case.
///
/// The words are looked at first: `BadBox K` exactly where the K-th, from 1, is the first that says
/// no box, has the name of one before it, or is the 17th. Then the areas are looked at: want of
/// memory, `DiskFault`, `DamagedArea`, `BoxName` and `BoxKeys` as `relay_server::Server::look`
/// tells them, with boxes counted from 1. Only then is the door touched: it listens at the port.
/// `LinkFault` where it couldn't, and then no record was put, and no byte written where the areas
/// were read at rest or as zeros. Once it listens, each area without a record gets an empty box's,
/// and each connection is accepted, served and ended, also where a call on it or on the disk
/// failed. `LinkFault` where accepting failed. A call on the disk that failed ends the command with
/// `DiskFault`, and a line that couldn't be written ends it with status 5.
#[inline(never)]
pub fn relay<A: Disk, L: Door, O: Sink>(
    alloc: Global,
    port: u16,
    count: u32,
    boxes: &[&str],
    disk: &mut A,
    door: &mut L,
    out: &mut O,
) -> Status
    requires { RELAY_DISK_SIZE ≤ (A.state disk.old).size }
    ensures runs { RunsRelay A.state L.port
        (map (λ word. word.now) boxes.now) port count disk.old disk.new door.old door.new
        (O.at out.old) (O.at out.new) result.code }
    // Status 0 says that no call on the disk failed, nor listening, accepting or writing.
    ensures quiet { result.code ≡ 0 → IsQuiet (A.state disk.old) (A.state disk.new)
        × ((L.port door.new).faults Gate ≡ (L.port door.old).faults Gate)
        × ((O.at out.new).faults ≡ (O.at out.old).faults) }
    // No count falls.
    ensures later { (O.at out.old).faults ≤ (O.at out.new).faults }
    ensures counts { (call : Call)
        → (A.state disk.old).faults call ≤ (A.state disk.new).faults call }
    ensures door_counts { (part : Part)
        → (L.port door.old).faults part ≤ (L.port door.new).faults part }
{
    match check_names(boxes) {
        Err(number) => return finish(out, Ending::BadBox(number)),
        Ok(()) => {}
    }
    let looked = match look(alloc, boxes, disk) {
        Err(ending) => return finish(out, ending),
        Ok(looked) => looked,
    };
    match door.listen(port) {
        Err(Failed) => return finish(out, Ending::LinkFault),
        Ok(()) => {}
    }
    match looked.settle(disk) {
        Err(_) => finish(out, Ending::DiskFault),
        Ok(mut server) => serve_all(port, count, &mut server, disk, door, out),
    }
}
