//! The command over ports in memory, and the worked exchange.

use dr_disk::{Disk, MemoryDisk};
use dr_ports::{Door, MemoryDoor, MemorySink, Stand};
use relay_command::{RELAY_DISK_SIZE, relay};
use std::alloc::{AllocError, Global};

/// A fetch from the box `a`, the post of the packet 07 to it, another fetch, and the
/// acknowledgement of that packet.
pub const REQUESTS: &[u8] = b"\x00\x03\x02\x01a\x00\x04\x01\x01a\x07\x00\x03\x02\x01a\
    \x00\x0b\x03\x01a\x00\x00\x00\x00\x00\x00\x00\x01";

/// Empty, stored under 1, the packet, and acknowledged.
const REPLIES: &[u8] = b"\x00\x01\x83\x00\x09\x81\x00\x00\x00\x00\x00\x00\x00\x01\
    \x00\x0a\x82\x00\x00\x00\x00\x00\x00\x00\x01\x07\x00\x01\x84";

/// How many bytes the first two requests have.
const HALF: usize = 11;

/// A disk of zeros.
pub fn blank(alloc: Global) -> Result<MemoryDisk, AllocError> {
    MemoryDisk::new(alloc, RELAY_DISK_SIZE)
}

/// A door whose first connection holds this many bytes of the requests, and whose second one the
/// rest. Listening and accepting fail at the calls of the numbers `fails`, receiving and sending at
/// those of `pipe_fails`.
pub fn door(
    alloc: Global,
    cut: usize,
    fails: &[u64],
    pipe_fails: &[u64],
) -> Result<MemoryDoor, AllocError> {
    let cut = cut.min(REQUESTS.len());
    let ends = [cut, REQUESTS.len()];
    MemoryDoor::new(alloc, REQUESTS, &ends, 4096, fails, pipe_fails)
}

/// Runs the command into a sink. The status is that of no memory where the disk is too small.
fn run<D: Disk, L: Door>(
    alloc: Global,
    disk: &mut D,
    boxes: &[&str],
    count: u32,
    door: &mut L,
    out: &mut MemorySink,
) -> u8 {
    if disk.size() < RELAY_DISK_SIZE {
        return 13;
    }
    relay(alloc, 4000, count, boxes, disk, door, out).code
}

/// Whether the command ends with a status and wrote just these lines into a sink of this room.
pub fn ends<D: Disk, L: Door>(
    alloc: Global,
    disk: &mut D,
    boxes: &[&str],
    count: u32,
    door: &mut L,
    room: usize,
    status: u8,
    lines: &[u8],
) -> bool {
    match MemorySink::new(alloc, room, &[]) {
        Ok(mut out) => {
            run(alloc, disk, boxes, count, door, &mut out) == status && out.taken() == lines
        }
        Err(_) => false,
    }
}

/// Whether the worked exchange is answered over a door, at its port, in this many connections, each
/// of which has ended.
fn is_exchanged(
    alloc: Global,
    disk: &mut MemoryDisk,
    count: u32,
    door: &mut MemoryDoor,
    lines: &[u8],
) -> bool {
    ends(alloc, disk, &["a"], count, door, 4096, 0, lines)
        && door.port() == Some(4000)
        && matches!(door.stand(), Stand::Ended { .. })
        && door.sent() == REPLIES
}

/// Whether the worked exchange is answered so, with the requests cut there, in this many
/// connections.
fn exchanges(alloc: Global, count: u32, cut: usize, lines: &[u8]) -> bool {
    let Ok(mut disk) = blank(alloc) else {
        return false;
    };
    match door(alloc, cut, &[], &[]) {
        Ok(mut door) => is_exchanged(alloc, &mut disk, count, &mut door, lines),
        Err(_) => false,
    }
}

// In one connection or in two the replies are the same: the boxes stand on the disk between them.
#[test]
fn the_worked_exchange(rt: HostRuntime) {
    let alloc = rt.alloc();
    let one = b"relay 4000\nconnection 1 ended 4\n";
    assert!(rt; exchanges(alloc, 1, REQUESTS.len(), one));
    let two = b"relay 4000\nconnection 1 ended 2\nconnection 2 ended 2\n";
    assert!(rt; exchanges(alloc, 2, HALF, two));
}
