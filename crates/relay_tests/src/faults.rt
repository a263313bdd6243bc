//! The command's faults, each once, and words that it refuses.

use crate::command::{REQUESTS, blank, door, ends};
use crate::server::set_gate;
use dr_disk::MemoryDisk;
use std::alloc::Global;

/// Whether the command ends so for these boxes, without a connection.
fn ends_unasked(
    alloc: Global,
    disk: &mut MemoryDisk,
    boxes: &[&str],
    status: u8,
    lines: &[u8],
) -> bool {
    match door(alloc, 0, &[], &[]) {
        Ok(mut door) => ends(alloc, disk, boxes, 0, &mut door, 4096, status, lines),
        Err(_) => false,
    }
}

/// 17 names, one more than a relay may have.
const MANY: [&str; 17] = [
    "a", "b", "c", "d", "e", "f", "g", "h", "i", "j", "k", "l", "m", "n", "o", "p", "q",
];

/// The box `b` with two keys of 64 digits, and with a digit less.
const GUARDED: &str = "b=\
    0000000000000000000000000000000000000000000000000000000000000000,\
    aaaaaaaaaaaaaaaaaaaaaaaaaaaaaaaaAAAAAAAAAAAAAAAAAAAAAAAAAAAAAAAA";

const SHORT: &str = "b=\
    0000000000000000000000000000000000000000000000000000000000000000,\
    aaaaaaaaaaaaaaaaaaaaaaaaaaaaaaaaAAAAAAAAAAAAAAAAAAAAAAAAAAAAAAA";

/// Words, the status, and the lines: the first ones are taken, and the others refused on that disk.
const NAMES: [(&[&str], u8, &[u8]); 13] = [
    (&["b"], 0, b"relay 4000\n"),
    (&["a"], 3, b"refused: BoxName 1\n"),
    (&[GUARDED], 3, b"refused: BoxKeys 1\n"),
    (&[SHORT], 3, b"refused: BadBox 1\n"),
    (&["b="], 3, b"refused: BadBox 1\n"),
    (&["b=,"], 3, b"refused: BadBox 1\n"),
    (&["=,"], 3, b"refused: BadBox 1\n"),
    (&["b", GUARDED], 3, b"refused: BadBox 2\n"),
    (&[GUARDED, "b"], 3, b"refused: BadBox 2\n"),
    (&["b", "b"], 3, b"refused: BadBox 2\n"),
    (&["b", "c", "D"], 3, b"refused: BadBox 3\n"),
    (&[""], 3, b"refused: BadBox 1\n"),
    (&MANY, 3, b"refused: BadBox 17\n"),
];

/// Whether each row of words ends so.
fn refuse(alloc: Global, disk: &mut MemoryDisk) -> bool {
    for (boxes, status, lines) in NAMES {
        if !ends_unasked(alloc, disk, boxes, status, lines) {
            return false;
        }
    }
    true
}

/// Whether the command ends so for one connection to the box `a`, over a door whose calls of these
/// numbers fail.
fn ends_over(
    alloc: Global,
    disk: &mut MemoryDisk,
    fails: &[u64],
    pipe_fails: &[u64],
    room: usize,
    status: u8,
    lines: &[u8],
) -> bool {
    match door(alloc, REQUESTS.len(), fails, pipe_fails) {
        Ok(mut door) => ends(alloc, disk, &["a"], 1, &mut door, room, status, lines),
        Err(_) => false,
    }
}

/// Whether listening, accepting, receiving, and the writing of a line fail.
fn fail(alloc: Global, disk: &mut MemoryDisk) -> bool {
    let unaccepted = b"relay 4000\nfault: link\n";
    let failed = b"relay 4000\nconnection 1 failed\n";
    ends_over(alloc, disk, &[1], &[], 4096, 7, b"fault: link\n")
        && ends_over(alloc, disk, &[2], &[], 4096, 7, unaccepted)
        && ends_over(alloc, disk, &[], &[1], 4096, 0, failed)
        && ends_over(alloc, disk, &[], &[], 5, 5, b"relay")
        && ends_over(alloc, disk, &[], &[], 13, 5, b"relay 4000\nco")
}

/// Whether the disk's fault is told so where it stops after this many writes and syncs.
fn stops(alloc: Global, disk: &mut MemoryDisk, passes: u32, lines: &[u8]) -> bool {
    disk.stop_after(passes);
    let is_told = ends_over(alloc, disk, &[], &[], 4096, 6, lines);
    disk.go_on();
    is_told
}

/// Whether the store fails as it is opened, whose one sync is the first call, and while a packet is
/// posted.
fn stop(alloc: Global, disk: &mut MemoryDisk) -> bool {
    ends_unasked(alloc, disk, &["a"], 0, b"relay 4000\n")
        && stops(alloc, disk, 0, b"fault: disk\n")
        && stops(alloc, disk, 2, b"relay 4000\nfault: disk\n")
}

/// Whether an area of which both gates are set, and no turn is greater, is damaged.
fn damage(alloc: Global, disk: &mut MemoryDisk) -> bool {
    let lines = b"damaged area 0 slot 1 at 1\n";
    ends_unasked(alloc, disk, &["a"], 0, b"relay 4000\n")
        && set_gate(disk, 0)
        && set_gate(disk, 4_096)
        && ends_over(alloc, disk, &[], &[], 4096, 11, lines)
}

/// What is met on a new disk.
#[derive(Clone, Copy)]
enum Fault {
    Names,
    Ports,
    Stops,
    Damage,
}

/// Whether it ends as it should.
fn meet(alloc: Global, disk: &mut MemoryDisk, fault: Fault) -> bool {
    match fault {
        Fault::Names => refuse(alloc, disk),
        Fault::Ports => fail(alloc, disk),
        Fault::Stops => stop(alloc, disk),
        Fault::Damage => damage(alloc, disk),
    }
}

/// The same on a new disk.
fn meets(alloc: Global, fault: Fault) -> bool {
    match blank(alloc) {
        Ok(mut disk) => meet(alloc, &mut disk, fault),
        Err(_) => false,
    }
}

#[test]
fn faults_of_the_command(rt: HostRuntime) {
    for fault in [Fault::Names, Fault::Ports, Fault::Stops, Fault::Damage] {
        assert!(rt; meets(rt.alloc(), fault));
    }
}
