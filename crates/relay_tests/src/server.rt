//! The worked connection, servers that stop and are opened again, and openings that are refused.

ghost use Rattle.std.specs.Prelude.{IfOk};
ghost use Rattle.relay_core.specs.Record.{box_text};
ghost use Rattle.relay_server.specs.Durable.{IsServerReady};

use dr_disk::{Call, Disk, MemoryDisk, Mode};
use dr_ports::MemoryPipe;
use relay_core::BoxSpec;
use relay_server::{Ended, HALF_SIZE, ServeFault, Server, ServerOpenError, UPPER_START};
use relay_wire::Name;
use std::alloc::{AllocError, Global};

/// The size of a disk with room for one box.
const SIZE: u64 = UPPER_START + HALF_SIZE;

/// Requests for the boxes `a` and `b`, bytes that are none, a frame of no lawful length, and one
/// request more.
const REQUESTS: &[u8] = b"\x00\x03\x02\x01a\x00\x04\x01\x01a\x07\x00\x03\x02\x01a\
    \x00\x0b\x03\x01a\x00\x00\x00\x00\x00\x00\x00\x01\x00\x0b\x03\x01a\x00\x00\x00\x00\x00\x00\x00\x01\
    \x00\x03\x02\x01b\x00\x01\x09\x00\x00\x00\x03\x02\x01a";

/// The replies of a relay with the box `a`, up to the one after which the connection ends.
const REPLIES: &[u8] = b"\x00\x01\x83\x00\x09\x81\x00\x00\x00\x00\x00\x00\x00\x01\
    \x00\x0a\x82\x00\x00\x00\x00\x00\x00\x00\x01\x07\x00\x01\x84\x00\x09\x87\x00\x00\x00\x00\x00\x00\x00\x01\
    \x00\x01\x86\x00\x02\x88\x02\x00\x02\x88\x01";

/// The request that posts the packet 07 to the box `a`, and the one that fetches from it.
const POST: &[u8] = b"\x00\x04\x01\x01a\x07";

const FETCH: &[u8] = b"\x00\x03\x02\x01a";

/// The replies that show that packet, and that there is none.
const ITEM: &[u8] = b"\x00\x0a\x82\x00\x00\x00\x00\x00\x00\x00\x01\x07";

const EMPTY: &[u8] = b"\x00\x01\x83";

/// A disk without a record.
pub fn blank(alloc: Global) -> Result<MemoryDisk, AllocError> {
    MemoryDisk::new(alloc, SIZE)
}

/// The server of one box, or why none is opened.
pub fn open<D: Disk>(alloc: Global, disk: &mut D, name: &[u8]) -> Result<Server, ServerOpenError>
    ensures { IfOk result (λ server. IsServerReady server (D.state disk.new)) }
{
    let Some(name) = Name::new(name) else {
        return Err(ServerOpenError::Memory);
    };
    if disk.size() < SIZE {
        return Err(ServerOpenError::Memory);
    }
    Server::open(alloc, disk, &[BoxSpec { name, keys: None }])
}

/// Serves a connection. Answers how many replies it had, or how it broke off.
fn serve_on<D: Disk>(
    server: &mut Server,
    disk: &mut D,
    pipe: &mut MemoryPipe,
) -> Result<u32, ServeFault>
    requires { IsServerReady server.old (D.state disk.old) }
{
    match server.serve(disk, pipe) {
        Ok(Ended { answered }) => Ok(answered),
        Err(fault) => Err(fault),
    }
}

/// Opens the server of the box `a` and serves a connection. Answers how many replies it had, if it
/// ended well.
fn serve<D: Disk>(alloc: Global, disk: &mut D, pipe: &mut MemoryPipe) -> Option<u32> {
    match open(alloc, disk, b"a") {
        Ok(mut server) => serve_on(&mut server, disk, pipe).ok(),
        Err(_) => None,
    }
}

/// Whether a connection that holds these requests has these replies, this many.
fn serves<D: Disk>(
    alloc: Global,
    disk: &mut D,
    requests: &[u8],
    count: u32,
    replies: &[u8],
) -> bool {
    match MemoryPipe::new(alloc, requests, 4096, &[]) {
        Ok(mut pipe) => serve(alloc, disk, &mut pipe) == Some(count) && pipe.sent() == replies,
        Err(_) => false,
    }
}

/// Whether the worked connection is served in two, on one disk.
fn serves_both<D: Disk>(alloc: Global, disk: &mut D) -> bool {
    let (front, back) = REQUESTS.split_at(16);
    let (first, next) = REPLIES.split_at(26);
    serves(alloc, disk, front, 3, first) && serves(alloc, disk, back, 5, next)
}

/// Whether the connection of this pipe, on a disk that stops after this many writes and syncs, ends
/// with a fault of the store.
fn stops(alloc: Global, disk: &mut MemoryDisk, passes: u32, pipe: &mut MemoryPipe) -> bool {
    match open(alloc, disk, b"a") {
        Ok(mut server) => {
            disk.stop_after(passes);
            matches!(serve_on(&mut server, disk, pipe), Err(ServeFault::Store(_)))
        }
        Err(_) => false,
    }
}

/// Whether a post on such a disk ends so, and nothing is sent.
fn fails(alloc: Global, disk: &mut MemoryDisk, passes: u32) -> bool {
    match MemoryPipe::new(alloc, POST, 4096, &[]) {
        Ok(mut pipe) => stops(alloc, disk, passes, &mut pipe) && pipe.sent().is_empty(),
        Err(_) => false,
    }
}

/// Whether such a post fails, and the box shows this after a crash that leaves what was asked.
fn leaves(alloc: Global, passes: u32, replies: &[u8]) -> bool {
    let Ok(mut disk) = blank(alloc) else {
        return false;
    };
    let has_failed = fails(alloc, &mut disk, passes);
    let mut left = disk.crash(Mode::New);
    has_failed && serves(alloc, &mut left, FETCH, 1, replies)
}

#[test]
fn a_post_that_is_stopped(rt: HostRuntime) {
    assert!(rt; leaves(rt.alloc(), 2, EMPTY));
    assert!(rt; leaves(rt.alloc(), 3, ITEM));
}

/// Why the server of this box isn't opened, if it isn't.
fn refusal<D: Disk>(alloc: Global, disk: &mut D, name: &[u8]) -> Option<ServerOpenError> {
    match open(alloc, disk, name) {
        Ok(_) => None,
        Err(error) => Some(error),
    }
}

/// Sets the gate of a table that begins there.
pub fn set_gate<D: Disk>(disk: &mut D, at: u64) -> bool {
    at < 4_097 && disk.size() > 4_098 && disk.write_at(at, b"\xa5\x01").is_ok()
}

/// Whether the server of another box is refused, and that of a damaged area.
fn refuse<D: Disk>(alloc: Global, disk: &mut D) -> bool {
    let damaged = ServerOpenError::Damaged {
        area: 0,
        slot: 1,
        at: 1,
    };
    refusal(alloc, disk, b"b").is_none()
        && refusal(alloc, disk, b"a") == Some(ServerOpenError::BoxName { k: 0 })
        && set_gate(disk, 0)
        && set_gate(disk, 4_096)
        && refusal(alloc, disk, b"b") == Some(damaged)
}

/// Whether the server isn't opened on a disk that is damaged, and not on one that stops.
fn refuses(alloc: Global, disk: &mut MemoryDisk) -> bool {
    let is_damaged = refuse(alloc, disk);
    disk.stop_after(0);
    let stopped = ServerOpenError::StoreFault { call: Call::Sync };
    is_damaged && refusal(alloc, disk, b"b") == Some(stopped)
}

/// Whether the worked connection is served on a new disk, and servers on another one are refused.
fn goes(alloc: Global) -> bool {
    match (blank(alloc), blank(alloc)) {
        (Ok(mut disk), Ok(mut other)) => {
            serves_both(alloc, &mut disk) && refuses(alloc, &mut other)
        }
        _ => false,
    }
}

// In two connections, on one disk.
#[test]
fn a_worked_connection_and_refusals(rt: HostRuntime) {
    assert!(rt; goes(rt.alloc()));
}
