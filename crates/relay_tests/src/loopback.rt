//! The worked exchange over loopback.

ghost use Rattle.relay_core.specs.Record.{box_text};
ghost use Rattle.relay_server.specs.Durable.{IsServerReady};

use crate::server::{blank, open};
use dr_disk::Disk;
use dr_ports::{Door, Link, Pipe};
use relay_server::{Ended, Server};
use std::alloc::Global;
use tcp_ports::{TcpDoor, TcpLink};

/// The post of the packet 07 to the box `a`, a fetch from it, and a frame of no lawful length.
const REQUESTS: &[u8] = b"\x00\x04\x01\x01a\x07\x00\x03\x02\x01a\x00\x00";

/// Stored under 1, the packet, and that the frame has no lawful length.
const REPLIES: &[u8] = b"\x00\x09\x81\x00\x00\x00\x00\x00\x00\x00\x01\
    \x00\x0a\x82\x00\x00\x00\x00\x00\x00\x00\x01\x07\x00\x02\x88\x01";

/// Receives all that comes, in at most this many pieces.
fn receive<P: Pipe>(pipe: &mut P, pieces: u32, all: &mut Vec<u8>) -> bool {
    let mut piece = [0; 64];
    for _ in 0..pieces {
        match pipe.receive(&mut piece) {
            Err(_) => return false,
            Ok(0) => return true,
            Ok(count) => {
                if all.extend_from_slice(&piece[..count]).is_err() {
                    return false;
                }
            }
        }
    }
    true
}

/// Whether these bytes come, in at most 64 pieces.
fn comes<P: Pipe>(alloc: Global, pipe: &mut P, expected: &[u8]) -> bool {
    let mut all = Vec::new(alloc);
    receive(pipe, 64, &mut all) && all.as_slice() == expected
}

/// Whether the next connection is served, with this many replies.
fn serves<A: Disk, L: Door>(server: &mut Server, disk: &mut A, door: &mut L, count: u32) -> bool
    requires { IsServerReady server.old (A.state disk.old) }
{
    if door.accept().is_err() {
        return false;
    }
    let served = server.serve(disk, door);
    door.shut();
    match served {
        Ok(Ended { answered }) => answered == count,
        Err(_) => false,
    }
}

/// Whether the worked exchange goes over a link and a door that are joined.
fn is_exchanged<A: Disk, L: Door, P: Pipe>(
    alloc: Global,
    server: &mut Server,
    disk: &mut A,
    door: &mut L,
    link: &mut P,
) -> bool
    requires { IsServerReady server.old (A.state disk.old) }
{
    let is_sent = link.send(REQUESTS) == Ok(REQUESTS.len());
    let is_served = serves(server, disk, door, 3);
    is_sent && is_served && comes(alloc, link, REPLIES)
}

/// Whether it goes over them to the box `a` on this disk.
fn exchange<A: Disk, L: Door, P: Pipe>(
    alloc: Global,
    disk: &mut A,
    door: &mut L,
    link: &mut P,
) -> bool {
    match open(alloc, disk, b"a") {
        Ok(mut server) => is_exchanged(alloc, &mut server, disk, door, link),
        Err(_) => false,
    }
}

/// Whether it goes over both once they are joined, on a new disk.
fn join<L: Door, P: Link>(alloc: Global, door: &mut L, link: &mut P) -> bool {
    if door.listen(27614).is_err() || link.open("127.0.0.1:27614").is_err() {
        return false;
    }
    match blank(alloc) {
        Ok(mut disk) => exchange(alloc, &mut disk, door, link),
        Err(_) => false,
    }
}

/// Whether it goes over a new door and a new link.
fn go(rt: &HostRuntime) -> bool {
    let mut door = TcpDoor::new(rt);
    let mut link = TcpLink::new(rt);
    join(rt.alloc(), &mut door, &mut link)
}

#[test]
fn the_worked_exchange_over_loopback(rt: HostRuntime) {
    assert!(rt; go(&rt));
}
