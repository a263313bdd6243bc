//! How long a connection waits for a peer that is silent, slow, or doesn't read.

use crate::sockets::{Course, are_joined, takes};
use dr_ports::{Door, Failed, Link, Pipe};
use std::alloc::Global;
use std::thread;
use std::time::{Duration, Instant};
use tcp_ports::{Patience, TcpDoor, TcpLink, Whole};

/// The patience of so many milliseconds with each call.
fn endless(call: u64) -> Patience {
    Patience {
        call: Duration::from_millis(call),
        whole: None,
    }
}

/// The patience of so many milliseconds with the whole, and ten seconds with each call.
fn bounded(least: u64, most: u64) -> Patience {
    Patience {
        call: Duration::from_secs(10),
        whole: Some(Whole {
            least: Duration::from_millis(least),
            most: Duration::from_millis(most),
        }),
    }
}

/// Whether both ends of a connection on which nothing is said give it up, after two times 35
/// milliseconds at least.
fn give_up<D: Door, L: Link>(rt: &HostRuntime, door: &mut D, link: &mut L) -> bool {
    if !are_joined(door, link, 27617, "127.0.0.1:27617") {
        return false;
    }
    let start = Instant::now(rt);
    let is_silent = door.receive(&mut [0; 4]).is_err() && link.receive(&mut [0; 4]).is_err();
    match start.and_then(|start| start.elapsed(rt)) {
        Ok(took) => {
            is_silent && took >= Duration::from_millis(70) && took < Duration::from_secs(20)
        }
        Err(_) => false,
    }
}

/// Sends this to a pipe in pieces that are received at the other one, with a pause after each, and
/// answers how many came.
fn trickled<P: Pipe, Q: Pipe>(rt: &HostRuntime, from: &mut P, to: &mut Q, bytes: &[u8]) -> u32 {
    let mut room = [0; 8192];
    for came in 0..100 {
        if from.send(bytes).is_err() || to.receive(&mut room).is_err() {
            return came;
        }
        thread::sleep(rt, Duration::from_millis(20));
    }
    100
}

/// Whether a door gives up a peer that sends this 100 times, which takes two seconds and more.
fn breaks_off<D: Door, L: Link>(
    rt: &HostRuntime,
    door: &mut D,
    link: &mut L,
    bytes: &[u8],
) -> bool {
    if !are_joined(door, link, 27618, "127.0.0.1:27618") {
        return false;
    }
    let came = trickled(rt, link, door, bytes);
    came > 0 && came < 100 && door.send(b"late") == Err(Failed)
}

/// Whether a door receives all that a peer sends.
fn bears<D: Door, L: Link>(rt: &HostRuntime, door: &mut D, link: &mut L) -> bool {
    are_joined(door, link, 27619, "127.0.0.1:27619") && trickled(rt, link, door, &[7; 4096]) == 100
}

/// Sends this until that fails, and answers how many bytes the call before that took. There is no
/// answer where a call took all.
fn stuffed<P: Pipe>(to: &mut P, bytes: &[u8]) -> Option<u64> {
    let mut taken = 0;
    for _ in 0..1_000 {
        match to.send(bytes) {
            Ok(count) if count < bytes.len() => taken = count as u64,
            Ok(_) => return None,
            Err(Failed) => return Some(taken),
        }
    }
    None
}

/// Whether a door takes some of 64 MiB, and gives up its peer then.
fn is_stuffed<D: Door, L: Link>(alloc: Global, door: &mut D, link: &mut L) -> bool {
    let Ok(bytes) = vec![in alloc; 7; 67_108_864] else {
        return false;
    };
    are_joined(door, link, 27620, "127.0.0.1:27620")
        && matches!(stuffed(door, &bytes), Some(count) if count > 0)
}

/// What a door meets: a peer that keeps nobody waiting, one that says nothing, one that sends bytes
/// one by one, one that sends much, which it bears with or gives up, and one that reads nothing.
#[derive(Clone, Copy)]
pub enum Peer {
    Prompt(Course),
    Silent,
    Slow,
    Busy,
    Endless,
    Deaf,
}

/// Whether a door and a link do what they should with such a peer.
fn meets<D: Door, L: Link>(rt: &HostRuntime, door: &mut D, link: &mut L, peer: Peer) -> bool {
    match peer {
        Peer::Prompt(course) => takes(rt, door, link, course),
        Peer::Silent => give_up(rt, door, link),
        Peer::Slow => breaks_off(rt, door, link, b"a"),
        Peer::Busy => bears(rt, door, link),
        Peer::Endless => breaks_off(rt, door, link, &[7; 4096]),
        Peer::Deaf => is_stuffed(rt.alloc(), door, link),
    }
}

/// Whether a door and a link with these patiences do.
pub fn meet(rt: &HostRuntime, near: Patience, far: Patience, peer: Peer) -> bool {
    let mut door = TcpDoor::with_patience(rt, near);
    let mut link = TcpLink::with_patience(rt, far);
    meets(rt, &mut door, &mut link, peer)
}

// Neither end says anything; each byte comes well within the time of a call; 100 pieces of 4,096
// bytes give it more than 100 seconds, which it has where it may last so long; and only what the
// system has room for is taken, which is told, and ends the connection.
#[test]
fn waits_for_a_time(rt: HostRuntime) {
    let relay = Patience::with_a_relay();
    assert!(rt; meet(&rt, endless(40), endless(40), Peer::Silent));
    assert!(rt; meet(&rt, bounded(1_000, 100_000), relay, Peer::Slow));
    assert!(rt; meet(&rt, bounded(1_000, 100_000), relay, Peer::Busy));
    assert!(rt; meet(&rt, bounded(1_000, 1_000), relay, Peer::Endless));
    assert!(rt; meet(&rt, endless(200), relay, Peer::Deaf));
}
