//! A request over links with scripted replies: what each is read as, and each fault.

use dr_ports::MemoryLink;
use relay_pipe::{AskFault, PeerFault, PeerKind, ask};
use relay_wire::{FrameReader, Name, Reply, Request};
use std::alloc::Global;

/// What a fetch was answered with.
#[derive(Clone, Copy, PartialEq, Eq)]
enum Outcome {
    Empty,
    /// The packet's first byte and its place in the reply.
    Item(u64, u8, u64),
    Bad(u8),
    Other,
    /// A call on the pipe failed.
    Pipe,
    Peer(PeerFault),
    /// There was no memory.
    Nothing,
}

/// What a reply says.
fn seen(reply: Reply<'_>) -> Outcome {
    match reply {
        Reply::Empty => Outcome::Empty,
        Reply::Item(number, packet) => match packet.bytes() {
            [first, ..] => Outcome::Item(number, *first, packet.place()),
            [] => Outcome::Other,
        },
        Reply::Bad(kind) => Outcome::Bad(kind),
        _ => Outcome::Other,
    }
}

/// Asks for the first packet of the box `a`.
fn fetch(alloc: Global, link: &mut MemoryLink) -> Outcome {
    let (Some(name), Ok(mut reader)) = (Name::new(b"a"), FrameReader::new(alloc)) else {
        return Outcome::Nothing;
    };
    match ask(link, &mut reader, &Request::fetch(name.lent())) {
        Ok(reply) => seen(reply),
        Err(AskFault::Pipe) => Outcome::Pipe,
        Err(AskFault::Peer(fault)) => Outcome::Peer(fault),
    }
}

/// The same over a link that gives these bytes, and whose calls of these numbers fail.
fn fetched(alloc: Global, bytes: &[u8], fails: &[u64]) -> Outcome {
    match MemoryLink::new(alloc, bytes, 100, fails) {
        Ok(mut link) => fetch(alloc, &mut link),
        Err(_) => Outcome::Nothing,
    }
}

/// A fault of the peer, at this place of what the link gives.
const fn at(at: usize, kind: PeerKind) -> Outcome {
    Outcome::Peer(PeerFault { at, kind })
}

#[test]
fn replies_and_faults_are_told(rt: HostRuntime) {
    // what the link gives, which of its calls fails, and what that is read as
    let rows: [(&[u8], &[u64], Outcome); 14] = [
        (b"\x00\x01\x83", &[], Outcome::Empty),
        (
            b"\x00\x0a\x82\x00\x00\x00\x00\x00\x00\x00\x07x",
            &[],
            Outcome::Item(7, b'x', 11),
        ),
        (b"\x00\x02\x88\x01", &[], Outcome::Bad(1)),
        (b"", &[], at(0, PeerKind::Ended)),
        (b"\x00\x03\x82\x00", &[], at(4, PeerKind::Ended)),
        (b"\x00\x05\x83", &[], at(3, PeerKind::Ended)),
        (b"\x00\x00", &[], at(0, PeerKind::Frame)),
        (b"\xff\xff", &[], at(0, PeerKind::Frame)),
        (b"\x00\x01\x55", &[], at(2, PeerKind::Kind)),
        (b"\x00\x01\x99", &[], at(2, PeerKind::Kind)),
        (b"\x00\x02\x83\x00", &[], at(3, PeerKind::Size)),
        (b"\x00\x01\x82", &[], at(3, PeerKind::Size)),
        (b"\x00\x01\x83", &[1], Outcome::Pipe),
        (b"\x00\x01\x83", &[2], Outcome::Pipe),
    ];
    for (bytes, fails, expected) in rows {
        assert!(rt; fetched(rt.alloc(), bytes, fails) == expected);
    }
}
