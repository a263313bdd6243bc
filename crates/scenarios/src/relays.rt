//! The commands that meet a relay, over links and doors in memory.

use crate::answers::{BEGUN, KEY, Row, SESSION, are_answered};
use crate::running::{InMemory, in_memory};
use dr_ports::{MemoryLink, Stand};
use std::alloc::{AllocError, Global};
use std::test::Fail;

/// Whether the program serves the box `a` to the one connection that there is.
fn is_served(alloc: Global, ports: &mut InMemory) -> Result<bool, AllocError> {
    let twice = b"relay 4000\nconnection 1 ended 0\nconnection 2 ended 0\n";
    let rows: [Row<'_>; 4] = [
        ("relay|4000|1|a|a", b"", 3, b"refused: BadBox 2\n"),
        (
            "relay|4000|1|a",
            b"",
            0,
            b"relay 4000\nconnection 1 ended 4\n",
        ),
        ("relay|4000|1|b", b"", 3, b"refused: BoxName 1\n"),
        ("relay|4000|2|a", b"", 0, twice),
    ];
    are_answered(alloc, ports, &rows)
}

/// What is asked: fetch, post, fetch and acknowledge.
const ASKED: &[u8] =
    b"\x00\x03\x02\x01a\x00\x04\x01\x01a\x07\x00\x03\x02\x01a\x00\x0b\x03\x01a\x00\x00\x00\x00\x00\x00\x00\x01";

/// What is replied.
const REPLIED: &[u8] =
    b"\x00\x01\x83\x00\x09\x81\x00\x00\x00\x00\x00\x00\x00\x01\x00\x0a\x82\x00\x00\x00\x00\x00\x00\x00\x01\x07\x00\x01\x84";

/// Whether the relay that is asked so replies so.
fn replies(alloc: Global) -> Result<bool, AllocError> {
    let mut ports = in_memory(alloc, b"", ASKED)?;
    Ok(is_served(alloc, &mut ports)? && ports.door.sent() == REPLIED)
}

#[test]
fn serves_a_relay(rt: HostRuntime) -> Result<(), Fail> {
    assert!(rt; replies(rt.alloc())?);
    Ok(())
}

/// A relay's replies to two syncs: none stands; none stands, and a packet is kept as number 1.
const REPLIES: &[u8] = b"\x00\x01\x83\x00\x01\x83\x00\x09\x81\x00\x00\x00\x00\x00\x00\x00\x01";

/// What Second does. Its text in epoch 0 draws nothing: a draw would fail.
const SYNCED: [Row<'static>; 7] = [
    ("begin|second", KEY, 0, SESSION),
    ("state", b"", 0, BEGUN),
    ("sync|127.0.0.1:4000", b"", 0, b"end\n"),
    ("say|hi", b"", 0, b"said 0.1\n"),
    ("sync|127.0.0.1:4000", b"", 0, b"stored 1\nend\n"),
    ("outbox", b"", 0, b""),
    ("sync|127.0.0.1:4000", b"", 12, b"peer: Ended at 0\n"),
];

/// What the first two syncs begin with: a fetch of the own box, each with counter 1. The tag was made
/// by another implementation.
const FETCHED: &[u8] = b"\x00\x4d\x04\x00\x00\x00\x00\x00\x00\x00\x01\
    \x6d\xc7\xcc\xd3\x33\x23\x3e\xee\x1e\xc1\x03\x50\x5c\xb7\xa4\x2e\
    \x43\xdf\xe3\x72\x8a\x40\xfb\x3a\x2b\x89\xd9\x78\x4e\x73\xf8\x29\
    \x02\x2270e0f9cd1a5863238d67aecce0c032e5-2\
    \x00\x4d\x04\x00\x00\x00\x00\x00\x00\x00\x01\
    \x6d\xc7\xcc\xd3\x33\x23\x3e\xee\x1e\xc1\x03\x50\x5c\xb7\xa4\x2e\
    \x43\xdf\xe3\x72\x8a\x40\xfb\x3a\x2b\x89\xd9\x78\x4e\x73\xf8\x29\
    \x02\x2270e0f9cd1a5863238d67aecce0c032e5-2";

/// Whether the link was connected to `127.0.0.1:4000`, and that connection has ended once all
/// replies had come.
fn has_ended(link: &MemoryLink) -> bool {
    link.address() == b"127.0.0.1:4000".as_slice()
        && matches!(link.stand(), Stand::Ended { received: 17, .. })
}

/// Whether Second does that over a link with these replies, which is asked so and ends so.
fn is_synced(alloc: Global) -> Result<bool, AllocError> {
    let mut ports = in_memory(alloc, REPLIES, b"")?;
    Ok(
        are_answered(alloc, &mut ports, &SYNCED)?
            && ports.link.sent().starts_with(FETCHED)
            && has_ended(&ports.link),
    )
}

#[test]
fn syncs_with_a_relay(rt: HostRuntime) -> Result<(), Fail> {
    assert!(rt; is_synced(rt.alloc())?);
    Ok(())
}
