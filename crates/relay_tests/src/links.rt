//! Frames over a link to a relay: the replies that come, and one that is lost.

use dr_ports::{Failed, Pipe};
use relay_core::BoxSpec;
use relay_link::RelayLink;
use relay_wire::Name;
use std::alloc::Global;

/// A link to a relay with the boxes `a` and `b`.
fn linked(alloc: Global) -> Option<RelayLink> {
    let Some(a) = Name::new(b"a") else {
        return None;
    };
    let Some(b) = Name::new(b"b") else {
        return None;
    };
    let specs = [
        BoxSpec {
            name: a,
            keys: None,
        },
        BoxSpec {
            name: b,
            keys: None,
        },
    ];
    match RelayLink::new(alloc, &specs) {
        Ok(link) => Some(link),
        Err(_) => None,
    }
}

/// Sends all bytes, however many the link takes at once.
fn send(link: &mut RelayLink, bytes: &[u8]) -> Result<(), Failed> {
    let mut done = 0;
    for _ in 0..bytes.len() {
        if done < bytes.len() {
            done += link.send(&bytes[done..])?;
        }
    }
    Ok(())
}

/// Whether a request has this reply.
fn replied(link: &mut RelayLink, request: &[u8], reply: &[u8]) -> Result<bool, Failed> {
    let mut piece = [0; 40];
    send(link, request)?;
    let count = link.receive(&mut piece)?;
    Ok(&piece[..count] == reply)
}

/// Whether a request has this reply, and no call fails.
fn replies(link: &mut RelayLink, request: &[u8], reply: &[u8]) -> bool {
    matches!(replied(link, request, reply), Ok(true))
}

const FETCH_A: &[u8] = b"\x00\x03\x02\x01a";

const FETCH_B: &[u8] = b"\x00\x03\x02\x01b";

const POST_B: &[u8] = b"\x00\x04\x01\x01b\x07";

/// The replies to a fetch, a post and a fetch.
const THREE: &[u8] = b"\x00\x01\x83\x00\x09\x81\x00\x00\x00\x00\x00\x00\x00\x01\
    \x00\x0a\x82\x00\x00\x00\x00\x00\x00\x00\x01\x07";

/// Whether all replies come to a fetch, a post and, in two pieces, a fetch.
fn come(link: &mut RelayLink) -> bool {
    replies(link, b"", b"")
        && send(link, FETCH_A) == Ok(())
        && send(link, b"\x00\x04\x01\x01a\x07\x00\x03\x02") == Ok(())
        && replies(link, b"\x01a", THREE)
        && replies(link, b"", b"")
}

/// Whether the second reply of a connection is lost.
fn loses(link: &mut RelayLink) -> bool {
    link.connect(Some(2));
    replies(link, FETCH_A, b"\x00\x01\x83") && replied(link, POST_B, b"") == Err(Failed)
}

/// Whether the packet is posted once more.
fn posts_again(link: &mut RelayLink) -> bool {
    link.connect(None);
    let stored = b"\x00\x09\x81\x00\x00\x00\x00\x00\x00\x00\x02";
    replies(link, FETCH_A, b"\x00\x01\x83") && replies(link, POST_B, stored)
}

/// Whether both stand in the box, and the second one once the first is acknowledged.
fn holds_both(link: &mut RelayLink) -> bool {
    link.connect(None);
    let first = b"\x00\x0a\x82\x00\x00\x00\x00\x00\x00\x00\x01\x07";
    let ack = b"\x00\x0b\x03\x01b\x00\x00\x00\x00\x00\x00\x00\x01";
    let second = b"\x00\x0a\x82\x00\x00\x00\x00\x00\x00\x00\x02\x07";
    replies(link, FETCH_B, first)
        && replies(link, ack, b"\x00\x01\x84")
        && replies(link, FETCH_B, second)
}

/// Whether all replies come over a new link, and over one that loses a reply.
fn are_linked(alloc: Global) -> bool {
    match (linked(alloc), linked(alloc)) {
        (Some(mut whole), Some(mut link)) => {
            come(&mut whole) && loses(&mut link) && posts_again(&mut link) && holds_both(&mut link)
        }
        _ => false,
    }
}

// A lost reply breaks the link.
#[test]
fn replies_come_and_are_lost(rt: HostRuntime) {
    assert!(rt; are_linked(rt.alloc()));
}
