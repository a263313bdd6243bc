//! Syncs that break off: each fault of the relay's, the link's and the sink's.

use crate::firsts::{AGAIN, FETCH};
use crate::syncs::{End, Row, first, second};
use client::{SyncFault, SyncRefusal};
use relay_pipe::PeerKind;
use std::alloc::Global;
use sync_model::More;

/// Whether First's sync that gets such replies, while these calls of the link and of the sink fail,
/// comes to its end, writes its lines and sends its requests.
fn each_is_told(alloc: Global) -> bool {
    let unknown = Err(SyncFault::Refused(SyncRefusal::Unknown));
    let denied = Err(SyncFault::Refused(SyncRefusal::Denied { rule: 2 }));
    let rows: [(&[u8], &[u64], &[u64], End, &[u8], &[u8]); 10] = [
        (b"\x00\x01\x83", &[], &[], Ok(More::End), b"it end\n", FETCH),
        (
            b"",
            &[],
            &[],
            Err(SyncFault::Peer {
                at: 0,
                kind: PeerKind::Ended,
            }),
            b"",
            FETCH,
        ),
        (
            b"\x00\x01\x84",
            &[],
            &[],
            Err(SyncFault::Peer {
                at: 2,
                kind: PeerKind::Wrong,
            }),
            b"",
            FETCH,
        ),
        (
            b"\x00\x01\x55",
            &[],
            &[],
            Err(SyncFault::Peer {
                at: 2,
                kind: PeerKind::Kind,
            }),
            b"",
            FETCH,
        ),
        (b"\x00\x01\x86", &[], &[], unknown, b"", FETCH),
        (
            b"\x00\x0a\x89\x02\x00\x00\x00\x00\x00\x00\x00\x00",
            &[],
            &[],
            denied,
            b"",
            FETCH,
        ),
        (
            b"\x00\x0a\x89\x03\x00\x00\x00\x00\x00\x00\x00\x07\x00\x01\x83",
            &[],
            &[],
            Ok(More::End),
            b"it end\n",
            AGAIN,
        ),
        (
            b"\x00\x0a\x89\x03\x00\x00\x00\x00\x00\x00\x00\x07\
                \x00\x0a\x89\x02\x00\x00\x00\x00\x00\x00\x00\x00",
            &[],
            &[],
            denied,
            b"",
            AGAIN,
        ),
        (
            b"\x00\x01\x83",
            &[],
            &[2],
            Err(SyncFault::Write),
            b"it ",
            FETCH,
        ),
        (b"\x00\x01\x83", &[1], &[], Err(SyncFault::Link), b"", b""),
    ];
    for (gives, link_fails, out_fails, end, lines, sent) in rows {
        let row = Row {
            gives,
            passing: 100,
            end,
            lines,
            sent,
            posted: b"",
        };
        if !first(alloc, row, (link_fails, out_fails)) {
            return false;
        }
    }
    true
}

/// Whether Second's sync tells that the box is full, and writes nothing.
fn is_full(alloc: Global) -> bool {
    let full = Err(SyncFault::Refused(SyncRefusal::BoxFull));
    second(alloc, (b"\x00\x01\x83\x00\x01\x85", full, b"")).is_some()
}

#[test]
fn each_fault(rt: HostRuntime) {
    assert!(rt; each_is_told(rt.alloc()));
    assert!(rt; is_full(rt.alloc()));
}
