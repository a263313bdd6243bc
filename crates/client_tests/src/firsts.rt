//! A packet that goes over from Second to First by a relay.

use crate::syncs::{Row, first, second};
use client::SyncFault;
use dr_disk::Call;
use std::alloc::{AllocError, Global};
use std::test::Fail;
use sync_model::More;

/// The request of First's sync, which fetches: with counter 1, under the key of its box's owner. The
/// session is that of the key of zeros. Tags were made by another implementation.
pub const FETCH: &[u8] = b"\x00\x4d\x04\x00\x00\x00\x00\x00\x00\x00\x01\
    \xc1\xb2\xaf\x2c\x0b\xdb\x51\xa5\xc4\x71\x89\x51\x9b\x98\xb0\xfb\
    \xb5\xc4\x50\xd7\x29\xc8\xaa\xb6\xd7\xb7\xc3\xfc\x4f\x23\xd8\x6b\
    \x02\x2270e0f9cd1a5863238d67aecce0c032e5-1";

/// What First sends where its fetch is denied once, and 7 is told as the last counter.
pub const AGAIN: &[u8] = b"\x00\x4d\x04\x00\x00\x00\x00\x00\x00\x00\x01\
    \xc1\xb2\xaf\x2c\x0b\xdb\x51\xa5\xc4\x71\x89\x51\x9b\x98\xb0\xfb\
    \xb5\xc4\x50\xd7\x29\xc8\xaa\xb6\xd7\xb7\xc3\xfc\x4f\x23\xd8\x6b\
    \x02\x2270e0f9cd1a5863238d67aecce0c032e5-1\
    \x00\x4d\x04\x00\x00\x00\x00\x00\x00\x00\x08\
    \x3a\xe8\xd5\xfb\xea\x41\x2c\xe8\x3a\x49\x66\x67\xa2\xdf\x07\xa2\
    \x72\x65\xb7\xce\x7a\x60\x69\x98\xa3\x45\xe4\x9b\x21\x80\xe6\xcd\
    \x02\x2270e0f9cd1a5863238d67aecce0c032e5-1";

/// What First sends where it takes a packet: it fetches, acknowledges, and fetches again.
const ASKED: &[u8] = b"\x00\x4d\x04\x00\x00\x00\x00\x00\x00\x00\x01\
    \xc1\xb2\xaf\x2c\x0b\xdb\x51\xa5\xc4\x71\x89\x51\x9b\x98\xb0\xfb\
    \xb5\xc4\x50\xd7\x29\xc8\xaa\xb6\xd7\xb7\xc3\xfc\x4f\x23\xd8\x6b\
    \x02\x2270e0f9cd1a5863238d67aecce0c032e5-1\
    \x00\x55\x04\x00\x00\x00\x00\x00\x00\x00\x02\
    \x5c\xb1\xb1\x35\x83\x29\xb3\xb9\x77\x56\xe9\x07\x7a\x15\xa3\x97\
    \x21\x2f\xc9\xa2\xd1\xed\xf2\xde\xb3\xdf\x12\x44\xdb\xac\x04\x28\
    \x03\x2270e0f9cd1a5863238d67aecce0c032e5-1\x00\x00\x00\x00\x00\x00\x00\x01\
    \x00\x4d\x04\x00\x00\x00\x00\x00\x00\x00\x03\
    \x76\x06\x52\x48\x59\x13\x93\xaa\xf5\x81\xdd\x64\x2e\xbb\x73\x8d\
    \x17\x3a\xe9\x48\xc5\xd9\xba\x68\xef\xae\x28\xad\x1d\x55\x50\x19\
    \x02\x2270e0f9cd1a5863238d67aecce0c032e5-1";

/// What a relay gives to First: the packet as number 1, that it is acknowledged, and that none
/// stands.
fn replies(alloc: Global, packet: &[u8]) -> Result<Vec<u8>, AllocError> {
    let mut gives = Vec::new(alloc);
    let size = packet.len().min(8000) as u16 + 9;
    gives.extend_from_slice(&size.to_be_bytes())?;
    gives.extend_from_slice(b"\x82\x00\x00\x00\x00\x00\x00\x00\x01")?;
    gives.extend_from_slice(packet)?;
    gives.extend_from_slice(b"\x00\x01\x84\x00\x01\x83")?;
    Ok(gives)
}

/// Whether First takes the packet that these replies bring, and acknowledges it; or its sync ends
/// with its disk's fault where that stops.
fn takes(alloc: Global, gives: &[u8]) -> bool {
    let taken = Row {
        gives,
        passing: 100,
        end: Ok(More::End),
        lines: b"it opened 0.1\nit end\n",
        sent: ASKED,
        posted: b"",
    };
    let stopped = Row {
        passing: 3,
        end: Err(SyncFault::Store { call: Call::Write }),
        lines: b"",
        sent: FETCH,
        ..taken
    };
    first(alloc, taken, (&[], &[])) && first(alloc, stopped, (&[], &[]))
}

/// Whether Second's packet is posted, and First does so with it.
fn goes_over(alloc: Global) -> Result<bool, AllocError> {
    let given = b"\x00\x01\x83\x00\x09\x81\x00\x00\x00\x00\x00\x00\x00\x01";
    let Some(packet) = second(alloc, (given, Ok(More::End), b"it stored 1\nit end\n")) else {
        return Ok(false);
    };
    let gives = replies(alloc, packet.as_slice())?;
    Ok(takes(alloc, gives.as_slice()))
}

#[test]
fn a_packet_goes_over(rt: HostRuntime) -> Result<(), Fail> {
    assert!(rt; goes_over(rt.alloc())?);
    Ok(())
}
