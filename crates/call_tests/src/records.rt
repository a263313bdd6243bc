//! The worked record of the protocol: what First keeps at the beginning, under the key of 32 zero
//! bytes, with Python's modules `hashlib` and `hmac` for the values that don't stand there.

use crate::comparing::are;
use crate::sessions::begin;
use bodies::Format;
use boxes::{Inbox, Outbox};
use dr_base::{Key32, Side, put_u8};
use hex::decode as bytes_of;
use kem_laws::OpenKem;
use ratchet::Session;
use session_record::{Change, RECORD_LIMIT, RelayKeys, decode, encode, encoded_len, is_newest};
use std::alloc::{AllocError, Global};

const BEGUN: &str =
    "05010170e0f9cd1a5863238d67aecce0c032e5d0e3ba729a17ff4f20b36941c6dfd897975565512828c632be679b\
    deb5f606a000000000c2131414e3407e121521ce208bf0ace593c4cac69147e8b35fdd1ad2a3a1879400000000e5\
    72ef19e379b889e674493cd4c9624de08354a5f46ab7dede4d635ba20e35cd00000000000000000001e6a0fe18c0\
    ea7be6a44404a7f6d3943e82e5133afcf383d714b2376e7f8988c56c3205d74658b62091511b7567b670af23c244\
    ce4d49967023c7cb4ea05a934f551cf9694de5f7555508dc5f0945b1b49bc14d1211553cdbdb0bc7b99339053671\
    4e125b813f00b01df9b010cb7c621699185591f0f92bb8948c7340a332e864";

/// The record of a session with empty boxes, as long as it is said to be.
fn recorded(
    alloc: Global,
    session: &Session<OpenKem>,
    keys: Option<&RelayKeys>,
) -> Result<Vec<u8>, AllocError> {
    let inbox = Inbox::new(alloc)?;
    let outbox = Outbox::new(alloc)?;
    let mut out = vec![in alloc; 0; RECORD_LIMIT]?;
    let said_len = encoded_len(&session.part(), &inbox, &outbox, &Change::Same, keys);
    let len = encode(
        &session.part(),
        &inbox,
        &outbox,
        &Change::Same,
        keys,
        &mut out,
    );
    out.truncate(if len == said_len { len } else { 0 });
    Ok(out)
}

/// Whether the record of a session is the one that is told.
fn is_written(alloc: Global, session: &Session<OpenKem>) -> Result<bool, AllocError> {
    let keys = RelayKeys::of(&Key32 { bytes: [0; 32] });
    let text = recorded(alloc, session, Some(&keys))?;
    Ok(text.len() == 261 && is_newest(&text) && are(alloc, &text, BEGUN))
}

/// Whether what First keeps is written as told.
fn begins(alloc: Global) -> bool {
    match begin(Side::First, Format::Plain) {
        Ok(first) => is_written(alloc, &first) == Ok(true),
        Err(_) => false,
    }
}

/// The bytes of the record, or none.
fn begun(alloc: Global) -> Vec<u8> {
    match bytes_of(alloc, BEGUN) {
        Ok(text) => text,
        Err(_) => Vec::new(alloc),
    }
}

/// A text as it is written again, where it is read, or where it is damaged.
fn rewritten(alloc: Global, text: &[u8]) -> Result<Result<Vec<u8>, usize>, AllocError> {
    let mut inbox = Inbox::new(alloc)?;
    let mut outbox = Outbox::new(alloc)?;
    match decode::<OpenKem>(text, &mut inbox, &mut outbox) {
        Ok((part, keys)) => Ok(Ok(recorded(alloc, &Session::resume(part), keys.as_ref())?)),
        Err(damaged) => Ok(Err(damaged.at)),
    }
}

/// Whether the record is read, and written as it is.
fn is_kept(alloc: Global) -> Result<bool, AllocError> {
    let text = begun(alloc);
    Ok(rewritten(alloc, &text)? == Ok(text))
}

/// Whether the record, with zeros behind it, is damaged at a place, where so many bytes are read and
/// this byte is put.
fn is_damaged(
    alloc: Global,
    len: usize,
    place: usize,
    byte: u8,
    at: usize,
) -> Result<bool, AllocError> {
    let mut text = begun(alloc);
    text.push(0)?;
    if len > text.len() || place >= text.len() {
        return Ok(false);
    }
    let _end = put_u8(&mut text, place, byte);
    Ok(rewritten(alloc, &text[..len])? == Err(at))
}

#[test]
fn the_first_record_is_told(rt: HostRuntime) {
    assert!(rt; begins(rt.alloc()) && is_kept(rt.alloc()) == Ok(true));
    // how many bytes are read, a place, the byte that is put there, and where the damage is
    let rows = [
        (261, 90, 1, 87),
        (61, 0, 5, 55),
        (262, 0, 5, 261),
        (261, 2, 4, 2),
        (261, 132, 2, 132),
        (261, 132, 0, 133),
        (260, 0, 5, 133),
    ];
    for (len, place, byte, at) in rows {
        assert!(rt; is_damaged(rt.alloc(), len, place, byte, at) == Ok(true));
    }
}
