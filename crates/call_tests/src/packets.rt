//! The worked packets of the protocol: the text `hi` at 0.1 under the key of 32 zero bytes.

use crate::comparing::are;
use crate::sessions::{begin, say, take};
use bodies::{Body, Format, body_place, open_body, put_sealed, sealed_len};
use dr_base::{PADDED, PLAIN, Position, SEALED_LIMIT, Side, array_at, put};
use hex::decode;
use packet::{Kind, Malformed, View, parse, write_ad, write_into};
use session_model::Refusal;
use std::alloc::Global;

const PLAIN_HI: &str =
    "0170e0f9cd1a5863238d67aecce0c032e50000000000000000000000010000000279e60f86162d787aab4a4254a\
    2ad96926ff3272db22c3b04e763d73bde4ddb740943";

const PADDED_HI: &str =
    "0270e0f9cd1a5863238d67aecce0c032e500000000000000000000000100000100118d47c470ccae0472fe697ab\
    3ea3690a69c3086a940bd774a69bf29c0c3f667868a2f054649aa566246d7704df012b80db57f335eefa2384e36\
    36a1e88eb0304b9428db33e10311764d57c9aa49ccbf6e30161aa9d8634ec70c8a702de1d7e9c76e94ba4b86fd0\
    8c6dace5e1101e95ba2435f3c933ec4f7aba60426b3217f4f3bec5963eca998c22b5959d43fb6ba1bcd333af5a0\
    934a7297c434188b52696f8a55c7091b406fe4ae9b7048b4f24068641d5e69aef181103383085f3f05a8b2485e5\
    d365baf795379f6adfa352acee5f5ad6ee5dccdf61518f93b1f48454c324a459c4e2c4b7370bef7f3925998b096\
    0d1f55a7aaf440471935f771608bcb46f65c7d4aa4c8f46677de7c8495a9025bbff7f94ae08d66fb95c2cecaf60\
    ee595";

const RECEIPTS_HI: &str =
    "0370e0f9cd1a5863238d67aecce0c032e500000000000000000000000100000100118b2fad18a5ae0472fe697ab\
    3ea3690a69c3086a940bd774a69bf29c0c3f667868a2f054649aa566246d7704df012b80db57f335eefa2384e36\
    36a1e88eb0304b9428db33e10311764d57c9aa49ccbf6e30161aa9d8634ec70c8a702de1d7e9c76e94ba4b86fd0\
    8c6dace5e1101e95ba2435f3c933ec4f7aba60426b3217f4f3bec5963eca998c22b5959d43fb6ba1bcd333af5a0\
    934a7297c434188b52696f8a55c7091b406fe4ae9b7048b4f24068641d5e69aef181103383085f3f05a8b2485e5\
    d365baf795379f6adfa352acee5f5ad6ee5dccdf61518f93b1f48454c324a459c4e2c4b7370bef7f3925998b096\
    0d1f55a7aaf440471935f771608bcb466dd28f8300cbf0edf0fca4cb26ab8fdf0ebcd105a5d48bc6b84ba218127\
    84611";

/// Whether Second says `hi` in a format as this packet, in hex, which First reads.
fn is_said(alloc: Global, format: Format, row: &str) -> Result<bool, Refusal> {
    let mut second = begin(Side::Second, format)?;
    let packet = say(&mut second, b"hi")?;
    let mut first = begin(Side::First, Format::Plain)?;
    let text = take(&mut first, packet.as_slice())?;
    Ok(are(alloc, packet.as_slice(), row) && text.as_slice() == b"hi".as_slice())
}

/// Whether `hi` is said in the format of this name as this packet.
fn is_said_in(alloc: Global, name: &[u8], row: &str) -> bool {
    match Format::named(name) {
        Some(format) => matches!(is_said(alloc, format, row), Ok(true)),
        None => false,
    }
}

#[test]
fn hi_is_said_in_each_format(rt: HostRuntime) {
    let rows: [(&[u8], &str); 3] = [
        (b"plain", PLAIN_HI),
        (b"padded", PADDED_HI),
        (b"receipts", RECEIPTS_HI),
    ];
    for (name, row) in rows {
        assert!(rt; is_said_in(rt.alloc(), name, row));
    }
}

/// The bytes of the plain packet, or zeros.
fn plain_hi(alloc: Global) -> [u8; 67] {
    match decode(alloc, PLAIN_HI) {
        Ok(bytes) => {
            if bytes.len() == 67 {
                array_at(&bytes, 0)
            } else {
                [0; 67]
            }
        }
        Err(_) => [0; 67],
    }
}

/// Whether the plain packet is written from its fields.
#[tactic(auto, unfolding(packet::specs::Versions::is_text_len))]
fn is_written(bytes: &[u8; 67]) -> bool {
    let session = array_at::<16>(bytes, 1);
    let tag = array_at::<32>(bytes, 35);
    let first = Position { epoch: 0, index: 1 };
    let mut ad = [0; 33];
    let mut whole = [0; 67];
    write_ad(PLAIN, &session, first, 0, &[], 2, &mut ad) == 33
        && ad.as_slice() == &bytes[..33]
        && write_into(
            PLAIN,
            &session,
            first,
            0,
            &[],
            &bytes[33..35],
            &tag,
            &mut whole,
        ) == 67
        && &whole == bytes
}

/// Whether each part of the plain packet is lent from its place.
fn is_lent(view: &View<'_>, bytes: &[u8; 67]) -> bool {
    (view.version(), view.epoch(), view.previous(), view.index()) == (PLAIN, 0, 0, 1)
        && view.session() == &array_at::<16>(bytes, 1)
        && view.agreement().len() == 0
        && view.ad() == &bytes[..33]
        && view.ciphertext() == &bytes[33..35]
        && view.tag() == &array_at::<32>(bytes, 35)
}

/// Whether the plain packet is read.
fn is_read(bytes: &[u8; 67]) -> bool {
    match parse(bytes, 64) {
        Ok(view) => is_lent(&view, bytes),
        Err(_) => false,
    }
}

/// Whether so many bytes of the plain packet, with this first one, and zeros have this fault.
fn finds(bytes: &[u8; 67], len: usize, first: u8, fault: Malformed) -> bool {
    let mut changed = [0; 68];
    let _end = put(&mut changed, 0, bytes);
    changed[0] = first;
    len <= 68 && parse(&changed[..len], 64).err() == Some(fault)
}

/// Whether `hi` is padded to 256 bytes, and opened again.
fn is_padded() -> bool {
    let body = Body::text(b"hi");
    let mut room = [0; SEALED_LIMIT];
    let len = sealed_len(PADDED, &body);
    let end = put_sealed(PADDED, &mut room, 0, &body);
    let is_put = (len, end) == (256, 256) && &room[..4] == b"\0\x02hi".as_slice();
    match open_body(PADDED, Side::First, &room[..end]) {
        Some(body) => {
            is_put && body.content == b"hi".as_slice() && body_place(PADDED, &body) == 2
        }
        None => false,
    }
}

#[test]
fn hi_is_written_and_read(rt: HostRuntime) {
    let bytes = plain_hi(rt.alloc());
    assert!(rt; is_padded() && is_written(&bytes) && is_read(&bytes));
    let rows = [
        (67, 0, 0, Kind::Version),
        (40, 1, 35, Kind::Short),
        (68, 1, 67, Kind::Long),
    ];
    for (len, first, at, kind) in rows {
        assert!(rt; finds(&bytes, len, first, Malformed { at, kind }));
    }
}
