//! The key schedule under the key of 32 zero bytes, up to the text `hi`: the calls of the crates of
//! symmetric cryptography. What is sealed is the worked packet of the protocol, the other values are
//! those of Python's modules `hashlib` and `hmac`, and of `cryptography` for ChaCha20.

use crate::comparing::are;
use dr_base::{Key32, Position, array_at};
use dr_chacha20::{block, xor_in_place};
use etm_aead::{BadTag, OpenKey, SealKey};
use fs_aead::{ReceiveStream, Row, SendStream, SkipLimit, Skipped};
use hmac_hkdf::{KeyedMac, Mac, expand_into, extract, hmac};
use prf_prng::Root;
use std::alloc::Global;

/// The root that the key of 32 zero bytes begins with.
const ROOT: [u8; 32] = [
    0xd0, 0xe3, 0xba, 0x72, 0x9a, 0x17, 0xff, 0x4f, 0x20, 0xb3, 0x69, 0x41, 0xc6, 0xdf, 0xd8, 0x97,
    0x97, 0x55, 0x65, 0x51, 0x28, 0x28, 0xc6, 0x32, 0xbe, 0x67, 0x9b, 0xde, 0xb5, 0xf6, 0x06, 0xa0,
];

/// The stream of epoch 0.
const STREAM: [u8; 32] = [
    0xe5, 0x72, 0xef, 0x19, 0xe3, 0x79, 0xb8, 0x89, 0xe6, 0x74, 0x49, 0x3c, 0xd4, 0xc9, 0x62, 0x4d,
    0xe0, 0x83, 0x54, 0xa5, 0xf4, 0x6a, 0xb7, 0xde, 0xde, 0x4d, 0x63, 0x5b, 0xa2, 0x0e, 0x35, 0xcd,
];

/// The chain key after one message.
const CHAIN: [u8; 32] = [
    0x6d, 0x70, 0x55, 0x4e, 0x09, 0x2c, 0xad, 0x08, 0x01, 0xd3, 0x6c, 0x16, 0x62, 0x1f, 0xe7, 0xc8,
    0x07, 0xdb, 0x7c, 0xaf, 0x0c, 0xba, 0xd4, 0xa3, 0xe0, 0xd3, 0xa4, 0xcc, 0xc4, 0xff, 0x94, 0x11,
];

/// The first message key.
const FIRST: [u8; 32] = [
    0x39, 0x88, 0x68, 0x36, 0x7d, 0x71, 0x0a, 0x85, 0x9b, 0xe0, 0x17, 0xf0, 0xc6, 0xdf, 0x35, 0xc8,
    0x52, 0x48, 0x78, 0xbe, 0xc0, 0x01, 0x35, 0xe9, 0x59, 0xd4, 0xe4, 0xe4, 0x9d, 0xfe, 0x8d, 0x3b,
];

/// The second message key.
const SECOND: [u8; 32] = [
    0xd3, 0x6f, 0x6e, 0x31, 0x85, 0x7e, 0x91, 0xa9, 0x2f, 0x0d, 0x70, 0x58, 0xf4, 0x22, 0x19, 0x9b,
    0xcd, 0xff, 0xc4, 0xdf, 0x1a, 0xf0, 0x5b, 0x21, 0x34, 0x51, 0x64, 0xd8, 0xca, 0x66, 0x73, 0x03,
];

/// The tag of `hi` as the first text.
const TAG: [u8; 32] = [
    0x0f, 0x86, 0x16, 0x2d, 0x78, 0x7a, 0xab, 0x4a, 0x42, 0x54, 0xa2, 0xad, 0x96, 0x92, 0x6f, 0xf3,
    0x27, 0x2d, 0xb2, 0x2c, 0x3b, 0x04, 0xe7, 0x63, 0xd7, 0x3b, 0xde, 0x4d, 0xdb, 0x74, 0x09, 0x43,
];

/// The key of the first turn.
const TURN: [u8; 32] = [
    0xc1, 0xd5, 0x07, 0x12, 0x99, 0x8a, 0x3f, 0x31, 0xa4, 0x88, 0x27, 0xb0, 0x8d, 0x76, 0x02, 0x0b,
    0x13, 0x3a, 0xcd, 0x21, 0x60, 0x27, 0x4c, 0x3f, 0xc7, 0x68, 0x77, 0x72, 0xa3, 0xb7, 0x7a, 0x91,
];

/// The root after it.
const NEXT_ROOT: [u8; 32] = [
    0x3a, 0x86, 0x12, 0xa6, 0x7e, 0x70, 0x40, 0x40, 0x5c, 0x34, 0x6b, 0x85, 0x06, 0xd4, 0xfb, 0xce,
    0x8a, 0x09, 0x71, 0x53, 0xef, 0xeb, 0x5d, 0xfb, 0x30, 0xb7, 0x34, 0x14, 0x65, 0x37, 0x2f, 0x3a,
];

/// The stream of epoch 1.
const NEXT_STREAM: [u8; 32] = [
    0xbb, 0x84, 0x94, 0x80, 0x28, 0xd1, 0x16, 0x34, 0x30, 0x46, 0xb9, 0x15, 0x7a, 0xf5, 0x6d, 0xb9,
    0x98, 0xc6, 0x2b, 0x2b, 0xf1, 0x91, 0x29, 0x27, 0x80, 0xfb, 0x59, 0x30, 0x07, 0xdd, 0x21, 0x47,
];

/// The root, the stream, the agreement seed and the session id that it begins with.
const BEGINNING: &str =
    "d0e3ba729a17ff4f20b36941c6dfd897975565512828c632be679bdeb5f606a0e572ef19e379b889e674493cd4c9\
    624de08354a5f46ab7dede4d635ba20e35cdca309f658abf24ddc8f7ae7dee9f2bc16c69551ee1b94e43b5142b07\
    5d2b70d670e0f9cd1a5863238d67aecce0c032e5";

/// The first block of the key stream of the first message.
const BLOCK: &str =
    "118f2fad70ccae0472fe697ab3ea3690a69c3086a940bd774a69bf29c0c3f667868a2f054649aa566246d7704df0\
    12b80db57f335eefa2384e3636a1e88eb030";

/// What goes along in the clear with `hi`, and what `hi` is sealed as.
const AD: &[u8; 33] =
    b"\x01\x70\xe0\xf9\xcd\x1a\x58\x63\x23\x8d\x67\xae\xcc\xe0\xc0\x32\xe5\0\0\0\0\0\0\0\0\0\0\0\x01\0\0\0\x02";

const CIPHERTEXT: [u8; 2] = [0x79, 0xe6];

fn key(bytes: [u8; 32]) -> Key32 {
    Key32 { bytes }
}

/// Whether the shared key begins as told.
fn begins(alloc: Global) -> bool {
    let mut beginning = [0; 112];
    expand_into(&extract(&[0; 32], &[0; 32]), b"dr begin", &mut beginning);
    are(alloc, &beginning, BEGINNING)
}

/// Whether the first message key is the stream's MAC, whole, in pieces and under a key that is kept.
fn is_hashed() -> bool {
    let kept = KeyedMac::new(&STREAM);
    let mut lent = kept.begin();
    lent.update(&[1]);
    let mut pieces = Mac::new(&STREAM);
    pieces.update(&[]);
    pieces.update(&[1]);
    let lent = lent.finish();
    let pieces = pieces.finish();
    lent == FIRST && pieces == FIRST && hmac(&STREAM, &[1]) == FIRST && kept.hmac(&[1]) == FIRST
}

/// Whether `hi` is enciphered as told.
fn is_enciphered(alloc: Global) -> bool {
    let mut keys = [0; 76];
    expand_into(&FIRST, b"dr seal", &mut keys);
    let cipher_key = array_at(&keys, 0);
    let nonce = array_at(&keys, 64);
    let mut text = *b"hi";
    xor_in_place(&cipher_key, 1, &nonce, &mut text);
    text == CIPHERTEXT && are(alloc, &block(&cipher_key, 1, &nonce), BLOCK)
}

/// Whether `hi` is sealed with a key as told.
fn is_sealed(key: SealKey) -> bool {
    let mut text = *b"hi";
    key.seal(AD, &mut text) == TAG && text == CIPHERTEXT
}

/// Whether `hi` is opened with a key, under this tag.
fn is_opened(key: OpenKey, tag: &[u8; 32]) -> bool {
    let mut text = CIPHERTEXT;
    key.open(AD, &mut text, tag) == Ok(()) && text == *b"hi"
}

/// Whether the sealed `hi` stays as it is under another tag.
fn is_refused() -> bool {
    let mut text = CIPHERTEXT;
    OpenKey::from_message(key(FIRST)).open(AD, &mut text, &CHAIN) == Err(BadTag)
        && text == CIPHERTEXT
}

/// Whether both ends of the stream give the first key, and stand at the next one.
fn gives_a_key() -> bool {
    let (said, seal_key) = SendStream::resume(key(STREAM), 0).next();
    let (taken, open_key) = ReceiveStream::resume(key(STREAM), 0).next();
    let (one, sent) = said.rest();
    let (other, reach) = taken.rest();
    let is_said = is_sealed(seal_key);
    let is_taken = is_opened(open_key, &TAG);
    is_said && is_taken && one.bytes == CHAIN && other.bytes == CHAIN && (sent, reach) == (1, 1)
}

/// Whether a table has the keys of 0.1 and 0.2, and room for 510 more.
fn has_keys(table: &Skipped) -> bool {
    let row = Row {
        epoch: 0,
        start: 0,
        len: 2,
    };
    table.len() == 2
        && !table.is_empty()
        && (table.rows(), table.row(0)) == (1, Some(row))
        && table.room_for(510) == Ok(())
        && table.room_for(511) == Err(SkipLimit { would: 513 })
}

/// Whether the second key is found and taken, once.
fn gives_once(table: &mut Skipped) -> bool {
    let second = Position { epoch: 0, index: 2 };
    let is_found = table.find(second) == Some(1);
    match table.take(second) {
        Some(key) => {
            let is_second = key.shelve().bytes == SECOND;
            is_found && is_second && table.find(second) == None
        }
        None => false,
    }
}

/// Whether the keys that are passed are kept in a table, and in one that is resumed.
fn keeps_passed() -> bool {
    let mut passed = Skipped::new();
    let stream = ReceiveStream::resume(key(STREAM), 0).advance(0, &mut passed, 2);
    let (_chain, reach) = stream.rest();
    let mut table = Skipped::resume(passed.kept());
    reach == 2 && has_keys(&passed) && gives_once(&mut table)
}

/// Whether the root takes the key of the first turn in as told.
fn turns() -> bool {
    let (root, stream) = Root::resume(key(ROOT)).up(&key(TURN));
    root.rest().bytes == NEXT_ROOT && stream.bytes == NEXT_STREAM
}

#[test]
fn the_first_message_has_its_keys(rt: HostRuntime) {
    assert!(rt; begins(rt.alloc()) && is_hashed() && is_enciphered(rt.alloc()));
    assert!(rt; is_sealed(SealKey::from_message(key(FIRST))) && is_refused());
    assert!(rt; gives_a_key() && keeps_passed() && turns());
}
