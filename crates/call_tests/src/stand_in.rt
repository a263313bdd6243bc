//! The stand-in's values, as Python's module `hashlib` computes them.

use dr_base::Key32;
use kem_laws::{Kem, NoPair, OpenKem};

const PUBLIC: [u8; 32] = [
    0x29, 0x05, 0x35, 0xdc, 0xdd, 0xca, 0xe5, 0xcc, 0xba, 0x95, 0xb9, 0x5a, 0xe6, 0x4d, 0x12, 0xc9,
    0xc7, 0x48, 0xff, 0x96, 0xde, 0x80, 0x4d, 0x7a, 0xcb, 0x70, 0xf3, 0xc3, 0x82, 0xee, 0x8f, 0x83,
];

const CIPHERTEXT: [u8; 32] = [
    0x19, 0x53, 0xa4, 0xa3, 0x4d, 0xb3, 0xd0, 0xc0, 0x29, 0x6b, 0x22, 0xce, 0xd4, 0xa7, 0x8d, 0xdb,
    0x64, 0x74, 0x67, 0x25, 0x0d, 0x94, 0xdb, 0x63, 0x3f, 0xf8, 0x2c, 0xa3, 0xd2, 0x4e, 0xdf, 0x07,
];

const SHARED: [u8; 32] = [
    0xa8, 0x46, 0xad, 0x4d, 0xa0, 0x63, 0x81, 0xde, 0x1e, 0x4c, 0xc1, 0xaf, 0x0f, 0x5b, 0x38, 0x45,
    0xca, 0x0f, 0xaf, 0x7c, 0x45, 0x95, 0x0a, 0xff, 0xf8, 0xa8, 0x12, 0xdc, 0xd3, 0x44, 0xd1, 0x03,
];

// A seed whose bytes count up from `first`.
fn counting(first: u8) -> Key32 {
    let mut bytes = [first; 32];
    for i in 1..32 {
        bytes[i] = bytes[i - 1].wrapping_add(1);
    }
    Key32 { bytes }
}

#[test]
fn values(rt: HostRuntime) {
    let mut public = [0; 32];
    let mut secret = [0; 32];
    let mut ciphertext = [0; 32];
    let seed = counting(0);
    assert!(rt; OpenKem::work(rt.alloc()) == Ok(()));
    assert!(rt; OpenKem::pair(&mut (), &seed, &mut public, &mut secret) == Ok(()));
    let key = OpenKem::encap(&mut (), &public, &counting(32), &mut ciphertext);
    let same = OpenKem::decap(&mut (), &secret, &ciphertext);
    assert!(rt; public == PUBLIC);
    assert!(rt; secret == seed.bytes);
    assert!(rt; ciphertext == CIPHERTEXT);
    assert!(rt; key.bytes == SHARED);
    assert!(rt; same.bytes == SHARED);
}

#[test]
fn no_pair(rt: HostRuntime) {
    let mut public = [1; 32];
    let mut secret = [2; 32];
    let seed = Key32 { bytes: [0xff; 32] };
    assert!(rt; OpenKem::pair(&mut (), &seed, &mut public, &mut secret) == Err(NoPair));
    assert!(rt; public == [1; 32]);
    assert!(rt; secret == [2; 32]);
}
