//! An agreement over the stand-in, with values that Python's module `hashlib` computes.

use cka::{Caller, Holder};
use dr_base::Key32;
use kem_laws::OpenKem;

const PUBLIC: [u8; 32] = [
    0x2d, 0x44, 0xde, 0x7f, 0x90, 0xa0, 0x09, 0x5d, 0xa0, 0x77, 0xab, 0xf0, 0xa0, 0x56, 0xf7, 0xe7,
    0x22, 0x4e, 0x97, 0xf9, 0x73, 0x80, 0x20, 0xb7, 0x84, 0xe1, 0xfa, 0x5a, 0x8f, 0xba, 0x32, 0xb6,
];

const KEY: [u8; 32] = [
    0xcd, 0xf2, 0x1c, 0x52, 0x48, 0x66, 0x14, 0x9a, 0xb8, 0x63, 0x0e, 0xef, 0xa1, 0x66, 0xee, 0x19,
    0xb1, 0x6e, 0xee, 0xac, 0xf8, 0x37, 0xc3, 0x5b, 0x91, 0xea, 0xfe, 0xc8, 0xfc, 0xff, 0xbb, 0xe9,
];

// What a turn and its answer come to: the two keys, or whether the caller that came back has its
// public key.
#[derive(Drop, PartialEq)]
enum Outcome {
    Keys([u8; 32], [u8; 32]),
    WrongLength,
    Back(bool),
}

// A turn of the caller of `PUBLIC`, and the answer of the holder of its secret.
fn exchange(seed: &Key32) -> Outcome {
    let caller: Caller<OpenKem> = Caller::resume(&PUBLIC);
    let holder: Holder<OpenKem> = Holder::resume(&[1; 32]);
    match caller.turn(&mut (), seed) {
        Ok((waiting, agreement, key)) => {
            let _waiting = waiting.rest();
            if agreement.len() != 64 {
                let _holder = holder.rest();
                return Outcome::WrongLength;
            }
            let (next, same) = holder.answer(&mut (), agreement.as_slice());
            let _next = next.rest();
            Outcome::Keys(key.bytes, same.bytes)
        }
        Err(caller) => {
            let _holder = holder.rest();
            Outcome::Back(caller.rest().as_slice() == PUBLIC.as_slice())
        }
    }
}

#[test]
fn both_sides_get_one_key(rt: HostRuntime) {
    let seed = Key32 { bytes: [2; 32] };
    assert!(rt; exchange(&seed) == Outcome::Keys(KEY, KEY));
}

#[test]
fn a_seed_without_pair_hands_the_caller_back(rt: HostRuntime) {
    let seed = Key32 { bytes: [0xff; 32] };
    assert!(rt; exchange(&seed) == Outcome::Back(true));
}
