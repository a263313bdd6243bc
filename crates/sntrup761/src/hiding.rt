//! Ciphertexts.

ghost use Rattle.std.specs.Prelude.{◌≡◌, ◌+◌, ◌≤◌, length, None};
ghost use Rattle.std.specs.Str.{bytes_eq};
ghost use Rattle.ntru_codec.specs.Small.{first_bad, small_decoded};
ghost use Rattle.sntrup761.specs.Mechanism.{part, bad_byte, hidden, opened};

use crate::hashes::confirm;
use dr_base::{array_at, put};
use ntru_codec::{rounded_decode, rounded_encode, rq_decode, small_decode, small_encode};
use ntru_ring::R3;
use sntrup_core::{decrypt, encrypt};

/// Writes the ciphertext of `r`.
#[tactic(auto, unfolding(crate::specs::Mechanism::hidden))]
pub(crate) fn hide(r: &R3, public: &[u8; 1158], public_hash: &[u8], ciphertext: &mut [u8])
    requires { length ciphertext.old ≡ 1039 }
    ensures { ciphertext.new ≡ hidden r.now.coefficients public.now public_hash.now }
{
    let rounded = rounded_encode(&encrypt(r, &rq_decode(public)));
    let at = put(ciphertext, 0, &rounded);
    put(ciphertext, at, &confirm(&small_encode(r), public_hash));
}

/// The small element at a place of a secret.
fn small_at(secret: &[u8], at: usize) -> R3
    requires room { at + 191 ≤ length secret.now }
    requires good { first_bad (part at 191 secret.now) ≡ None }
    ensures { result.coefficients ≡ small_decoded (part at 191 secret.now) }
{
    small_decode(&array_at(secret, at)).unwrap()
}

/// What a lawful secret decrypts a ciphertext to.
#[tactic(auto, unfolding(crate::specs::Mechanism::opened))]
pub(crate) fn open(secret: &[u8], ciphertext: &[u8]) -> R3
    requires secret_size { length secret.now ≡ 1763 }
    requires lawful { bad_byte secret.now ≡ None }
    requires ciphertext_size { length ciphertext.now ≡ 1039 }
    ensures { result.coefficients ≡ opened secret.now ciphertext.now }
{
    let f = small_at(secret, 0);
    let v = small_at(secret, 191);
    decrypt(&f, &v, &rounded_decode(&array_at(ciphertext, 0)))
}

/// Whether two ciphertexts are the same.
pub(crate) fn is_same(a: &[u8], b: &[u8]) -> bool
    ensures { result ≡ bytes_eq a.now b.now }
{
    a == b
}
