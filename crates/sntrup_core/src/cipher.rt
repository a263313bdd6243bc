//! Encryption and decryption.

ghost use Rattle.std.specs.Prelude.{◌≡◌};
ghost use Rattle.sntrup_core.specs.Core.{encrypted, ones, recovered, decrypted};

use crate::sampling::WEIGHT;
use ntru_ring::{R3, Rq, planes_of};

/// Encrypts the short element `r` to the public key `h`: r's planes say which multiples of `h` are
/// added.
#[tactic(auto, unfolding(crate::specs::Core::encrypted))]
pub fn encrypt(r: &R3, h: &Rq) -> Rq
    ensures { result.coefficients ≡ encrypted r.now.coefficients h.now.coefficients }
{
    h.mul_small(&planes_of(r)).round()
}

/// Ones at the first places, and zeros after them.
fn ones() -> R3
    ensures { result.coefficients ≡ ones }
{
    let mut coefficients = [0; 761];
    for k in 0..WEIGHT {
        coefficients[k] = 1;
    }
    R3::new(&coefficients)
}

/// Decrypts `c` with the secret `f`, as planes, and `v`. Of a ciphertext that no short element
/// encrypts to, something short too.
pub fn decrypt(f: &R3, v: &R3, c: &Rq) -> R3
    ensures { result.coefficients
        ≡ decrypted f.now.coefficients v.now.coefficients c.now.coefficients }
{
    let r = c.mul_small(&planes_of(f)).scale(3).to_r3().mul(v);
    if r.weight() as usize == WEIGHT {
        r
    } else {
        ones()
    }
}
