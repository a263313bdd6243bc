//! HKDF with SHA-256: a key is extracted from what is at hand, and then expanded to as many bytes
//! as are needed (RFC 5869, 2).

ghost use Rattle.std.specs.Prelude.{◌≡◌, ℕ, ◌+◌, ◌-◌, ◌≤◌, List, [], ◌∷◌, ◌++◌, drop, length, take};
ghost use Rattle.hmac_hkdf.specs.Hmac.{IsKeyed, hmac_of};
ghost use Rattle.hmac_hkdf.specs.Hkdf.{expand_of, extract_of};

use crate::keyed::KeyedMac;
use crate::mac::hmac;

// The length of a digest, in bytes.
const HASH_LEN: usize = 32;

/// The pseudorandom key of a salt and of input keying material, each of any length.
#[tactic(auto, unfolding(crate::specs::Hkdf::extract_of))]
pub fn extract(salt: &[u8], ikm: &[u8]) -> [u8; 32]
    ensures { result ≡ extract_of salt.now ikm.now }
{
    hmac(salt, ikm)
}

// The block with this number, after the block `previous`.
fn next_block(keyed: &KeyedMac, previous: &[u8], info: &[u8], number: u8) -> [u8; 32]
    ensures { (key : List ℕ) → IsKeyed keyed.now key
        → result ≡ hmac_of key (previous.now ++ info.now ++ number ∷ []) }
{
    let mut mac = keyed.begin();
    mac.update(previous);
    mac.update(info);
    mac.update(&[number]);
    mac.finish()
}

// Writes `block` from the place `at` on, as far as `out` reaches.
fn put_block(out: &mut [u8], at: usize, block: &[u8; 32])
    requires { at ≤ length out.old }
    ensures { take (at + 32) out.new ≡ take (length out.old) (take at out.old ++ block.now) }
{
    let len = HASH_LEN.min(out.len() - at);
    out[at..at + len].copy_from_slice(&block[..len]);
}

/// Fills `out`, of at most 255 times 32 bytes, with output keying material from a pseudorandom key
/// and the context `info`.
pub fn expand_into(prk: &[u8; 32], info: &[u8], out: &mut [u8])
    requires { length out.old ≤ 8160 }
    ensures { out.new ≡ expand_of prk.now info.now (length out.old) }
{
    let keyed = KeyedMac::new(prk);
    let mut block = [0u8; HASH_LEN];
    let count = out.len().div_ceil(HASH_LEN);
    'output: for i in 0..count {
        let previous_len = if i == 0 { 0 } else { HASH_LEN };
        block = next_block(&keyed, &block[..previous_len], info, (i + 1) as u8);
        put_block(out, HASH_LEN * i, &block);
    }
}
