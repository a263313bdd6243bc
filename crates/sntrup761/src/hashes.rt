//! The hashes.

ghost use Rattle.std.specs.Prelude.{◌≡◌, ◌++◌};
ghost use Rattle.sntrup761.specs.Hashes.{hash, confirm, session};

use dr_base::array_at;
use sha2::{Digest, Sha512};

/// Hash_b of two texts in a row.
#[tactic(auto, unfolding(crate::specs::Hashes::hash))]
fn hash_both(b: u8, first: &[u8], second: &[u8]) -> [u8; 32]
    ensures { result ≡ hash b (first.now ++ second.now) }
{
    let mut hasher = Sha512::new();
    hasher.update(&[b]);
    hasher.update(first);
    hasher.update(second);
    array_at(&hasher.finalize(), 0)
}

/// Hash_b.
pub(crate) fn hash(b: u8, text: &[u8]) -> [u8; 32]
    ensures { result ≡ hash b text.now }
{
    hash_both(b, b"", text)
}

/// What confirms r, which is given as its bytes.
#[tactic(auto, unfolding(crate::specs::Hashes::confirm))]
pub(crate) fn confirm(r: &[u8], public_hash: &[u8]) -> [u8; 32]
    ensures { result ≡ confirm r.now public_hash.now }
{
    hash_both(2, &hash(3, r), public_hash)
}

/// The shared key of r, or of rho, and the ciphertext.
#[tactic(auto, unfolding(crate::specs::Hashes::session))]
pub(crate) fn session(b: u8, r: &[u8], ciphertext: &[u8]) -> [u8; 32]
    ensures { result ≡ session b r.now ciphertext.now }
{
    hash_both(b, &hash(3, r), ciphertext)
}
