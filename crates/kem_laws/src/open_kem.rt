//! A mechanism without secrecy.

ghost use Rattle.std.specs.Prelude.{◌≡◌, ◌++◌, length, codes, refl};
ghost use Rattle.sha2.specs.Sha256.{sha256};
ghost use Rattle.kem_laws.specs.Open.{open_public, open_ciphertext, open_shared, open_kem};
ghost use Rattle.kem_laws.specs.OpenLaw.{open_law};

use crate::kem::{BadSecret, Kem, NoPair};
use dr_base::Key32;
use sha2::{Digest, Sha256};
use std::alloc::{AllocError, Global};

/// The seed that has no pair.
const WITHOUT_PAIR: [u8; 32] = [0xff; 32];

/// The digest of a label with a value after it.
fn labelled(label: &[u8], value: &[u8]) -> [u8; 32]
    ensures { result ≡ sha256 (label.now ++ value.now) }
{
    let mut hasher = Sha256::new();
    hasher.update(label);
    hasher.update(value);
    hasher.finalize()
}

/// The public key of a seed.
#[tactic(auto, unfolding(crate::specs::Open::open_public))]
fn public_key(seed: &[u8]) -> [u8; 32]
    ensures { result ≡ open_public seed.now }
{
    labelled(b"open", seed)
}

/// The ciphertext of a seed.
#[tactic(auto, unfolding(crate::specs::Open::open_ciphertext))]
fn wrapped(seed: &[u8]) -> [u8; 32]
    ensures { result ≡ open_ciphertext seed.now }
{
    labelled(b"wrap", seed)
}

/// The shared key of a public key and a ciphertext.
#[tactic(auto, unfolding(crate::specs::Open::open_shared))]
fn shared_key(public: &[u8], ciphertext: &[u8]) -> Key32
    ensures { result.bytes ≡ open_shared public.now ciphertext.now }
{
    let mut hasher = Sha256::new();
    hasher.update(b"key");
    hasher.update(public);
    hasher.update(ciphertext);
    Key32 {
        bytes: hasher.finalize(),
    }
}

/// A stand-in for tests and scripts. Anyone can compute its shared keys: it keeps no secret.
#[derive(Clone, Copy)]
pub struct OpenKem;

impl Kem for OpenKem {
    const PUBLIC: usize = 32;

    const SECRET: usize = 32;

    const CIPHERTEXT: usize = 32;

    type Work = ();

    ghost PUBLIC = { 32 };

    ghost SECRET = { 32 };

    ghost CIPHERTEXT = { 32 };

    ghost mechanism = { open_kem };

    ghost law = { open_law };

    ghost sizes = { record { public_is = refl; secret_is = refl; ciphertext_is = refl } };

    fn work(_: Global) -> Result<(), AllocError> {
        Ok(())
    }

    #[tactic(auto, unfolding(crate::specs::Open::open_pair))]
    fn pair(_: &mut (), seed: &Key32, public: &mut [u8], secret: &mut [u8]) -> Result<(), NoPair> {
        if seed.bytes == WITHOUT_PAIR {
            return Err(NoPair);
        }
        public.copy_from_slice(&public_key(&seed.bytes));
        secret.copy_from_slice(&seed.bytes);
        Ok(())
    }

    fn encap(_: &mut (), public: &[u8], seed: &Key32, ciphertext: &mut [u8]) -> Key32 {
        ciphertext.copy_from_slice(&wrapped(&seed.bytes));
        shared_key(public, ciphertext)
    }

    fn is_secret(_: &[u8]) -> Result<(), BadSecret> {
        Ok(())
    }

    fn decap(_: &mut (), secret: &[u8], ciphertext: &[u8]) -> Key32 {
        shared_key(&public_key(secret), ciphertext)
    }
}
