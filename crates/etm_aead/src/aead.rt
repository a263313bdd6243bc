//! Authenticated encryption as a trait, and the one of this crate.

ghost use Rattle.std.specs.Prelude.{◌≡◌, ℕ, ◌-◌, ◌*◌, ◌^◌, ◌≤◌, List, length, Option, Some, None, is_ok, OnErr, if◌then◌else◌};
ghost use Rattle.etm_aead.specs.Aead.{Sealed, opened_of, sealed_of};
ghost use Rattle.etm_aead.specs.Undoing.{opened_of-sealed_of};

use crate::opening::{BadTag, OpenKey};
use crate::sealing::SealKey;

/// Authenticated encryption with associated data (RFC 5116), of one message under one key.
pub trait Aead {
    /// The key that seals a message.
    type Seal;

    /// The key that opens a message.
    type Open;

    // The longest text, in bytes.
    ghost longest: { ℕ };

    // The bytes of a key that seals.
    ghost seal_key: { Self.Seal → List ℕ };

    // The bytes of a key that opens.
    ghost open_key: { Self.Open → List ℕ };

    // What sealing gives for a key, the associated data and a text.
    ghost seal_gives: { List ℕ → List ℕ → List ℕ → Sealed };

    // What opening gives for a key, the associated data, and a ciphertext with its tag: the text,
    // or nothing.
    ghost open_gives: { List ℕ → List ℕ → Sealed → Option (List ℕ) };

    /// Encrypts the text in place, and answers the tag.
    fn seal(key: Self::Seal, ad: &[u8], text: &mut [u8]) -> [u8; 32]
        requires { length text.old ≤ longest }
        ensures { seal_gives (seal_key key) ad.now text.old
            ≡ record { ciphertext = text.new; tag = result } };

    /// Decrypts the ciphertext in place, or leaves the bytes as they were.
    fn open(key: Self::Open, ad: &[u8], ct: &mut [u8], tag: &[u8; 32]) -> Result<(), BadTag>
        requires { length ct.old ≤ longest }
        ensures opened { let given : Sealed = record { ciphertext = ct.old; tag = tag.now } in
            open_gives (open_key key) ad.now given ≡ (if is_ok result then Some ct.new else None) }
        ensures err { OnErr result (ct.new ≡ ct.old) };

    // Opening undoes sealing: what was sealed opens, and gives the text back.
    ghost open_undoes_seal: { (key ad text : List ℕ) → open_gives key ad (seal_gives key ad text) ≡ Some text };
}

/// Encryption with ChaCha20, and then HMAC with SHA-256 over the ciphertext.
#[derive(Clone, Copy)]
pub struct EncryptThenMac;

impl Aead for EncryptThenMac {
    type Seal = SealKey;

    type Open = OpenKey;

    ghost longest = { 64 * (2 ^ 32 - 1) };

    ghost seal_key = { λ k. k };

    ghost open_key = { λ k. k };

    ghost seal_gives = { sealed_of };

    ghost open_gives = { opened_of };

    ghost open_undoes_seal = { opened_of-sealed_of };

    #[tactic(auto, unfolding(crate::specs::Aead::sealed_of))]
    fn seal(key: SealKey, ad: &[u8], text: &mut [u8]) -> [u8; 32] {
        key.seal(ad, text)
    }

    #[tactic(auto, unfolding(crate::specs::Aead::opened_of))]
    fn open(key: OpenKey, ad: &[u8], ct: &mut [u8], tag: &[u8; 32]) -> Result<(), BadTag> {
        key.open(ad, ct, tag)
    }
}
