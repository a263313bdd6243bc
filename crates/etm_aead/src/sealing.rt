//! The key that seals one message.

ghost use Rattle.std.specs.Prelude.{◌≡◌, ℕ, ◌-◌, ◌*◌, ◌^◌, ◌≤◌, List, length};
ghost use Rattle.etm_aead.specs.Seal.{ciphertext_of, tag_of};

use crate::message_keys::message_keys;
use crate::tag::compute_tag;
use dr_base::Key32;
use dr_chacha20::xor_in_place;
use std::marker::Model;

/// The key that seals one message. A contract sees it as the 32 bytes of the message key.
///
/// It can't be copied, and it has to be spent: by `seal`, or by `discard`. Sealing twice with one
/// key does not compile, since the first call takes the key:
///
/// ```text
/// let key = SealKey::from_message(message_key);
/// let first_tag = key.seal(b"", &mut first);
/// let second_tag = key.seal(b"", &mut second); // use of moved value: `key`
/// ```
pub struct SealKey {
    key: Key32,
}

impl Model for SealKey {
    ghost Value = { List ℕ };

    ghost view = { λ k. k.key.bytes };
}

impl SealKey {
    /// The key that seals the message with this message key.
    pub fn from_message(key: Key32) -> SealKey
        ensures { result ≡ key.bytes }
    {
        SealKey { key }
    }

    /// Encrypts the text in place and answers the tag, which also covers `ad`, what goes along in
    /// the clear.
    ///
    /// A text has at most as many bytes as the cipher's blocks 1 to 2^32 - 1.
    #[tactic(auto, unfolding(crate::specs::Seal::ciphertext_of, crate::specs::Seal::tag_of))]
    pub fn seal(self, ad: &[u8], text: &mut [u8]) -> [u8; 32]
        requires { length text.old ≤ 64 * (2 ^ 32 - 1) }
        ensures ciphertext { text.new ≡ ciphertext_of self text.old }
        ensures tag { result ≡ tag_of self ad.now text.new }
    {
        let SealKey { key } = self;
        let keys = message_keys(&key.bytes);
        xor_in_place(&keys.cipher, 1, &keys.nonce, text);
        compute_tag(&keys.tag, ad, text)
    }

    /// Gives the key up: no message will be sealed with it.
    pub fn discard(self) {
        let SealKey { key: _ } = self;
    }
}
