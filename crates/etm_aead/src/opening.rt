//! The key that opens one message.

ghost use Rattle.std.specs.Prelude.{◌≡◌, ℕ, ◌-◌, ◌*◌, ◌^◌, ◌≤◌, ◌↔◌, List, length, IsOk, OnOk, OnErr};
ghost use Rattle.etm_aead.specs.Seal.{ciphertext_of, tag_of};

use crate::message_keys::message_keys;
use crate::tag::{compute_tag, is_equal};
use dr_base::Key32;
use dr_chacha20::xor_in_place;
use std::marker::Model;
use thiserror::Error;

/// The tag isn't that of the ciphertext and of what came along in the clear, under this key.
#[derive(Clone, Copy, Debug, PartialEq, Eq, Error)]
#[error("the tag isn't that of the ciphertext under this key")]
pub struct BadTag;

/// The key that opens one message. A contract sees it as the 32 bytes of the message key.
///
/// It can't be copied, and it has to be spent: by `open`, by `shelve`, or by `discard`. A key that
/// is left unspent does not compile, since the type isn't `Drop`:
///
/// ```text
/// let key = OpenKey::from_message(message_key); // `key` is never spent
/// ```
pub struct OpenKey {
    key: Key32,
}

impl Model for OpenKey {
    ghost Value = { List ℕ };

    ghost view = { λ k. k.key.bytes };
}

impl OpenKey {
    /// The key that opens the message with this message key.
    pub fn from_message(key: Key32) -> OpenKey
        ensures { result ≡ key.bytes }
    {
        OpenKey { key }
    }

    /// Decrypts the ciphertext in place, if the tag is right. The tag is looked at first, so that
    /// at `BadTag` the bytes are as they came.
    ///
    /// Encryption undoes itself, as `open_undoes_seal` says: the ciphertext of a ciphertext is the
    /// text.
    #[tactic(auto, unfolding(crate::specs::Seal::ciphertext_of, crate::specs::Seal::tag_of))]
    pub fn open(self, ad: &[u8], ct: &mut [u8], tag: &[u8; 32]) -> Result<(), BadTag>
        requires { length ct.old ≤ 64 * (2 ^ 32 - 1) }
        ensures exact { IsOk result ↔ (tag.now ≡ tag_of self ad.now ct.old) }
        ensures ok { OnOk result (ct.new ≡ ciphertext_of self ct.old) }
        ensures err { OnErr result (ct.new ≡ ct.old) }
    {
        let OpenKey { key } = self;
        let keys = message_keys(&key.bytes);
        if !is_equal(tag, &compute_tag(&keys.tag, ad, ct)) {
            return Err(BadTag);
        }
        xor_in_place(&keys.cipher, 1, &keys.nonce, ct);
        Ok(())
    }

    /// Gives the key up: no message will be opened with it.
    pub fn discard(self) {
        let OpenKey { key: _ } = self;
    }

    /// Puts the key by as plain bytes, for a message that is still to come.
    pub fn shelve(self) -> Key32
        ensures { result.bytes ≡ self }
    {
        let OpenKey { key } = self;
        key
    }
}
