//! The keys that a message key is expanded to.

ghost use Rattle.std.specs.Prelude.{◌≡◌, take, drop};
ghost use Rattle.etm_aead.specs.Seal.{cipher_key_of, message_keys, nonce_of, tag_key_of};

use dr_base::array_at;
use hmac_hkdf::expand_into;

// The label of this use of the message key.
const LABEL: &[u8; 7] = b"dr seal";

// The keys of one message.
#[derive(Drop)]
pub struct MessageKeys {
    pub cipher: [u8; 32],
    pub tag: [u8; 32],
    pub nonce: [u8; 12],
}

// The parts of the expanded bytes, in their order.
fn split(bytes: &[u8; 76]) -> MessageKeys
    ensures cipher { result.cipher ≡ take 32 bytes.now }
    ensures tag { result.tag ≡ take 32 (drop 32 bytes.now) }
    ensures nonce { result.nonce ≡ take 12 (drop 64 bytes.now) }
{
    MessageKeys {
        cipher: array_at(bytes, 0),
        tag: array_at(bytes, 32),
        nonce: array_at(bytes, 64),
    }
}

// The keys of the message with this key.
#[tactic(auto, unfolding(crate::specs::Seal::message_keys))]
pub fn message_keys(key: &[u8; 32]) -> MessageKeys
    ensures cipher { result.cipher ≡ cipher_key_of key.now }
    ensures tag { result.tag ≡ tag_key_of key.now }
    ensures nonce { result.nonce ≡ nonce_of key.now }
{
    let mut bytes = [0; 76];
    expand_into(key, LABEL, &mut bytes);
    split(&bytes)
}
