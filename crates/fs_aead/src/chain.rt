//! One step of a chain of keys.

ghost use Rattle.std.specs.Prelude.{◌≡◌};
ghost use Rattle.fs_aead.specs.Chain.{chain_message_key, next_chain};

use dr_base::Key32;
use hmac_hkdf::KeyedMac;

// What a chain key gives: the chain key after it, and one message key.
#[derive(Drop)]
pub struct NextKeys {
    pub chain: Key32,
    pub message: Key32,
}

// The step that spends a chain key, which is hashed once for both keys.
#[tactic(auto, unfolding(crate::specs::Chain::next_chain, crate::specs::Chain::chain_message_key))]
pub fn step(chain: Key32) -> NextKeys
    ensures chain { result.chain.bytes ≡ next_chain chain.bytes }
    ensures message { result.message.bytes ≡ chain_message_key chain.bytes }
{
    let keyed = KeyedMac::new(&chain.bytes);
    NextKeys {
        chain: Key32 {
            bytes: keyed.hmac(&[2]),
        },
        message: Key32 {
            bytes: keyed.hmac(&[1]),
        },
    }
}
