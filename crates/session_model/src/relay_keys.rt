//! The keys of a session's boxes at a relay.

ghost use Rattle.std.specs.Prelude.{◌≡◌, length};
ghost use Rattle.session_model.specs.BoxKeys.{AreLongKeys, relay_begun, relay_keys_at, relay_keys_of};

use crate::part::copy_of_key;
use dr_base::{Key32, array_at};
use hmac_hkdf::{expand_into, extract};

/// The label under which they follow from the shared key.
const LABEL: &[u8; 8] = b"dr relay";

/// How many bytes they are.
pub const RELAY_KEYS_SIZE: usize = 4 * 32;

/// The keys of a session's two boxes at a relay: for each the owner's, who collects, and the
/// poster's, who delivers. Box `S-1` of a session S is First's, box `S-2` is Second's. Both sides
/// have the same keys, and no message key follows from them.
#[derive(Drop)]
pub struct RelayKeys {
    pub first_owner: Key32,
    pub first_poster: Key32,
    pub second_owner: Key32,
    pub second_poster: Key32,
}

impl RelayKeys {
    /// The keys that stand in these bytes, one after the other.
    pub fn at(bytes: &[u8]) -> RelayKeys
        requires { length bytes.now ≡ RELAY_KEYS_SIZE }
        ensures { result ≡ relay_keys_at bytes.now }
    {
        RelayKeys {
            first_owner: Key32 {
                bytes: array_at(bytes, 0),
            },
            first_poster: Key32 {
                bytes: array_at(bytes, 32),
            },
            second_owner: Key32 {
                bytes: array_at(bytes, 64),
            },
            second_poster: Key32 {
                bytes: array_at(bytes, 96),
            },
        }
    }

    /// The keys of the session that a shared key begins.
    #[tactic(auto, unfolding(crate::specs::BoxKeys::relay_begun))]
    pub fn of(key: &Key32) -> RelayKeys
        ensures { result ≡ relay_keys_of key.now.bytes }
    {
        let prk = extract(&[0; 32], &key.bytes);
        let mut bytes = [0; RELAY_KEYS_SIZE];
        expand_into(&prk, LABEL, &mut bytes);
        RelayKeys::at(&bytes)
    }

    /// A second copy.
    pub fn copied(&self) -> RelayKeys
        ensures { result ≡ self.now }
    {
        RelayKeys {
            first_owner: copy_of_key(&self.first_owner),
            first_poster: copy_of_key(&self.first_poster),
            second_owner: copy_of_key(&self.second_owner),
            second_poster: copy_of_key(&self.second_poster),
        }
    }
}

/// A key has 32 bytes, which the proofs learn here.
pub fn is_long(key: &[u8; 32])
    ensures { length key.now ≡ 32 }
{}

/// Each key has 32 bytes, which the proofs learn here.
pub fn are_long(keys: &RelayKeys)
    ensures { AreLongKeys keys.now }
{
    is_long(&keys.first_owner.bytes);
    is_long(&keys.first_poster.bytes);
    is_long(&keys.second_owner.bytes);
    is_long(&keys.second_poster.bytes);
}
