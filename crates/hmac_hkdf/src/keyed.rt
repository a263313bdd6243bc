//! A key of HMAC that is hashed once, for many messages.

ghost use Rattle.std.specs.Prelude.{◌≡◌, List, ℕ, []};
ghost use Rattle.hmac_hkdf.specs.Hmac.{IsKeyed, MacHolds, hmac_of};

use crate::mac::Mac;

/// A key of HMAC. It is hashed when it is taken in, so that each further message costs two blocks
/// of SHA-256 fewer than a call of `hmac`.
#[derive(Drop)]
pub struct KeyedMac {
    mac: Mac,
}

impl KeyedMac {
    /// Takes in a key of any length.
    pub fn new(key: &[u8]) -> KeyedMac
        ensures { IsKeyed result key.now }
    {
        KeyedMac { mac: Mac::new(key) }
    }

    /// An HMAC of the empty message under the key. The key is as it was.
    pub fn begin(&self) -> Mac
        ensures { (key : List ℕ) → IsKeyed self.now key → MacHolds result key [] }
    {
        self.mac.copied()
    }

    /// The HMAC of a whole message under the key.
    pub fn hmac(&self, message: &[u8]) -> [u8; 32]
        ensures { (key : List ℕ) → IsKeyed self.now key → result ≡ hmac_of key message.now }
    {
        let mut mac = self.begin();
        mac.update(message);
        mac.finish()
    }
}
