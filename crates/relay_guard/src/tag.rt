//! The tag of a request.

ghost use Rattle.std.specs.Prelude.{◌≡◌, ◌++◌};
ghost use Rattle.relay_guard.specs.Guards.{token_tag};

use dr_base::Key32;
use hmac_hkdf::Mac;

/// What the tags of this use begin with.
const LABEL: &[u8; 11] = b"relay token";

/// The tag of a request under a key and a counter. The request is what stands in three pieces, one
/// after the other.
pub fn token_tag(key: &Key32, counter: u64, head: &[u8], name: &[u8], rest: &[u8]) -> [u8; 32]
    ensures { result ≡ token_tag key.now.bytes counter (head.now ++ (name.now ++ rest.now)) }
{
    let mut mac = Mac::new(&key.bytes);
    mac.update(LABEL);
    mac.update(&counter.to_be_bytes());
    mac.update(head);
    mac.update(name);
    mac.update(rest);
    mac.finish()
}
