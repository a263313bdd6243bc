//! What a box is made by.

ghost use Rattle.std.specs.Prelude.{◌≡◌};

use dr_base::Key32;
use relay_guard::Guard;
use relay_wire::Name;

/// The keys of a guarded box: its owner fetches and acknowledges under the one, and who posts to it
/// does so under the other.
#[derive(Drop)]
pub struct BoxKeys {
    pub owner: Key32,
    pub poster: Key32,
}

/// What a box is made by: its name, and the keys of its guard. Without keys it serves whoever asks.
#[derive(Drop)]
pub struct BoxSpec {
    pub name: Name,
    pub keys: Option<BoxKeys>,
}

impl BoxSpec {
    ghost use Rattle.relay_core.specs.Boxes.{guard_by};
    ghost use Rattle.relay_core.specs.Lawful.{HasLawfulGuard};

    /// The guard with its keys, under which nothing was served yet.
    pub(crate) fn guard(&self) -> Option<Guard>
        ensures value { result ≡ guard_by self.now.keys }
        ensures lawful { HasLawfulGuard result }
    {
        match &self.keys {
            None => None,
            Some(keys) => {
                let owner = Key32 {
                    bytes: keys.owner.bytes,
                };
                let poster = Key32 {
                    bytes: keys.poster.bytes,
                };
                Some(Guard::new(owner, poster))
            }
        }
    }
}
