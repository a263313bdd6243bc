//! The keys under which a client's requests are tagged.

ghost use Rattle.std.specs.Prelude.{◌≡◌, List, option_map, true, ℕ};
ghost use Rattle.kem_laws.specs.Mechanism.{Mechanism};
ghost use Rattle.relay_core.specs.Boxes.{role_of};
ghost use Rattle.relay_guard.specs.Guards.{token_tag};
ghost use Rattle.relay_wire.specs.Names.{is_name};
ghost use Rattle.relay_wire.specs.Requests.{plain_body};
ghost use Rattle.relay_wire.specs.Seen.{asked_of, asking_of};
ghost use Rattle.sync_model.specs.Tokens.{key_under};
ghost use Rattle.client.specs.Syncing.Keys.{keys_in, keys_seen, side_keys};
ghost use Rattle.client.specs.Syncing.Parties.{client_party, party_at};

use super::naming::Names;
use crate::client::Client;
use dr_base::{Key32, Side};
use kem_laws::Kem;
use relay_guard::{Role, token_tag};
use relay_wire::{ACK, Ask, FETCH, POST, Request};
use session_model::RelayKeys;

/// The keys of a side's requests: the owner's of its own box, and the poster's of its peer's.
#[derive(Drop)]
pub(crate) struct BoxKeys {
    pub(crate) owner: Key32,
    pub(crate) poster: Key32,
}

/// A client's two boxes at a relay: their names, and the keys of its requests to them.
#[derive(Drop)]
pub(crate) struct Boxes {
    pub(crate) names: Names,
    pub(crate) keys: Option<BoxKeys>,
}

/// Under whose key a request is tagged.
pub(crate) fn role_of(ask: &Ask<'_>) -> Role
    ensures { result ≡ role_of (asking_of ask.now) }
{
    match ask {
        Ask::Post(_) => Role::Poster,
        Ask::Fetch => Role::Owner,
        Ask::Ack(_) => Role::Owner,
    }
}

impl BoxKeys {
    /// Those of a side, of its session's.
    fn of(keys: RelayKeys, side: Side) -> BoxKeys
        ensures { keys_seen result ≡ side_keys side keys }
    {
        let RelayKeys {
            first_owner,
            first_poster,
            second_owner,
            second_poster,
        } = keys;
        match side {
            Side::First => BoxKeys {
                owner: first_owner,
                poster: second_poster,
            },
            Side::Second => BoxKeys {
                owner: second_owner,
                poster: first_poster,
            },
        }
    }

    /// The tag of a request under a counter.
    #[tactic(auto, unfolding(relay_wire::specs::Requests::plain_body))]
    pub(crate) fn tag(&self, counter: u64, request: &Request<'_>) -> [u8; 32]
        ensures { let asked = asked_of request.now in
            result ≡ token_tag (key_under (keys_seen self.now) (role_of asked.ask)) counter
            (plain_body asked.name asked.ask) }
    {
        let name = request.name.bytes();
        let len = name.len() as u8;
        match &request.ask {
            Ask::Post(packet) => {
                token_tag(&self.poster, counter, &[POST, len], name, packet.bytes())
            }
            Ask::Fetch => token_tag(&self.owner, counter, &[FETCH, len], name, &[]),
            Ask::Ack(number) => {
                let number = number.to_be_bytes();
                token_tag(&self.owner, counter, &[ACK, len], name, &number)
            }
        }
    }
}

impl<K: Kem> Client<K> {
    /// The keys of its requests, where its session has keys.
    fn box_keys(&self) -> Option<BoxKeys>
        ensures { option_map keys_seen result ≡ keys_in self.now.kept }
    {
        match self.relay_keys() {
            None => None,
            Some(keys) => Some(BoxKeys::of(keys, self.side())),
        }
    }

    /// Its boxes.
    pub(crate) fn boxes(&self) -> Boxes
        ensures party { (k : Mechanism) (prefix : List ℕ)
            → party_at k prefix result ≡ client_party k prefix self.now.kept }
        ensures own { is_name result.names.own ≡ true }
        ensures peers { is_name result.names.peers ≡ true }
    {
        Boxes {
            names: self.names(),
            keys: self.box_keys(),
        }
    }
}
