//! The relay of a script before its first deed.

ghost use Rattle.std.specs.Prelude.{◌≡◌, IfOk};
ghost use Rattle.relay_link.specs.Connections.{boxes_now};
ghost use Rattle.duet.specs.Relay.{boxes_where, first_keys, second_keys, spec_where};
ghost use Rattle.session_model.specs.BoxKeys.{relay_keys_of};

use client::Names;
use dr_base::Key32;
use relay_core::{BoxKeys, BoxSpec};
use relay_link::RelayLink;
use relay_wire::Name;
use session_model::RelayKeys;
use std::alloc::{AllocError, Global};

/// The keys of First's box, and those of Second's, in the session that a key begins.
fn both_keys(key: &Key32) -> (BoxKeys, BoxKeys)
    ensures first { result.0 ≡ first_keys (relay_keys_of key.now.bytes) }
    ensures second { result.1 ≡ second_keys (relay_keys_of key.now.bytes) }
{
    let RelayKeys {
        first_owner,
        first_poster,
        second_owner,
        second_poster,
    } = RelayKeys::of(key);
    let first = BoxKeys {
        owner: first_owner,
        poster: first_poster,
    };
    let second = BoxKeys {
        owner: second_owner,
        poster: second_poster,
    };
    (first, second)
}

/// What a box is made by: with these keys where it is guarded.
fn spec_where(guarded: bool, name: Name, keys: BoxKeys) -> BoxSpec
    ensures { result ≡ spec_where guarded name keys }
{
    if guarded {
        return BoxSpec {
            name,
            keys: Some(keys),
        };
    }
    BoxSpec { name, keys: None }
}

/// A relay in memory with the boxes of First, who has these names, and of Second, both empty. They
/// are guarded with the keys of the session that this key begins, where that is asked for.
pub fn opening_relay(
    alloc: Global,
    names: Names,
    key: &Key32,
    guarded: bool,
) -> Result<RelayLink, AllocError>
    ensures { IfOk result (λ relay.
        boxes_now relay ≡ boxes_where guarded key.now.bytes names.own names.peers) }
{
    let (first, second) = both_keys(key);
    let own = spec_where(guarded, names.own, first);
    let peers = spec_where(guarded, names.peers, second);
    let relay = RelayLink::new(alloc, &[own, peers])?;
    Ok(relay)
}
