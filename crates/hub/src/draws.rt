//! The seeds of a hub's sessions.

ghost use Rattle.std.specs.Prelude.{◌≡◌, ◌≤◌, IfOk};
ghost use Rattle.dr_model.specs.Machines.Draws.{drawn};
ghost use Rattle.hub.specs.Peers.{first_draws};

use crate::peers::{PEERS_LIMIT, peer_key};
use arrayvec::ArrayVec;
use book::FAN_LIMIT;
use dr_base::Key32;
use dr_ports::SteadyDraws;
use hmac_hkdf::Mac;
use std::alloc::{AllocError, Global};

/// The label of a draw.
const LABEL: &[u8; 9] = b"duet draw";

/// A draw: the HMAC of its number under a key, as in a script without given seeds.
#[tactic(auto, unfolding(dr_model::specs::Machines::Draws::drawn))]
fn draw(key: &Key32, number: u32) -> Key32
    ensures { result.bytes ≡ drawn key.now.bytes number }
{
    let mut mac = Mac::new(&key.bytes);
    mac.update(LABEL);
    mac.update(&number.to_le_bytes());
    Key32 {
        bytes: mac.finish(),
    }
}

/// Draws that give as many seeds as there are peers, under the key of the first.
pub(crate) fn hub_draws(alloc: Global, peers: u32) -> Result<SteadyDraws, AllocError>
    requires first { 1 ≤ peers }
    requires few { peers ≤ PEERS_LIMIT }
    ensures { IfOk result (λ draws. draws ≡ first_draws peers) }
{
    let key = peer_key(1);
    let mut seeds = ArrayVec::<Key32, FAN_LIMIT>::new();
    'seeds: for number in 0..peers {
        seeds.push(draw(&key, number));
    }
    SteadyDraws::new(alloc, seeds.as_slice())
}
