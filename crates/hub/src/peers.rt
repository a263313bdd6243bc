//! The peers of a hub: each has a number from 1, a name, and a key that it shares with the hub.

ghost use Rattle.std.specs.Prelude.{◌≡◌, ◌≤◌, length};
ghost use Rattle.hub.specs.Peers.{peer_key, peer_name};

use book::FAN_LIMIT;
use dr_base::Key32;

/// The most peers of a hub: as many sessions as a fan may have.
pub const PEERS_LIMIT: u32 = FAN_LIMIT as u32;

/// The name of the peer of a number.
pub fn peer_name(number: u32) -> &'static str
    requires first { 1 ≤ number }
    requires few { number ≤ PEERS_LIMIT }
    ensures name { result.now ≡ peer_name number }
    ensures len { length result.now ≡ 2 }
{
    if number == 1 {
        return "p1";
    }
    if number == 2 {
        return "p2";
    }
    if number == 3 {
        return "p3";
    }
    if number == 4 {
        return "p4";
    }
    if number == 5 {
        return "p5";
    }
    if number == 6 {
        return "p6";
    }
    if number == 7 {
        return "p7";
    }
    "p8"
}

/// The key of the peer of a number: bytes of that value.
pub(crate) fn peer_key(number: u32) -> Key32
    requires { number ≤ PEERS_LIMIT }
    ensures { result ≡ peer_key number }
{
    Key32 {
        bytes: [number as u8; 32],
    }
}
