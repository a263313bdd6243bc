//! All sessions of a hub, as a fan.

ghost use Rattle.std.specs.Prelude.{◌≡◌, ◌≤◌, ◌<◌, ◌++◌, ◌-◌, ◌∷◌, [], length};
ghost use Rattle.book.specs.Fanning.{IsUnlisted};
ghost use Rattle.book.specs.Fans.{AreListed};
ghost use Rattle.book.specs.Naming.{IsPlaceOf};
ghost use Rattle.hub.specs.Peers.{hub_rows, peer_name, places};

use crate::peers::{PEERS_LIMIT, peer_name};
use book::{Book, FanOut};
use kem_laws::Kem;

/// Adds the session of a peer to a fan in which it isn't yet.
fn add<K: Kem>(list: &mut FanOut, book: &Book<K>, number: u32)
    requires first { 1 ≤ number }
    requires few { number ≤ PEERS_LIMIT }
    requires named { IsPlaceOf (peer_name number) book.now.rows (number - 1) }
    requires unlisted { IsUnlisted (number - 1) list.old }
    requires room { length list.old < number }
    requires listed { AreListed book.now.rows list.old }
    ensures list { list.new ≡ list.old ++ (number - 1) ∷ [] }
    ensures listed { AreListed book.now.rows list.new }
{
    match list.add(book, peer_name(number)) {
        Ok(()) => {}
        Err(_) => unreachable!(),
    }
}

/// The sessions of all peers, in their order.
pub(crate) fn everyone<K: Kem>(book: &Book<K>, peers: u32) -> FanOut
    requires few { peers ≤ PEERS_LIMIT }
    requires rows { book.now.rows ≡ hub_rows K.mechanism peers }
    ensures list { result ≡ places peers }
    ensures listed { AreListed book.now.rows result }
{
    let mut list = FanOut::new();
    'peers: for at in 0..peers {
        add(&mut list, book, at + 1);
    }
    list
}
