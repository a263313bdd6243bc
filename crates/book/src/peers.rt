//! A book's sessions and their peers: each session is a side of a conversation of its own. The
//! functions have no code: a caller that needs a fact calls them.

ghost use Rattle.std.specs.Prelude.{◌≡◌, ℕ, List, None, Result, Some, false, replicate};
ghost use Rattle.bodies.specs.declared.format.Format.{Format};
ghost use Rattle.book_model.specs.Rows.{Rows, begun, is_full, keeping, under};
ghost use Rattle.client.specs.Beginning.{HasPair, begin_of, begun_client};
ghost use Rattle.client.specs.declared.begin.Begin.{Begin};
ghost use Rattle.dr_base.specs.Position.{peer_of};
ghost use Rattle.dr_model.specs.Machines.Acts.{Act, act_on};
ghost use Rattle.dr_model.specs.Machines.Steps.{settled};
ghost use Rattle.dr_model.specs.Machines.WorldSides.{kept_in};
ghost use Rattle.dr_model.specs.Theorems.Acting.{IsFairAct};
ghost use Rattle.session_model.specs.Clients.{Client};
ghost use Rattle.book.specs.Books.{MayBookAct};
ghost use Rattle.book.specs.FanWorlds.{FansToPeers, NamedWorlds, StandIn, with_acted, with_begun};
ghost use Rattle.book.specs.Fanning.{FansIn};
ghost use Rattle.book.specs.Fans.{AreListed};
ghost use Rattle.book.specs.declared.refusals.FanRefusal.{FanRefusal};

use crate::book::Book;
use crate::fans::FanOut;
use dr_disk::Disk;
use dr_model::{acts_follow, said_is_opened};
use dr_ports::Draws;
use kem_laws::{Kem, laws};

/// Each session of a book stands in a lawful world of its own: with none there is nothing to show,
/// and one that is begun stands where the conversation of its key begins. There its peer begins
/// with the same key, as the other side, in whichever format. An act of a session leads its world
/// on, and so does one of its peer, which leaves what the session keeps; all other worlds stay.
pub fn sessions_have_worlds<K: Kem>()
    ensures none { (rows : ℕ) (worlds : NamedWorlds)
        → StandIn K.mechanism (replicate rows None) worlds }
    ensures begun { (name : List ℕ) (begin : Begin) (peers : Format) (rows : Rows Client)
        (worlds : NamedWorlds) → HasPair K.mechanism begin → under name rows ≡ None
        → is_full rows ≡ false → StandIn K.mechanism rows worlds
        → StandIn K.mechanism (begun name (begun_client K.mechanism begin) rows)
        (with_begun name begin peers worlds) }
    ensures peer { (name : List ℕ) (begin : Begin) (peers : Format) (worlds : NamedWorlds)
        → begun_client K.mechanism (begin_of (peer_of begin.side) peers begin.key)
        ≡ kept_in K.mechanism ((with_begun name begin peers worlds).world name)
        (peer_of begin.side) }
    ensures acts { (name : List ℕ) (act : Act) (kept : Client) (rows : Rows Client)
        (worlds : NamedWorlds) → StandIn K.mechanism rows worlds → under name rows ≡ Some kept
        → IsFairAct K.mechanism (worlds.world name) (worlds.side name) act
        → StandIn K.mechanism
        (keeping name (settled kept (act_on K.mechanism kept act)).next rows)
        (with_acted K.mechanism name (worlds.side name) act worlds) }
    ensures moves { (name : List ℕ) (act : Act) (kept : Client) (rows : Rows Client)
        (worlds : NamedWorlds) → StandIn K.mechanism rows worlds → under name rows ≡ Some kept
        → IsFairAct K.mechanism (worlds.world name) (peer_of (worlds.side name)) act
        → StandIn K.mechanism rows
        (with_acted K.mechanism name (peer_of (worlds.side name)) act worlds) }
{
    laws::<K>();
    acts_follow();
}

/// Where each session of a book stands in a world of its own, an Ok fan leads the world of each
/// that it names on by that session's say of the one text. Its packet comes last in the row's
/// outbox, and the peer opens it to that text, byte for byte, and has it in its history once,
/// whatever happens before the packet arrives for the first time, within the limits. Nobody has to
/// be trusted that it isn't forged. All other worlds stay, and so do all where a fan isn't Ok.
pub fn fans_reach_peers<K: Kem, D: Disk, W: Draws>(
    list: &FanOut,
    old: &Book<K>,
    new: &Book<K>,
    start: &D,
    now: &D,
    source: &W,
    left: &W,
)
    requires may { MayBookAct old.now (D.state start.now) }
    requires listed { AreListed old.now.rows list.now }
    ensures { (text : List ℕ) (result : Result Unit FanRefusal)
        → FansIn D.state W.at K.mechanism text list.now old.now new.now start.now now.now
        source.now left.now result
        → (worlds : NamedWorlds) → StandIn K.mechanism old.now.rows worlds
        → FansToPeers W.at K.mechanism text list.now old.now new.now source.now left.now worlds
        result }
{
    laws::<K>();
    acts_follow();
    said_is_opened();
    list.is_fair();
}
