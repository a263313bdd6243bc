//! Whole runs in which both sides talk. The functions have no code: a caller that needs a fact
//! calls them.

ghost use Rattle.std.specs.Prelude.{◌≡◌, ◌++◌, ◌⊎◌, ℕ, All, List, Result};
ghost use Rattle.boxes.specs.Posts.{Post};
ghost use Rattle.dr_base.specs.Position.{peer_of};
ghost use Rattle.dr_base.specs.declared.position.Side.{Side};
ghost use Rattle.dr_base.specs.declared.position.Side.TheVariants.{First, Second};
ghost use Rattle.dr_disk.specs.State.{Always};
ghost use Rattle.dr_model.specs.Machines.Acts.{Act};
ghost use Rattle.dr_model.specs.Machines.WorldActs.{act_in};
ghost use Rattle.dr_model.specs.Machines.Worlds.{World};
ghost use Rattle.dr_model.specs.Theorems.Acting.{IsFairAct};
ghost use Rattle.dr_model.specs.Theorems.LawfulWorlds.{IsLawfulWorld};
ghost use Rattle.dr_ports.specs.States.{SinkState};
ghost use Rattle.kem_laws.specs.Mechanism.{IsLawfulMechanism, Mechanism};
ghost use Rattle.relay_wire.specs.Replies.{Replied};
ghost use Rattle.sync_model.specs.Courses.{begun};
ghost use Rattle.sync_model.specs.declared.more.More.{More};
ghost use Rattle.client.specs.Clients.{ClientNow};
ghost use Rattle.client.specs.declared.syncing.faults.SyncFault.{SyncFault};
ghost use Rattle.client.specs.Exchanges.{Call, IsExchange, IsHistory};
ghost use Rattle.client.specs.InWorlds.{IsIn, StandsFor};
ghost use Rattle.client.specs.Moments.{HaveMoved, IsActed, IsAmongKnown, Known, Link, reached_by, known_after_sync, with_doubts};
ghost use Rattle.client.specs.Syncing.InWorlds.{AreLeft, AreUnforged, IsReachedIn, SyncsIn, course_in};
ghost use Rattle.client.specs.Syncing.Moments.{moment};
ghost use Rattle.client.specs.Syncing.Parties.{world_party};

use dr_disk::Disk;
use dr_model::acts_follow;
use dr_ports::Draws;

/// What the other side does meanwhile is a link, whatever is in doubt: it leads the world that was
/// acknowledged or opened last to a later one, from which the acts in doubt are as fair as before,
/// and lead to what stands for the same.
pub fn meanwhile()
    ensures { (k : Mechanism) → IsLawfulMechanism k → (side : Side) (known : Known) (theirs : Act)
        → IsLawfulWorld k known.last
        → IsFairAct k known.last (peer_of side) theirs
        → All (IsActed k side known.last) known.doubtful
        → (worlds : List World) × HaveMoved k side known
        (record { last = (act_in k known.last (peer_of side) theirs).next; doubtful = worlds }) }
{
    acts_follow();
}

/// A sync is a link. Once it has ended, the client is in the world that its steps led to, and the
/// last step is in doubt where a call on the disk failed in it. What a crash leaves while it goes
/// on stands for the world before it, or for one that it reaches.
pub fn syncs_are_links<D: Disk>(before: &D, after: &D)
    ensures ended { (k : Mechanism) (prefix : List ℕ) (side : Side) (w : World)
        (replies : List Replied) (old new : ClientNow)
        (sink wrote : SinkState) (result : Result More SyncFault)
        → AreUnforged k prefix side w replies
        → SyncsIn k prefix side w replies (moment old (D.state before.now) sink)
        (moment new (D.state after.now) wrote) result
        → (known : Known) → IsAmongKnown known w
        → (front back : List Replied) × (replies ≡ front ++ back) × AreLeft result back
        × IsIn k (course_in k prefix side w front).state side new
        × Link k side (D.state before.now) (D.state after.now) known
        (known_after_sync k prefix side w front back) }
    ensures cut { (k : Mechanism) (prefix : List ℕ) (side : Side) (w : World)
        (replies : List Replied)
        → AreUnforged k prefix side w replies
        → ((c : List ℕ) → (D.state after.now).image c
        → (D.state before.now).image c ⊎ IsReachedIn k prefix side w replies (D.state before.now) c)
        → (known : Known) → IsAmongKnown known w
        → Link k side (D.state before.now) (D.state after.now) known
        (with_doubts known (reached_by (world_party k prefix side w)
        (begun (world_party k prefix side w) w) replies)) }
{}

/// The smallest exchange between both sides is a run of linked moments: First says a text, Second
/// takes it and says one, First's disk crashes and is opened again, and First takes what Second
/// said. It takes a packet there that nobody forged, since Second made it.
pub fn exchange<D: Disk, E: Disk, W: Draws>()
    ensures { (k : Mechanism) → IsLawfulMechanism k
        → (w : World) (asks : Call D) (hears answers : Call E) (crashed : D) (reads : Call D)
        (question answer : Post)
        → IsExchange D.state E.state W.at k asks hears answers crashed reads question answer
        → IsIn k w First asks.old → IsIn k w Second hears.old
        → Always (StandsFor k w First) (D.state asks.start)
        → IsHistory D.state k w asks crashed reads answer }
{
    acts_follow();
}
