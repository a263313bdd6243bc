//! The laws of a conversation. The functions have no code: a caller that needs a fact calls one.
//!
//! In each, `w` is a lawful world, and both disks stand for it at the first moment. Then either
//! side runs commands on its disk, any of them in any order, and either disk may crash inside a run
//! or between two. What a take or a sync reads is any bytes, with the premise of
//! `session_commands`: no made-up packet carries a right tag. `joints` says how far both have come
//! at each moment.

ghost use Rattle.std.specs.Prelude.{◌≡◌, ◌<◌, ◌≤◌, ◌+◌, ℕ, Contains, List, Some, slice_get};
ghost use Rattle.boxes.specs.Posts.{Post};
ghost use Rattle.dr_base.specs.declared.position.Side.{Side};
ghost use Rattle.dr_base.specs.declared.position.Side.TheVariants.{First, Second};
ghost use Rattle.dr_model.specs.Machines.WorldSides.{kept_in};
ghost use Rattle.dr_model.specs.Machines.Worlds.{World};
ghost use Rattle.dr_model.specs.Theorems.Fairness.{IsUnforged};
ghost use Rattle.dr_model.specs.Theorems.LawfulWorlds.{IsLawfulWorld};
ghost use Rattle.kem_laws.specs.Mechanism.{IsLawfulMechanism, Mechanism};
ghost use Rattle.client.specs.Moments.{IsAmongKnown};
ghost use Rattle.session_commands.specs.WholeRuns.{AreRun};
ghost use Rattle.conversation.specs.HandedOut.{IsPacketOf, WasHandedOut};
ghost use Rattle.conversation.specs.Joints.{IsConversation, Joint, known_in};
ghost use Rattle.conversation.specs.Kept.{HoldsTexts, StandsLater};

pub use crate::going_on::{goes_on_beginning, goes_on_checking, goes_on_showing, goes_on_syncing};
pub use crate::meeting::{any_run_counts, any_run_hands_out, begins, goes_on, whole_talk};
pub use crate::opening::{answers_fit, opened_is_kept, real_replies, synced_is_kept};
use client::laws::client_grounds;
use dr_disk::Disk;
use dr_model::headline;
use dr_ports::Draws;
use session_commands::laws::runs_are_linked;

/// Runs of both sides' programs are a run of each, in which what the other side does is what it did:
/// the peer's moves need no premise of their own.
pub fn join<D: Disk, E: Disk, W: Draws>(first: &[D], second: &[E])
    ensures first { (k : Mechanism) → IsLawfulMechanism k → (w : World) (joints : ℕ → Joint)
        → IsLawfulWorld k w
        → IsConversation D.state E.state W.at first.now second.now k w joints
        → AreRun D.state W.at first.now k First w (λ n. known_in k First (joints n)) }
    ensures second { (k : Mechanism) → IsLawfulMechanism k → (w : World) (joints : ℕ → Joint)
        → IsLawfulWorld k w
        → IsConversation D.state E.state W.at first.now second.now k w joints
        → AreRun E.state W.at second.now k Second w (λ n. known_in k Second (joints n)) }
{
    client_grounds();
}

/// Whatever either program did, and wherever a crash cut it off: all that a crash may leave on a
/// side's disk now stands for a world in which all stands that stood at any moment before, on either
/// side. It is lawful, and events of the machine lead to it; what the side had opened stands in its
/// history once; what either side had said stands as it was said, and each packet is the same.
pub fn stands<D: Disk, E: Disk, W: Draws>(first: &[D], second: &[E])
    ensures first { (k : Mechanism) → IsLawfulMechanism k → (w : World) (joints : ℕ → Joint)
        → IsLawfulWorld k w
        → IsConversation D.state E.state W.at first.now second.now k w joints
        → (n m : ℕ) (b : D) → n ≤ m → slice_get first.now m ≡ Some b
        → (bytes : List ℕ) → (D.state b).image bytes
        → StandsLater k First (joints n) (joints m) bytes }
    ensures second { (k : Mechanism) → IsLawfulMechanism k → (w : World) (joints : ℕ → Joint)
        → IsLawfulWorld k w
        → IsConversation D.state E.state W.at first.now second.now k w joints
        → (n m : ℕ) (b : E) → n ≤ m → slice_get second.now m ≡ Some b
        → (bytes : List ℕ) → (E.state b).image bytes
        → StandsLater k Second (joints n) (joints m) bytes }
{
    join::<D, E, W>(first, second);
    runs_are_linked::<D, W>(first);
    runs_are_linked::<E, W>(second);
    headline();
}

/// Once a side's program has acknowledged a take with `opened E.I`, and its peer's the text with
/// `said E.I`, that text stands in the side's history once, as it was said, in all that a crash may
/// leave on the side's disk from then on.
pub fn talk_is_kept<D: Disk, E: Disk, W: Draws>(first: &[D], second: &[E])
    ensures first { (k : Mechanism) → IsLawfulMechanism k → (w : World) (joints : ℕ → Joint)
        → IsLawfulWorld k w
        → IsConversation D.state E.state W.at first.now second.now k w joints
        → HoldsTexts D.state E.state W.at k First first.now second.now joints }
    ensures second { (k : Mechanism) → IsLawfulMechanism k → (w : World) (joints : ℕ → Joint)
        → IsLawfulWorld k w
        → IsConversation D.state E.state W.at first.now second.now k w joints
        → HoldsTexts E.state D.state W.at k Second second.now first.now joints }
{
    join::<D, E, W>(first, second);
    runs_are_linked::<D, W>(first);
    runs_are_linked::<E, W>(second);
    headline();
}

/// The premise on packets costs nothing where the packets are real: whatever stood in the outbox of
/// either side, at any moment at which that was acknowledged or shown, is forged in no world that a
/// disk may stand for then or later. It may be lost, repeated, reordered and carried by anyone.
pub fn real_packets<D: Disk, E: Disk, W: Draws>(first: &[D], second: &[E])
    ensures first { (k : Mechanism) → IsLawfulMechanism k → (w : World) (joints : ℕ → Joint)
        → IsLawfulWorld k w
        → IsConversation D.state E.state W.at first.now second.now k w joints
        → (n m : ℕ) (b : D) (side : Side) (post : Post) (v : World) → n ≤ m
        → slice_get first.now m ≡ Some b
        → Contains (kept_in k (joints n).world side).outbox post
        → IsAmongKnown (known_in k First (joints m)) v → IsUnforged k v First post.packet }
    ensures second { (k : Mechanism) → IsLawfulMechanism k → (w : World) (joints : ℕ → Joint)
        → IsLawfulWorld k w
        → IsConversation D.state E.state W.at first.now second.now k w joints
        → (n m : ℕ) (b : E) (side : Side) (post : Post) (v : World) → n ≤ m
        → slice_get second.now m ≡ Some b
        → Contains (kept_in k (joints n).world side).outbox post
        → IsAmongKnown (known_in k Second (joints m)) v → IsUnforged k v Second post.packet }
{
    join::<D, E, W>(first, second);
    runs_are_linked::<D, W>(first);
    runs_are_linked::<E, W>(second);
    headline();
}

/// So are the packets that either side's run handed out: what it showed of an outbox, or posted to
/// a relay, to its end or up to the crash that cut it off, also where the text was in doubt until
/// the run opened its session. From then on each is the packet of the text at its position, so no
/// other text gets that, and it is forged in no world that a disk may stand for later.
pub fn handed_out<D: Disk, E: Disk, W: Draws>(first: &[D], second: &[E])
    ensures said { (k : Mechanism) → IsLawfulMechanism k → (w : World) (joints : ℕ → Joint)
        → IsLawfulWorld k w
        → IsConversation D.state E.state W.at first.now second.now k w joints
        → (n : ℕ) (packet : List ℕ)
        → WasHandedOut D.state E.state W.at k first.now second.now joints n packet
        → IsPacketOf k (joints (n + 1)).world packet }
    ensures first { (k : Mechanism) → IsLawfulMechanism k → (w : World) (joints : ℕ → Joint)
        → IsLawfulWorld k w
        → IsConversation D.state E.state W.at first.now second.now k w joints
        → (n m : ℕ) (b : D) (packet : List ℕ) (v : World) → n < m
        → slice_get first.now m ≡ Some b
        → WasHandedOut D.state E.state W.at k first.now second.now joints n packet
        → IsAmongKnown (known_in k First (joints m)) v → IsUnforged k v First packet }
    ensures second { (k : Mechanism) → IsLawfulMechanism k → (w : World) (joints : ℕ → Joint)
        → IsLawfulWorld k w
        → IsConversation D.state E.state W.at first.now second.now k w joints
        → (n m : ℕ) (b : E) (packet : List ℕ) (v : World) → n < m
        → slice_get second.now m ≡ Some b
        → WasHandedOut D.state E.state W.at k first.now second.now joints n packet
        → IsAmongKnown (known_in k Second (joints m)) v → IsUnforged k v Second packet }
{
    join::<D, E, W>(first, second);
    runs_are_linked::<D, W>(first);
    runs_are_linked::<E, W>(second);
    headline();
    client_grounds();
}
