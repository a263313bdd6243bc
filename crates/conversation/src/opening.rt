//! What was opened and said, whichever command did it, that nothing is premised of real packets in
//! a sync, and which answers there are. The functions have no code: a caller that needs a fact
//! calls one.

ghost use Rattle.std.specs.Prelude.{◌≡◌, ℕ, [], List, Some, slice_get};
ghost use Rattle.std.specs.List.{AllByRecursion};
ghost use Rattle.dr_base.specs.declared.position.Side.{Side};
ghost use Rattle.dr_base.specs.declared.position.Side.TheVariants.{First, Second};
ghost use Rattle.dr_model.specs.Machines.Worlds.{World};
ghost use Rattle.dr_model.specs.Theorems.LawfulWorlds.{IsLawfulWorld};
ghost use Rattle.endings.specs.declared.ending.Ending.TheVariants.{Done};
ghost use Rattle.kem_laws.specs.Mechanism.{IsLawfulMechanism, Mechanism};
ghost use Rattle.relay_wire.specs.Replies.{Replied};
ghost use Rattle.client.specs.Moments.{IsAmongKnown};
ghost use Rattle.client.specs.Syncing.InWorlds.{AreUnforged};
ghost use Rattle.session_commands.specs.Acting.{RunsAct};
ghost use Rattle.session_commands.specs.WholeRuns.{Command, asked_by};
ghost use Rattle.conversation.specs.Answered.{IsAcknowledged};
ghost use Rattle.conversation.specs.Fitting.{IsAnswerTo};
ghost use Rattle.conversation.specs.Joints.{IsConversation, Joint, known_in};
ghost use Rattle.conversation.specs.Opened.{HoldsOpened, HoldsSynced};
ghost use Rattle.conversation.specs.Replies.{BringsReal};

use crate::laws::join;
use dr_disk::Disk;
use dr_model::headline;
use dr_ports::Draws;
use session_commands::laws::runs_are_linked;

/// Let a side have opened a packet by a moment, by a `take` or by a sync, and its peer have
/// acknowledged the text with `said E.I`. From then on that text stands in the side's history once,
/// as it was said, in all that a crash may leave on the side's disk.
pub fn opened_is_kept<D: Disk, E: Disk, W: Draws>(first: &[D], second: &[E])
    ensures first { (k : Mechanism) → IsLawfulMechanism k → (w : World) (joints : ℕ → Joint)
        → IsLawfulWorld k w
        → IsConversation D.state E.state W.at first.now second.now k w joints
        → HoldsOpened D.state E.state W.at k First first.now second.now joints }
    ensures second { (k : Mechanism) → IsLawfulMechanism k → (w : World) (joints : ℕ → Joint)
        → IsLawfulWorld k w
        → IsConversation D.state E.state W.at first.now second.now k w joints
        → HoldsOpened E.state D.state W.at k Second second.now first.now joints }
{
    join::<D, E, W>(first, second);
    runs_are_linked::<D, W>(first);
    runs_are_linked::<E, W>(second);
    headline();
}

/// So it is of a sync: let a side's sync have printed the line `opened E.I`, and its peer have
/// acknowledged the text with `said E.I`. From then on that text stands in the side's history once,
/// as it was said, in all that a crash may leave on the side's disk.
pub fn synced_is_kept<D: Disk, E: Disk, W: Draws>(first: &[D], second: &[E])
    ensures first { (k : Mechanism) → IsLawfulMechanism k → (w : World) (joints : ℕ → Joint)
        → IsLawfulWorld k w
        → IsConversation D.state E.state W.at first.now second.now k w joints
        → HoldsSynced D.state E.state W.at k First first.now second.now joints }
    ensures second { (k : Mechanism) → IsLawfulMechanism k → (w : World) (joints : ℕ → Joint)
        → IsLawfulWorld k w
        → IsConversation D.state E.state W.at first.now second.now k w joints
        → HoldsSynced E.state D.state W.at k Second second.now first.now joints }
{
    join::<D, E, W>(first, second);
    runs_are_linked::<D, W>(first);
    runs_are_linked::<E, W>(second);
    headline();
}

/// A sync whose replies bring real packets alone meets its premise: each packet stood in an outbox
/// of either side, at a moment at which that was acknowledged or shown. Replies may be lost,
/// repeated and reordered, and those without a packet may say anything.
pub fn real_replies<D: Disk, E: Disk, W: Draws>(first: &[D], second: &[E])
    ensures first { (k : Mechanism) → IsLawfulMechanism k → (w : World) (joints : ℕ → Joint)
        → IsLawfulWorld k w
        → IsConversation D.state E.state W.at first.now second.now k w joints
        → (m : ℕ) (b : D) (v : World) → slice_get first.now m ≡ Some b
        → IsAmongKnown (known_in k First (joints m)) v
        → (replies : List Replied) → AllByRecursion (BringsReal k joints m) replies
        → AreUnforged k [] First v replies }
    ensures second { (k : Mechanism) → IsLawfulMechanism k → (w : World) (joints : ℕ → Joint)
        → IsLawfulWorld k w
        → IsConversation D.state E.state W.at first.now second.now k w joints
        → (m : ℕ) (b : E) (v : World) → slice_get second.now m ≡ Some b
        → IsAmongKnown (known_in k Second (joints m)) v
        → (replies : List Replied) → AllByRecursion (BringsReal k joints m) replies
        → AreUnforged k [] Second v replies }
{
    join::<D, E, W>(first, second);
    runs_are_linked::<D, W>(first);
    runs_are_linked::<E, W>(second);
    headline();
}

/// A command that was done has the answer that was asked for: `say` has `Said`, `take` has
/// `Opened`, and `done` and `sent` have just the items that left. None is a refusal.
pub fn answers_fit<D: Disk, W: Draws>()
    ensures { (k : Mechanism) (side : Side) (moments : List D) (joints : ℕ → Joint) (n : ℕ)
        (before after : D) (command : Command W) (lines : List ℕ)
        → RunsAct D.state k (asked_by W.at k command) before after Done lines
        → (acked : IsAcknowledged D.state W.at k side moments joints n command lines)
        → IsAnswerTo command acked.answer }
{}
