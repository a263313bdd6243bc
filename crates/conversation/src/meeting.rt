//! That a conversation is met: it begins, and goes on with whatever either program runs. The
//! functions have no code: a caller that needs a fact calls one.

ghost use Rattle.std.specs.Prelude.{⊤, ◌≡◌, ◌+◌, ◌++◌, ◌∷◌, ℕ, [], List, Some, length, slice_get};
ghost use Rattle.bodies.specs.declared.format.Format.{Format};
ghost use Rattle.boxes.specs.Posts.{Post};
ghost use Rattle.dr_base.specs.declared.key.Key32.{Key32};
ghost use Rattle.dr_base.specs.declared.position.Side.TheVariants.{First, Second};
ghost use Rattle.dr_model.specs.Machines.Worlds.{World};
ghost use Rattle.dr_model.specs.Theorems.LawfulWorlds.{IsLawfulWorld};
ghost use Rattle.kem_laws.specs.Mechanism.{IsLawfulMechanism, Mechanism};
ghost use Rattle.endings.specs.declared.ending.Ending.{Ending};
ghost use Rattle.endings.specs.declared.ending.Ending.TheVariants.{Done};
ghost use Rattle.client.specs.Beginning.{begin_of};
ghost use Rattle.client.specs.Moments.{IsAmongKnown, Known};
ghost use Rattle.session_commands.specs.Beginning.{Began};
ghost use Rattle.session_commands.specs.Acting.{RunsAct};
ghost use Rattle.session_commands.specs.WholeRuns.{Command, IsCutFrom, Ran, asked_by};
ghost use Rattle.conversation.specs.Answered.{IsAcknowledged};
ghost use Rattle.conversation.specs.HandedOut.{HandsOut, HasHandedOut};
ghost use Rattle.conversation.specs.Joints.{GoesOn, IsConversation, Joint, joint_of, known_in};
ghost use Rattle.conversation.specs.Talk.{HasWholeTalked, IsWholeTalk};

use client::laws::client_grounds;
use dr_disk::Disk;
use dr_model::headline;
use dr_ports::Draws;

/// A conversation begins where both sides have begun with one key, each in its format.
pub fn begins<D: Disk, E: Disk, W: Draws>()
    ensures { (k : Mechanism) → IsLawfulMechanism k → (key other : Key32) (one two : Format)
        (start now : D) (begins began : E) (shown lines : List ℕ)
        → other.bytes ≡ key.bytes
        → Began D.state k (begin_of First one key) start now Done shown
        → Began E.state k (begin_of Second two other) begins began Done lines
        → (w : World) × IsLawfulWorld k w
        × IsConversation D.state E.state W.at (now ∷ []) (began ∷ []) k w (λ n. joint_of w) }
{
    client_grounds();
}

/// And it goes on with each command, by the command's own clauses: where a packet that is taken is
/// forged in no world that the disk may stand for, what the command comes to is one run more, and
/// so is what a crash leaves that cuts it off anywhere.
pub fn goes_on<D: Disk, E: Disk, W: Draws>(first: &[D], second: &[E])
    ensures first { (k : Mechanism) → IsLawfulMechanism k → (w : World) (joints : ℕ → Joint)
        → IsLawfulWorld k w
        → IsConversation D.state E.state W.at first.now second.now k w joints
        → (n : ℕ) (before after : D) (other : E) (bytes : List ℕ) → length first.now ≡ n + 1
        → slice_get first.now n ≡ Some before → slice_get second.now n ≡ Some other
        → (D.state before).seen ≡ Some bytes
        → (command : Command W) (ending : Ending) (lines : List ℕ)
        → RunsAct D.state k (asked_by W.at k command) before after ending lines
        → ((v : World) → IsAmongKnown (known_in k First (joints n)) v
        → (asked_by W.at k command).fair v First)
        → GoesOn D.state E.state W.at first.now second.now k w joints n after other
        (λ now. ending ≡ Done → IsAcknowledged D.state W.at k First
        (first.now ++ after ∷ []) now n command lines)
        × ((crashed : D) → IsCutFrom (D.state before) (D.state after) (D.state crashed)
        → GoesOn D.state E.state W.at first.now second.now k w joints n crashed other
        (λ now. ⊤)) }
    ensures second { (k : Mechanism) → IsLawfulMechanism k → (w : World) (joints : ℕ → Joint)
        → IsLawfulWorld k w
        → IsConversation D.state E.state W.at first.now second.now k w joints
        → (n : ℕ) (before after : E) (other : D) (bytes : List ℕ) → length first.now ≡ n + 1
        → slice_get second.now n ≡ Some before → slice_get first.now n ≡ Some other
        → (E.state before).seen ≡ Some bytes
        → (command : Command W) (ending : Ending) (lines : List ℕ)
        → RunsAct E.state k (asked_by W.at k command) before after ending lines
        → ((v : World) → IsAmongKnown (known_in k Second (joints n)) v
        → (asked_by W.at k command).fair v Second)
        → GoesOn D.state E.state W.at first.now second.now k w joints n other after
        (λ now. ending ≡ Done → IsAcknowledged E.state W.at k Second
        (second.now ++ after ∷ []) now n command lines)
        × ((crashed : E) → IsCutFrom (E.state before) (E.state after) (E.state crashed)
        → GoesOn D.state E.state W.at first.now second.now k w joints n other crashed
        (λ now. ⊤)) }
{
    client_grounds();
}

/// And with whatever else either program runs, in one of the worlds that its disk may stand for: a
/// look at what is kept, a sync, or a crash in any of these or between two. Then just those worlds
/// are known that its own run says.
pub fn any_run_counts<D: Disk, E: Disk, W: Draws>(first: &[D], second: &[E])
    ensures first { (k : Mechanism) → IsLawfulMechanism k → (w : World) (joints : ℕ → Joint)
        → IsLawfulWorld k w
        → IsConversation D.state E.state W.at first.now second.now k w joints
        → (n : ℕ) (before after : D) (other : E) (later : Known) → length first.now ≡ n + 1
        → slice_get first.now n ≡ Some before → slice_get second.now n ≡ Some other
        → Ran D.state W.at k First before after (known_in k First (joints n)) later
        → GoesOn D.state E.state W.at first.now second.now k w joints n after other
        (λ now. known_in k First (now (n + 1)) ≡ later) }
    ensures second { (k : Mechanism) → IsLawfulMechanism k → (w : World) (joints : ℕ → Joint)
        → IsLawfulWorld k w
        → IsConversation D.state E.state W.at first.now second.now k w joints
        → (n : ℕ) (before after : E) (other : D) (later : Known) → length first.now ≡ n + 1
        → slice_get second.now n ≡ Some before → slice_get first.now n ≡ Some other
        → Ran E.state W.at k Second before after (known_in k Second (joints n)) later
        → GoesOn D.state E.state W.at first.now second.now k w joints n other after
        (λ now. known_in k Second (now (n + 1)) ≡ later) }
{
    client_grounds();
}

/// And what such a run hands out it has handed out then, so `handed_out` speaks of it: also where a
/// crash cut it off behind the moment at which its session stood open, as the run's own clause has
/// that (`ShowsBehind`, `SyncsBehind`).
pub fn any_run_hands_out<D: Disk, E: Disk, W: Draws>(first: &[D], second: &[E])
    ensures first { (k : Mechanism) → IsLawfulMechanism k → (w : World) (joints : ℕ → Joint)
        → IsLawfulWorld k w
        → IsConversation D.state E.state W.at first.now second.now k w joints
        → (n : ℕ) (before after : D) (other : E) (later : Known) → length first.now ≡ n + 1
        → slice_get first.now n ≡ Some before → slice_get second.now n ≡ Some other
        → (ran : Ran D.state W.at k First before after (known_in k First (joints n)) later)
        (packet : List ℕ) → HandsOut ran packet
        → GoesOn D.state E.state W.at first.now second.now k w joints n after other
        (λ now. HasHandedOut D.state W.at k First (first.now ++ after ∷ []) now n packet) }
    ensures second { (k : Mechanism) → IsLawfulMechanism k → (w : World) (joints : ℕ → Joint)
        → IsLawfulWorld k w
        → IsConversation D.state E.state W.at first.now second.now k w joints
        → (n : ℕ) (before after : E) (other : D) (later : Known) → length first.now ≡ n + 1
        → slice_get second.now n ≡ Some before → slice_get first.now n ≡ Some other
        → (ran : Ran E.state W.at k Second before after (known_in k Second (joints n)) later)
        (packet : List ℕ) → HandsOut ran packet
        → GoesOn D.state E.state W.at first.now second.now k w joints n other after
        (λ now. HasHandedOut E.state W.at k Second (second.now ++ after ∷ []) now n packet) }
{
    client_grounds();
}

/// The smallest conversation in which a text goes over, by what the commands' own clauses say:
/// nothing is premised of worlds, nor of what is forged.
pub fn whole_talk<D: Disk, E: Disk, W: Draws>()
    ensures { (k : Mechanism) → IsLawfulMechanism k → (a b : D) (c d e f : E) (text : List ℕ)
        (source left : W) (post : Post) (said taken : List ℕ)
        → IsWholeTalk D.state E.state W.at k a b c d e f text source left post said taken
        → HasWholeTalked D.state E.state W.at k a b c e f text source left post.packet said taken }
{
    client_grounds();
    headline();
}
