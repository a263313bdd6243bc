//! That a conversation goes on with the commands that don't just let a client act once: those that
//! show what is kept, a sync, a check, and a session that is begun once more. The functions have
//! no code: a caller that needs a fact calls one.

ghost use Rattle.std.specs.Prelude.{⊤, ◌≡◌, ◌+◌, ℕ, [], List, Some, length, slice_get};
ghost use Rattle.bodies.specs.declared.format.Format.{Format};
ghost use Rattle.dr_base.specs.declared.position.Side.{Side};
ghost use Rattle.dr_base.specs.declared.position.Side.TheVariants.{First, Second};
ghost use Rattle.dr_model.specs.Machines.Worlds.{World};
ghost use Rattle.dr_model.specs.Theorems.LawfulWorlds.{IsLawfulWorld};
ghost use Rattle.dr_ports.specs.States.{SourceState};
ghost use Rattle.kem_laws.specs.Mechanism.{IsLawfulMechanism, Mechanism};
ghost use Rattle.endings.specs.declared.ending.Ending.{Ending};
ghost use Rattle.endings.specs.declared.ending.Ending.TheVariants.{Done};
ghost use Rattle.session_model.specs.Clients.{Client};
ghost use Rattle.client.specs.Moments.{IsAmongKnown};
ghost use Rattle.client.specs.Syncing.InWorlds.{AreUnforged};
ghost use Rattle.session_commands.specs.Beginning.{RunsBegin};
ghost use Rattle.session_commands.specs.Checking.{RunsCheck};
ghost use Rattle.session_commands.specs.Showing.{RunsTell};
ghost use Rattle.session_commands.specs.Syncing.{RunsSync};
ghost use Rattle.session_commands.specs.WholeRuns.{IsCutFrom};
ghost use Rattle.conversation.specs.Joints.{GoesOn, IsConversation, Joint, known_in};
ghost use Rattle.conversation.specs.Replies.{replies_read};
ghost use Rattle.conversation.specs.Shown.{HasSynced, IsShown};

use client::laws::client_grounds;
use dr_disk::Disk;
use dr_ports::{Draws, Link};
use slot_store::readings;

/// The conversation goes on with each command that shows what its side keeps: the lists, the keys
/// of the boxes and a long text. Where one was done it has shown what the side keeps in the world
/// of both, and nothing that the side did is in doubt.
pub fn goes_on_showing<D: Disk, E: Disk, W: Draws>(first: &[D], second: &[E])
    ensures first { (k : Mechanism) → IsLawfulMechanism k → (w : World) (joints : ℕ → Joint)
        → IsLawfulWorld k w
        → IsConversation D.state E.state W.at first.now second.now k w joints
        → (n : ℕ) (before after : D) (other : E) (bytes : List ℕ) → length first.now ≡ n + 1
        → slice_get first.now n ≡ Some before → slice_get second.now n ≡ Some other
        → (D.state before).seen ≡ Some bytes
        → (ends : Client → Ending) (shows : Client → List ℕ) (ending : Ending) (lines : List ℕ)
        → RunsTell D.state k ends shows before after ending lines
        → GoesOn D.state E.state W.at first.now second.now k w joints n after other
        (λ now. ending ≡ Done → IsShown k First (now (n + 1)) shows lines)
        × ((crashed : D) → IsCutFrom (D.state before) (D.state after) (D.state crashed)
        → GoesOn D.state E.state W.at first.now second.now k w joints n crashed other
        (λ now. ⊤)) }
    ensures second { (k : Mechanism) → IsLawfulMechanism k → (w : World) (joints : ℕ → Joint)
        → IsLawfulWorld k w
        → IsConversation D.state E.state W.at first.now second.now k w joints
        → (n : ℕ) (before after : E) (other : D) (bytes : List ℕ) → length first.now ≡ n + 1
        → slice_get second.now n ≡ Some before → slice_get first.now n ≡ Some other
        → (E.state before).seen ≡ Some bytes
        → (ends : Client → Ending) (shows : Client → List ℕ) (ending : Ending) (lines : List ℕ)
        → RunsTell E.state k ends shows before after ending lines
        → GoesOn D.state E.state W.at first.now second.now k w joints n other after
        (λ now. ending ≡ Done → IsShown k Second (now (n + 1)) shows lines)
        × ((crashed : E) → IsCutFrom (E.state before) (E.state after) (E.state crashed)
        → GoesOn D.state E.state W.at first.now second.now k w joints n other crashed
        (λ now. ⊤)) }
{
    client_grounds();
}

/// And with a check, wherever a crash cuts it off: just the worlds are known that were.
pub fn goes_on_checking<D: Disk, E: Disk, W: Draws>(first: &[D], second: &[E])
    ensures first { (k : Mechanism) → IsLawfulMechanism k → (w : World) (joints : ℕ → Joint)
        → IsLawfulWorld k w
        → IsConversation D.state E.state W.at first.now second.now k w joints
        → (n : ℕ) (before after : D) (other : E) → length first.now ≡ n + 1
        → slice_get first.now n ≡ Some before → slice_get second.now n ≡ Some other
        → (ending : Ending) (lines : List ℕ) → RunsCheck D.state k before after ending lines
        → GoesOn D.state E.state W.at first.now second.now k w joints n after other
        (λ now. known_in k First (now (n + 1)) ≡ known_in k First (joints n))
        × ((crashed : D) → IsCutFrom (D.state before) (D.state after) (D.state crashed)
        → GoesOn D.state E.state W.at first.now second.now k w joints n crashed other
        (λ now. known_in k First (now (n + 1)) ≡ known_in k First (joints n))) }
    ensures second { (k : Mechanism) → IsLawfulMechanism k → (w : World) (joints : ℕ → Joint)
        → IsLawfulWorld k w
        → IsConversation D.state E.state W.at first.now second.now k w joints
        → (n : ℕ) (before after : E) (other : D) → length first.now ≡ n + 1
        → slice_get second.now n ≡ Some before → slice_get first.now n ≡ Some other
        → (ending : Ending) (lines : List ℕ) → RunsCheck E.state k before after ending lines
        → GoesOn D.state E.state W.at first.now second.now k w joints n other after
        (λ now. known_in k Second (now (n + 1)) ≡ known_in k Second (joints n))
        × ((crashed : E) → IsCutFrom (E.state before) (E.state after) (E.state crashed)
        → GoesOn D.state E.state W.at first.now second.now k w joints n other crashed
        (λ now. known_in k Second (now (n + 1)) ≡ known_in k Second (joints n))) }
{
    client_grounds();
}

/// And with a session that is begun once more on a side's disk: that isn't done, and just the
/// worlds are known that were.
pub fn goes_on_beginning<D: Disk, E: Disk, W: Draws>(first: &[D], second: &[E])
    ensures first { (k : Mechanism) → IsLawfulMechanism k → (w : World) (joints : ℕ → Joint)
        → IsLawfulWorld k w
        → IsConversation D.state E.state W.at first.now second.now k w joints
        → (n : ℕ) (before after : D) (other : E) (bytes : List ℕ) → length first.now ≡ n + 1
        → slice_get first.now n ≡ Some before → slice_get second.now n ≡ Some other
        → (D.state before).seen ≡ Some bytes
        → (whose : Side) (format : Format) (from to : SourceState) (ending : Ending)
        (lines : List ℕ) → RunsBegin D.state k whose format from to before after ending lines
        → (ending ≡ Done → ⊥)
        × GoesOn D.state E.state W.at first.now second.now k w joints n after other
        (λ now. known_in k First (now (n + 1)) ≡ known_in k First (joints n))
        × ((crashed : D) → IsCutFrom (D.state before) (D.state after) (D.state crashed)
        → GoesOn D.state E.state W.at first.now second.now k w joints n crashed other
        (λ now. known_in k First (now (n + 1)) ≡ known_in k First (joints n))) }
    ensures second { (k : Mechanism) → IsLawfulMechanism k → (w : World) (joints : ℕ → Joint)
        → IsLawfulWorld k w
        → IsConversation D.state E.state W.at first.now second.now k w joints
        → (n : ℕ) (before after : E) (other : D) (bytes : List ℕ) → length first.now ≡ n + 1
        → slice_get second.now n ≡ Some before → slice_get first.now n ≡ Some other
        → (E.state before).seen ≡ Some bytes
        → (whose : Side) (format : Format) (from to : SourceState) (ending : Ending)
        (lines : List ℕ) → RunsBegin E.state k whose format from to before after ending lines
        → (ending ≡ Done → ⊥)
        × GoesOn D.state E.state W.at first.now second.now k w joints n other after
        (λ now. known_in k Second (now (n + 1)) ≡ known_in k Second (joints n))
        × ((crashed : E) → IsCutFrom (E.state before) (E.state after) (E.state crashed)
        → GoesOn D.state E.state W.at first.now second.now k w joints n other crashed
        (λ now. known_in k Second (now (n + 1)) ≡ known_in k Second (joints n))) }
{
    client_grounds();
    readings();
}

/// And with a sync, where no packet that its replies bring is forged in a world that the disk may
/// stand for. However it ended, what its lines say was opened is just what the side opened from the
/// world that it read to the one of both.
pub fn goes_on_syncing<D: Disk, E: Disk, W: Draws, L: Link>(first: &[D], second: &[E])
    ensures first { (k : Mechanism) → IsLawfulMechanism k → (w : World) (joints : ℕ → Joint)
        → IsLawfulWorld k w
        → IsConversation D.state E.state W.at first.now second.now k w joints
        → (n : ℕ) (before after : D) (other : E) (bytes : List ℕ) → length first.now ≡ n + 1
        → slice_get first.now n ≡ Some before → slice_get second.now n ≡ Some other
        → (D.state before).seen ≡ Some bytes
        → (address : List ℕ) (link left : L) (missed lost : ℕ) (ending : Ending)
        (lines : List ℕ)
        → (runs : RunsSync D.state L.port k address before after link left missed lost ending lines)
        → ((v : World) → IsAmongKnown (known_in k First (joints n)) v
        → AreUnforged k [] First v (replies_read runs))
        → GoesOn D.state E.state W.at first.now second.now k w joints n after other
        (λ now. HasSynced First (known_in k First (joints n)) (now (n + 1)) ending lines)
        × ((crashed : D) → IsCutFrom (D.state before) (D.state after) (D.state crashed)
        → GoesOn D.state E.state W.at first.now second.now k w joints n crashed other
        (λ now. ⊤)) }
    ensures second { (k : Mechanism) → IsLawfulMechanism k → (w : World) (joints : ℕ → Joint)
        → IsLawfulWorld k w
        → IsConversation D.state E.state W.at first.now second.now k w joints
        → (n : ℕ) (before after : E) (other : D) (bytes : List ℕ) → length first.now ≡ n + 1
        → slice_get second.now n ≡ Some before → slice_get first.now n ≡ Some other
        → (E.state before).seen ≡ Some bytes
        → (address : List ℕ) (link left : L) (missed lost : ℕ) (ending : Ending)
        (lines : List ℕ)
        → (runs : RunsSync E.state L.port k address before after link left missed lost ending lines)
        → ((v : World) → IsAmongKnown (known_in k Second (joints n)) v
        → AreUnforged k [] Second v (replies_read runs))
        → GoesOn D.state E.state W.at first.now second.now k w joints n other after
        (λ now. HasSynced Second (known_in k Second (joints n)) (now (n + 1)) ending lines)
        × ((crashed : E) → IsCutFrom (E.state before) (E.state after) (E.state crashed)
        → GoesOn D.state E.state W.at first.now second.now k w joints n other crashed
        (λ now. ⊤)) }
{
    client_grounds();
}
