//! The laws of long texts in worlds. The functions have no code: a caller that needs a fact calls
//! them.

ghost use Rattle.std.specs.Prelude.{◌≡◌, ℕ, List, Ok};
ghost use Rattle.dr_base.specs.declared.position.Side.{Side};
ghost use Rattle.dr_disk.specs.Spans.{Span};
ghost use Rattle.dr_disk.specs.State.{Always};
ghost use Rattle.dr_model.specs.Machines.Acts.{dropping};
ghost use Rattle.dr_model.specs.Machines.WorldActs.{act_in};
ghost use Rattle.dr_model.specs.Machines.Worlds.{World};
ghost use Rattle.kem_laws.specs.Mechanism.{IsLawfulMechanism, Mechanism};
ghost use Rattle.long_text.specs.Longs.{long_of};
ghost use Rattle.session_model.specs.declared.answer.Answer.TheVariants.{Dropped};
ghost use Rattle.session_model.specs.declared.answer.Which.TheVariants.{OfId};
ghost use Rattle.client.specs.Clients.{ClientNow};
ghost use Rattle.client.specs.InWorlds.{ActsIn, IsBetween, IsIn};
ghost use Rattle.client.specs.LongTexts.{HasAllOrNone, HasAllParts, HasInInbox, without_long};
ghost use Rattle.client.specs.Outcomes.{acknowledged};

use dr_disk::Disk;

/// Whatever the order in which the parts of a text came, and however often: where each of them
/// stands in the inbox, and the other side used their id for that text alone, the long text of the
/// id is that text. So `Client::long` gives it.
pub fn long_in_worlds()
    ensures { (k : Mechanism) (w : World) (side : Side) (client : ClientNow) (id : ℕ)
        (text : List ℕ) → IsIn k w side client → HasAllParts w side id text
        → long_of id client.kept.inbox ≡ Ok text }
{}

/// A long text leaves as a whole. While `Client::done_long` drops it, each image of the disk has in
/// its inbox all entries that stood at the call, or all but the parts of the id, of which it has
/// none; and once that is acknowledged, each image has none of them.
pub fn long_leaves_whole<D: Disk>(before: &D, after: &D)
    ensures meanwhile { (k : Mechanism) → IsLawfulMechanism k → (w : World) (side : Side) (id : ℕ)
        (old : ClientNow) → IsIn k w side old
        → IsBetween k side w (act_in k w side (dropping (OfId id))).next
        (D.state before.now) (D.state after.now)
        → Span (D.state before.now) (D.state after.now) (HasAllOrNone k id old.kept.inbox) }
    ensures left { (k : Mechanism) → IsLawfulMechanism k → (w : World) (side : Side) (id : ℕ)
        (old new : ClientNow) → IsIn k w side old
        → ActsIn k w side (dropping (OfId id)) old new (D.state before.now) (D.state after.now)
        (acknowledged (Dropped (OfId id)))
        → Always (HasInInbox k (without_long id old.kept.inbox)) (D.state after.now) }
{}
