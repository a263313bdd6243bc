//! The laws of a client: of its limits, over whole runs and of syncs. The functions have no code: a
//! caller that needs a fact calls them.

ghost use Rattle.std.specs.Prelude.{◌≡◌, ◌≤◌, ◌+◌, ℕ, List, Some, slice_get};
ghost use Rattle.boxes.specs.Posts.{Post};
ghost use Rattle.dr_base.specs.declared.position.Position.{Position};
ghost use Rattle.dr_base.specs.declared.position.Side.{Side};
ghost use Rattle.dr_disk.specs.State.{Always};
ghost use Rattle.dr_model.specs.Machines.WorldSides.{kept_in};
ghost use Rattle.dr_model.specs.Machines.Worlds.{World};
ghost use Rattle.dr_model.specs.Theorems.LawfulWorlds.{IsLawfulWorld};
ghost use Rattle.kem_laws.specs.Mechanism.{IsLawfulMechanism, Mechanism};
ghost use Rattle.session_model.specs.Clients.{Client};
ghost use Rattle.session_record.specs.Record.{record_text};
ghost use Rattle.slot_store.specs.Laws.{SameWithin};
ghost use Rattle.slot_store.specs.Reading.{IsUndamaged};
ghost use Rattle.slot_store.specs.Store.{SlotStore, mark};
ghost use Rattle.client.specs.Beginning.{HoldsRecord};
ghost use Rattle.client.specs.Clients.{IsReady, client_area};
ghost use Rattle.client.specs.Grounds.{Grounds};
ghost use Rattle.client.specs.Moments.{AreLinked, Known, LeavesWhole, StandsStill};
ghost use Rattle.client.specs.Opening.{IsUnopened, ReadsClient, SaysNothing};
ghost use Rattle.client.specs.Spent.{IsErasedOn, IsUsed};

pub use crate::client::limits_in_numbers;
pub use crate::histories::{exchange, meanwhile, syncs_are_links};
pub use crate::long_laws::{long_in_worlds, long_leaves_whole};
use crate::refusals::OpenRefusal;
pub use crate::syncing::{goes_over, sent_behind_the_disk};
use dr_disk::Disk;
use dr_model::{acts_follow, erasure};
use kem_laws::{Kem, laws};
use session_record::record_law;
use slot_store::resting;

/// Over acts, failing calls, crashes and openings in any order: at each moment every image of the
/// disk stands for the world that was acknowledged or opened last, or for the one that the act in
/// doubt would have led to.
pub fn crash_safety<D: Disk>(moments: &[D])
    ensures { (k : Mechanism) (side : Side) (first : World) (known : ℕ → Known)
        → AreLinked D.state moments.now k side first known
        → (n : ℕ) (a : D) → slice_get moments.now n ≡ Some a
        → StandsStill k side first (known n) (D.state a) }
{}

/// Whatever failed, crashed and was opened again between: two packets of one position that stand in
/// the outbox of the world that was acknowledged or opened last are the same.
pub fn single_use<D: Disk>(moments: &[D])
    ensures { (k : Mechanism) (side : Side) (first : World) (known : ℕ → Known)
        → IsLawfulWorld k first → AreLinked D.state moments.now k side first known
        → (n m : ℕ) (b : D) → n ≤ m → slice_get moments.now m ≡ Some b
        → (at again : ℕ) (post later : Post)
        → slice_get (kept_in k (known n).last side).outbox at ≡ Some post
        → slice_get (kept_in k (known m).last side).outbox again ≡ Some later
        → post.position ≡ later.position → later ≡ post }
{}

/// Whatever failed, crashed and was opened again since: no image of the disk is read as a state
/// that gives the message key of a position that was used in the world that was acknowledged or
/// opened last.
pub fn used_keys_stay_erased<D: Disk>(moments: &[D])
    ensures { (k : Mechanism) (side : Side) (first : World) (known : ℕ → Known)
        → IsLawfulWorld k first → AreLinked D.state moments.now k side first known
        → (n m : ℕ) (b : D) → n ≤ m → slice_get moments.now m ≡ Some b
        → (p : Position) → IsUsed (known n).last side p → IsErasedOn k p (D.state b) }
{
    erasure();
}

/// Between calls a client's whole area is a function of its record, and of the table, the turn and
/// the page numbers of its store: on two disks of one size, where these are the same, all that a
/// crash leaves is the same within the area.
pub fn areas_are_their_records<D: Disk>(first: &D, second: &D)
    ensures { (kept other : Client) (store again : SlotStore)
        → IsReady kept store (D.state first.now)
        → IsReady other again (D.state second.now)
        → (D.state second.now).size ≡ (D.state first.now).size
        → record_text other ≡ record_text kept → mark again ≡ mark store
        → (c d : List ℕ) → (D.state first.now).image c → (D.state second.now).image d
        → SameWithin client_area c d }
{
    resting();
}

/// Over acts, failing calls, crashes and openings in any order: where each image of the disk is
/// read without damage at the first moment, each is so at every moment. What lies between two
/// moments is what each call's clauses say of crashes.
pub fn stays_undamaged<D: Disk>(moments: &[D])
    ensures { ((a : D) → slice_get moments.now 0 ≡ Some a
        → Always (IsUndamaged client_area) (D.state a))
        → ((n : ℕ) (a b : D) → slice_get moments.now n ≡ Some a
        → slice_get moments.now (n + 1) ≡ Some b
        → LeavesWhole (D.state a) (D.state b))
        → (n : ℕ) (a : D) → slice_get moments.now n ≡ Some a
        → Always (IsUndamaged client_area) (D.state a) }
{}

/// A disk that is read without damage is opened: where a read gives a client's record so, in
/// whatever version, it holds that record, and an opening is refused only for want of memory, or
/// where a call on the disk failed.
pub fn opens_again<D: Disk>(before: &D, after: &D)
    ensures holds { (k : Mechanism) → ReadsClient k (D.state before.now)
        → HoldsRecord k (D.state before.now) }
    ensures refused { (k : Mechanism) (refusal : OpenRefusal) → ReadsClient k (D.state before.now)
        → IsUnopened D.state k before.now after.now refusal → SaysNothing refusal }
{}

/// The laws on which a client's claims rest, over any mechanism that keeps its law.
pub fn client_grounds()
    ensures { (k : Mechanism) → IsLawfulMechanism k → Grounds k }
{
    acts_follow();
    erasure();
    record_law();
    resting();
}

/// The same over the mechanism of a client.
pub(crate) fn grounds<K: Kem>()
    ensures { Grounds K.mechanism }
{
    laws::<K>();
    client_grounds();
}
