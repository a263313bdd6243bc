//! What holds over whole runs of a book. The functions have no code: a caller that needs a fact
//! calls them.

ghost use Rattle.std.specs.Prelude.{◌≡◌, ◌≤◌, ◌+◌, ℕ, List, None, Result, Some, slice_get};
ghost use Rattle.boxes.specs.Posts.{Post};
ghost use Rattle.book_model.specs.Independence.{AreAlikeFor, asked_of, replies_of};
ghost use Rattle.book_model.specs.Rows.{under};
ghost use Rattle.book_model.specs.Runs.{Happened, run};
ghost use Rattle.book_model.specs.Steps.{alone_replies};
ghost use Rattle.book_model.specs.Independence.{AllWentWell};
ghost use Rattle.dr_base.specs.declared.position.Position.{Position};
ghost use Rattle.dr_base.specs.declared.position.Side.{Side};
ghost use Rattle.dr_disk.specs.State.{Always};
ghost use Rattle.dr_model.specs.Machines.WorldSides.{kept_in};
ghost use Rattle.dr_model.specs.Machines.Worlds.{World};
ghost use Rattle.dr_model.specs.Theorems.LawfulWorlds.{IsLawfulWorld};
ghost use Rattle.kem_laws.specs.Mechanism.{Mechanism};
ghost use Rattle.book_store.specs.Reading.{IsUndamagedBook};
ghost use Rattle.session_model.specs.Clients.{Client};
ghost use Rattle.session_model.specs.declared.answer.Refusal.{Refusal};
ghost use Rattle.client.specs.Moments.{AreLinkedInCell, CellStandsStill, Known, LeavesCellWhole};
ghost use Rattle.client.specs.Spent.{IsErasedInCell, IsUsed};
ghost use Rattle.client.specs.declared.begin.Begin.{Begin};
ghost use Rattle.book.specs.Books.{MayBookAct};
ghost use Rattle.book.specs.FanStepping.{FansAsStep};
ghost use Rattle.book.specs.Fanning.{FansIn};
ghost use Rattle.book.specs.Fans.{AreListed};
ghost use Rattle.book.specs.declared.refusals.FanRefusal.{FanRefusal};
ghost use Rattle.book.specs.Machines.{AreSteps, HaveInCommon, RowAnswer, RowCall, sessions_of};
ghost use Rattle.book.specs.RowCells.{row_cell};
ghost use Rattle.book.specs.Witness.{anna, bobs_book, bobs_events, carls_book, carls_events, said_to_anna};

use crate::book::Book;
use crate::fans::FanOut;
pub use crate::peers::{fans_reach_peers, sessions_have_worlds};
use dr_disk::Disk;
use dr_model::erasure;
use dr_ports::Draws;
use kem_laws::Kem;

/// A book that isn't closed, and meets no fault of its store, no want of memory and no full book,
/// answers the calls for a name as a session by itself, which begins with what is kept under the
/// name, or with nothing.
pub fn answered_alone<K: Kem>(first: &Book<K>, rest: &[Book<K>])
    ensures { (name : List ℕ) (events : List (Happened RowCall Begin RowAnswer Refusal))
        → AreSteps K.mechanism first.now rest.now events
        → first.now.closed ≡ None → AllWentWell events
        → replies_of name events ≡ alone_replies (sessions_of K.mechanism) name
        (under name first.now.rows) (asked_of name events) }
{}

/// Take any two lists of calls on two books, with the same calls for a name, where both keep the
/// same under it or nothing. Where neither book is closed, and neither meets a fault of its store,
/// a want of memory or a full book, the answers for that name are equal.
pub fn independence<K: Kem>(first: &Book<K>, rest: &[Book<K>], second: &Book<K>, others: &[Book<K>])
    ensures { (name : List ℕ) (here there : List (Happened RowCall Begin RowAnswer Refusal))
        → AreSteps K.mechanism first.now rest.now here
        → AreSteps K.mechanism second.now others.now there
        → HaveInCommon name first.now second.now here there
        → replies_of name here ≡ replies_of name there }
{}

/// What `Book::fan` does is an event of the machine of named rows: an Ok fan is a say for each of
/// its names, with what was drawn for it, and a refused one is no call.
pub fn fans_are_steps<K: Kem, D: Disk, W: Draws>(
    list: &FanOut,
    old: &Book<K>,
    new: &Book<K>,
    start: &D,
    now: &D,
    source: &W,
    left: &W,
)
    requires may { MayBookAct old.now (D.state start.now) }
    requires listed { AreListed old.now.rows list.now }
    ensures { (text : List ℕ) (result : Result Unit FanRefusal)
        → FansIn D.state W.at K.mechanism text list.now old.now new.now start.now now.now
        source.now left.now result
        → FansAsStep W.at K.mechanism text list.now old.now new.now source.now left.now result }
{
    list.is_fair();
}

/// There are two such lists, which differ in all that is asked under other names, and the name is
/// answered to.
pub fn premises_are_met<K: Kem>()
    ensures alike { (annas bobs : Client) → AreAlikeFor (sessions_of K.mechanism) anna
        (bobs_book annas bobs) (carls_book annas) bobs_events carls_events }
    ensures replies { (annas bobs : Client)
        → replies_of anna (run (sessions_of K.mechanism) (bobs_book annas bobs) bobs_events)
        ≡ said_to_anna annas }
{}

/// Each row by itself: from moment to moment, each image stands for the world that was acknowledged
/// or opened last under the name, or for one in doubt since.
pub fn crash_safety<D: Disk>(moments: &[D])
    ensures { (rows : ℕ) (name : List ℕ) (k : Mechanism) (side : Side) (first : World)
        (known : ℕ → Known)
        → AreLinkedInCell (row_cell rows name) D.state moments.now k side first known
        → (n : ℕ) (a : D) → slice_get moments.now n ≡ Some a
        → CellStandsStill (row_cell rows name) k side first (known n) (D.state a) }
{}

/// Each row by itself: a position has one packet in all that its outbox ever shows.
pub fn single_use<D: Disk>(moments: &[D])
    ensures { (rows : ℕ) (name : List ℕ) (k : Mechanism) (side : Side) (first : World)
        (known : ℕ → Known) → IsLawfulWorld k first
        → AreLinkedInCell (row_cell rows name) D.state moments.now k side first known
        → (n m : ℕ) (b : D) → n ≤ m → slice_get moments.now m ≡ Some b
        → (at again : ℕ) (post later : Post)
        → slice_get (kept_in k (known n).last side).outbox at ≡ Some post
        → slice_get (kept_in k (known m).last side).outbox again ≡ Some later
        → post.position ≡ later.position → later ≡ post }
{}

/// Each row by itself: no image gives a key that was used up before.
pub fn used_keys_stay_erased<D: Disk>(moments: &[D])
    ensures { (rows : ℕ) (name : List ℕ) (k : Mechanism) (side : Side) (first : World)
        (known : ℕ → Known) → IsLawfulWorld k first
        → AreLinkedInCell (row_cell rows name) D.state moments.now k side first known
        → (n m : ℕ) (b : D) → n ≤ m → slice_get moments.now m ≡ Some b
        → (p : Position) → IsUsed (known n).last side p
        → IsErasedInCell (row_cell rows name) k p (D.state b) }
{
    erasure();
}

/// A book that is read without damage at first is at each later moment.
pub fn stays_undamaged<D: Disk>(moments: &[D])
    ensures { (rows : ℕ) (name : List ℕ)
        → ((a : D) → slice_get moments.now 0 ≡ Some a
        → Always (IsUndamagedBook rows) (D.state a))
        → ((n : ℕ) (a b : D) → slice_get moments.now n ≡ Some a
        → slice_get moments.now (n + 1) ≡ Some b
        → LeavesCellWhole (row_cell rows name) (D.state a) (D.state b))
        → (n : ℕ) (a : D) → slice_get moments.now n ≡ Some a
        → Always (IsUndamagedBook rows) (D.state a) }
{}
