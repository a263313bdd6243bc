//! What follows for whole books. The functions have no code: a caller that needs a fact calls them.

ghost use Rattle.std.specs.Prelude.{◌≡◌, ◌+◌, ◌≤◌, ℕ, List, Option, length, replicate};
ghost use Rattle.dr_base.specs.Bytes.{AreBytes};
ghost use Rattle.dr_disk.specs.State.{Always};
ghost use Rattle.dr_disk.specs.Spans.{HavePassed, Span};
ghost use Rattle.book_store.specs.AtRest.{BookMark, IsBookAtRest, IsBookMarked};
ghost use Rattle.book_store.specs.Committing.{HasRows, IsBookStopped, IsOldOrNewBook, KeepsRows};
ghost use Rattle.book_store.specs.Judging.{book_fault};
ghost use Rattle.book_store.specs.Marks.{AreMarks, IsLaidTable, RowMark, book_body};
ghost use Rattle.book_store.specs.Layout.{HasBook, book_end};
ghost use Rattle.book_store.specs.Shown.{BookRow};
ghost use Rattle.book_store.specs.Opened.{IsBookOpened};
ghost use Rattle.book_store.specs.Staging.{IsStagedOver, MayStage, Rests};
ghost use Rattle.book_store.specs.Store.{empty_store};
ghost use Rattle.book_store.specs.declared.layout.TheConstants.{BOOK_ROWS, BOOK_TABLE};

use crate::store::BookStore;
use dr_disk::Disk;
use paged_records::Grammar;

/// Rows are staged from one moment to another, and more of them from then on: all that time each
/// crash leaves the rows that stand.
pub fn stay_as_they_were<D: Disk>(start: &D, mid: &D, end: &D)
    ensures any_moment { (rows : ℕ) (book : List (Option BookRow))
        → Span (D.state start.now) (D.state mid.now) (KeepsRows rows book (D.state start.now))
        → Always (KeepsRows rows book (D.state start.now)) (D.state mid.now)
        → Span (D.state mid.now) (D.state end.now) (KeepsRows rows book (D.state mid.now))
        → Span (D.state start.now) (D.state end.now) (KeepsRows rows book (D.state start.now)) }
    ensures still { (rows : ℕ) (book : List (Option BookRow))
        → Always (KeepsRows rows book (D.state start.now)) (D.state mid.now)
        → Always (KeepsRows rows book (D.state mid.now)) (D.state end.now)
        → Always (KeepsRows rows book (D.state start.now)) (D.state end.now) }
{}

/// Rows that were staged since one moment are committed after another: each crash since the first
/// leaves all rows as they were or all as they are to be. After a call that failed in the commit it
/// is known which, by how many passed since the first moment.
pub fn all_or_none<D: Disk>(start: &D, mid: &D, end: &D)
    ensures any_moment { (rows : ℕ) (old new : List (Option BookRow))
        → Span (D.state start.now) (D.state mid.now) (KeepsRows rows old (D.state start.now))
        → Always (KeepsRows rows old (D.state start.now)) (D.state mid.now)
        → Span (D.state mid.now) (D.state end.now) (IsOldOrNewBook rows old new (D.state mid.now))
        → Span (D.state start.now) (D.state end.now)
        (IsOldOrNewBook rows old new (D.state start.now)) }
    ensures stopped { (rows n : ℕ) (old new : List (Option BookRow))
        → HavePassed n (D.state start.now) (D.state mid.now)
        → (D.state mid.now).keeps ≡ (D.state start.now).keeps
        → Span (D.state mid.now) (D.state end.now) (IsOldOrNewBook rows old new (D.state mid.now))
        → IsBookStopped rows 0 old new (D.state mid.now) (D.state end.now)
        → IsBookStopped rows n old new (D.state start.now) (D.state end.now) }
{}

/// A table that is laid out from what its rows say has no fault.
pub fn laid_tables_are_faultless()
    ensures { (rows turn : ℕ) (marks : List (Option RowMark)) → AreMarks rows marks
        → book_fault rows (book_body turn marks) ≡ Option.None }
{}

/// A table without a fault is laid out from what its rows say: no byte of it says more.
pub fn faultless_tables_are_laid()
    ensures { (rows : ℕ) (body : List ℕ) → AreBytes body → length body + 1 ≡ BOOK_TABLE
        → book_fault rows body ≡ Option.None → IsLaidTable rows body }
{}

/// A book at rest has its rows, and is read without damage.
pub fn resting_books()
    ensures { (rows : ℕ) (mark : BookMark) (book : List (Option BookRow)) (c : List ℕ)
        → IsBookAtRest rows mark book c → HasRows rows book c }
{}

/// A disk of zeros is at rest for a store that was made for one.
pub fn zeros_are_at_rest()
    ensures at_rest { (rows size : ℕ) → rows ≤ BOOK_ROWS → book_end rows ≤ size
        → Rests (empty_store rows) (replicate size 0) }
    ensures marked { (rows : ℕ) → rows ≤ BOOK_ROWS
        → IsBookMarked rows (empty_store rows).mark (empty_store rows).held }
{}

/// Over a store that was just opened rows may be staged.
pub fn opened_books_may_stage<G: Grammar, D: Disk>(
    store: &BookStore,
    rows: u32,
    start: &D,
    disk: &D,
)
    requires within { HasBook rows (D.state disk.now) }
    requires opened { IsBookOpened G.fault_at rows
        (D.state start.now) (D.state disk.now) store.now }
    ensures over { IsStagedOver store.now store.now.held (D.state disk.now) }
    ensures may { MayStage store.now (D.state disk.now) }
{
    store.may_stage(disk);
}
