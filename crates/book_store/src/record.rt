//! A row's record: its change is planned in memory, and staged.

ghost use Rattle.std.specs.Prelude.{◌≡◌, ◌+◌, ◌++◌, ◌≤◌, ◌<◌, ℕ, All, List, OnOk, length, take, vec_capacity};
ghost use Rattle.dr_disk.specs.declared.call.Call.TheVariants.{Write};
ghost use Rattle.dr_disk.specs.State.{OnSeen};
ghost use Rattle.pages.specs.Layouts.{IsSound};
ghost use Rattle.pages.specs.Runs.{Makes, only};
ghost use Rattle.pages.specs.Snapshots.{Snapshot};
ghost use Rattle.pages.specs.Writing.{AreBeside, AreUnnamed, Stages};
ghost use Rattle.record_pages.specs.Pages.{pages_in};
ghost use Rattle.record_pages.specs.Plans.{changed_places};
ghost use Rattle.paged_records.specs.Bounded.{HasRecordMemory, HasText};
ghost use Rattle.book_store.specs.Desk.{IsWithBody, KeepsOthers, StandsStaged, holding};
ghost use Rattle.book_store.specs.Kept.{HasStagingRoom, IsReplacedBy, IsRowRecord, row_bounds, row_free, row_fresh, row_writes, text_of};
ghost use Rattle.book_store.specs.Layout.{book_layout};
ghost use Rattle.book_store.specs.Rows.{book_names, row_in, row_names, row_text, shifted, with_row_in};
ghost use Rattle.relay_wire.specs.declared.limits.TheConstants.{NAME_LIMIT};
ghost use Rattle.book_store.specs.declared.layout.TheConstants.{BOOK_ROWS, ROW_PAGES};

use crate::desk::Desk;
use crate::layout::{ROW_MOST, ROW_PAGES};
use dr_disk::{Call, Disk};
use paged_records::{Bounds, Draft, Kept, replan};

/// Which of its pages a row's record may have.
pub fn row_bounds() -> Bounds
    ensures { result ≡ row_bounds }
{
    Bounds {
        least: 0,
        count: ROW_PAGES,
        most: ROW_MOST,
    }
}

/// Takes down numbers of a row's pages as those of the book, behind those that are there.
pub(crate) fn append_shifted(row: usize, numbers: &[u32], out: &mut Vec<u32>)
    requires row { row < BOOK_ROWS }
    requires own { All (λ n. n < ROW_PAGES) numbers.now }
    requires room { length out.old.items + length numbers.now ≤ vec_capacity out.old }
    ensures shifted { out.new.items ≡ out.old.items ++ shifted row numbers.now }
    ensures room { vec_capacity out.old ≤ vec_capacity out.new }
{
    'numbers: for i in 0..numbers.len() {
        out.push(ROW_PAGES * row as u32 + numbers[i]).unwrap();
    }
}

/// Takes down numbers of a row's pages as those of the book.
fn shift(row: usize, numbers: &[u32], out: &mut Vec<u32>)
    requires row { row < BOOK_ROWS }
    requires own { All (λ n. n < ROW_PAGES) numbers.now }
    requires room { length numbers.now ≤ vec_capacity out.old }
    ensures shifted { out.new.items ≡ shifted row numbers.now }
    ensures room { vec_capacity out.old ≤ vec_capacity out.new }
{
    out.clear();
    append_shifted(row, numbers, out);
}

/// Puts a text in place of a row's record in memory, and plans what of it is written, to which of
/// the book's pages, and what is wiped.
fn plan_row(
    row: usize,
    kept: &mut Kept,
    draft: &mut Draft,
    fresh: &mut Vec<u32>,
    text: &mut Vec<u8>,
    len: usize,
)
    requires row { row < BOOK_ROWS }
    requires text { HasText row_bounds text.old len }
    requires record { IsRowRecord kept.old }
    requires rooms { HasStagingRoom draft.old fresh.old }
    ensures len { kept.new.len ≡ len }
    ensures replaced { IsReplacedBy kept.old kept.new (take len text.old.items)
        draft.new.plan.dropped.items }
    ensures places { draft.new.plan.places.items
        ≡ changed_places 0 (pages_in (text_of kept.old)) (pages_in (take len text.old.items)) }
    ensures fresh { fresh.new.items ≡ row_fresh row kept.old (take len text.old.items) }
    ensures rooms { HasStagingRoom draft.new fresh.new }
    ensures room { HasRecordMemory row_bounds text.new }
{
    replan(row_bounds(), kept, draft, text, len);
    let count = draft.plan.places.len();
    shift(row, &draft.free[..count], fresh);
}

/// Puts a text in place of a row's record: what of it changes is written to pages of the row that
/// no open table names, and the row goes into the table to come.
pub(crate) fn stage_record<D: Disk>(
    desk: &mut Desk,
    disk: &mut D,
    row: usize,
    name: &[u8],
    kept: &mut Kept,
    draft: &mut Draft,
    fresh: &mut Vec<u32>,
    text: &mut Vec<u8>,
    len: usize,
) -> Result<(), Call>
    requires row { row < desk.old.rows }
    requires named { length name.now ≤ NAME_LIMIT }
    requires text { HasText row_bounds text.old len }
    requires record { IsRowRecord kept.old }
    requires rooms { HasStagingRoom draft.old fresh.old }
    requires sound { IsSound (book_layout desk.old.rows) (D.state disk.old).size }
    requires free { AreUnnamed book_names (book_layout desk.old.rows) (row_free row kept.old)
        (D.state disk.old) }

    // The disk, and the table to come.
    ensures staged { (was : Snapshot) (held : ℕ → List (List ℕ))
        → StandsStaged desk.old.rows desk.old.second desk.old.turn desk.old.body.items was held
        (D.state disk.old)
        → AreBeside book_names (book_layout desk.old.rows) (row_free row kept.old) was
        → row_names (row_in desk.old.body.items row) ≡ kept.old.numbers.items
        → held row ≡ pages_in (text_of kept.old)
        → OnOk result (StandsStaged desk.new.rows desk.new.second desk.new.turn
        desk.new.body.items was (holding held row (pages_in (take len text.old.items)))
        (D.state disk.new)) }
    ensures next { IsWithBody desk.old desk.new
        (with_row_in desk.old.body.items row (row_text name.now len kept.new.numbers.items)) }

    // What was written.
    ensures stages { Stages book_names (book_layout desk.old.rows)
        (row_fresh row kept.old (take len text.old.items)) (D.state disk.old) (D.state disk.new) }
    ensures rest { OnOk result (OnSeen (KeepsOthers desk.old.rows
        (row_fresh row kept.old (take len text.old.items)) (D.state disk.old)) (D.state disk.new)) }
    ensures makes { Makes (row_writes kept.old (take len text.old.items)) (only Write)
        (D.state disk.old) (D.state disk.new) result }

    // The record in memory, and the rooms.
    ensures replaced { IsReplacedBy kept.old kept.new (take len text.old.items)
        draft.new.plan.dropped.items }
    ensures rooms { HasStagingRoom draft.new fresh.new }
    ensures room { HasRecordMemory row_bounds text.new }
{
    plan_row(row, kept, draft, fresh, text, len);
    let kept = &*kept;
    desk.stage(
        disk,
        row,
        name,
        len as u32,
        &kept.numbers,
        fresh,
        &draft.plan.places,
        &kept.bytes,
    )
}
