//! The pages that rows dropped, gathered from all of them.

ghost use Rattle.std.specs.Prelude.{◌≡◌, ◌+◌, ◌*◌, ◌++◌, ◌≤◌, ◌<◌, [], get_or, if◌then◌else◌, length, vec_capacity};
ghost use Rattle.book_store.specs.Held.{drops_seen};
ghost use Rattle.book_store.specs.Rows.{names_by, shifted};
ghost use Rattle.book_store.specs.declared.layout.TheConstants.{BOOK_ROWS, ROW_MOST};

use crate::held::HeldRow;
use crate::record::append_shifted;

/// Takes down the pages that a row dropped, if it was staged.
fn append_drops(staged: bool, row: usize, held: &HeldRow, out: &mut Vec<u32>)
    requires row { row < BOOK_ROWS }
    requires room { length out.old.items + ROW_MOST ≤ vec_capacity out.old }
    ensures drops { out.new.items
        ≡ out.old.items ++ shifted row (if staged then held.now.dropped.items else []) }
    ensures long { length out.new.items ≤ length out.old.items + ROW_MOST }
    ensures room { vec_capacity out.old ≤ vec_capacity out.new }
{
    if staged {
        append_shifted(row, &held.dropped, out);
    }
}

/// Gathers the pages that the staged ones of so many rows dropped, one row after the other.
pub(crate) fn gather(count: u32, rows: &[HeldRow], staged: &[bool], out: &mut Vec<u32>)
    requires few { count ≤ BOOK_ROWS }
    requires all { count ≤ length rows.now }
    requires each { length staged.now ≡ length rows.now }
    requires room { ROW_MOST * BOOK_ROWS ≤ vec_capacity out.old }
    ensures gathered { out.new.items
        ≡ names_by count 0 (λ r. get_or (drops_seen staged.now rows.now) r []) }
    ensures room { vec_capacity out.old ≤ vec_capacity out.new }
{
    out.clear();
    'rows: for row in 0..count as usize {
        append_drops(staged[row], row, &rows[row], out);
    }
}
