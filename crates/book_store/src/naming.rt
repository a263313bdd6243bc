//! The pages that rows have are marked.

ghost use Rattle.std.specs.Prelude.{◌≡◌, ◌*◌, ◌<◌, ◌||◌, ℕ, All, false, get_or, length};
ghost use Rattle.record_pages.specs.Plans.{is_among};
ghost use Rattle.book_store.specs.Held.{held_names};
ghost use Rattle.book_store.specs.Rows.{shifted};
ghost use Rattle.book_store.specs.declared.layout.TheConstants.{BOOK_ROWS, ROW_PAGES};

use crate::held::HeldRow;
use crate::layout::{BOOK_ROWS, ROW_PAGES};

/// Marks pages of a row.
fn mark_row(row: usize, numbers: &[u32], named: &mut [bool])
    requires row { row < BOOK_ROWS }
    requires own { All (λ n. n < ROW_PAGES) numbers.now }
    requires room { length named.old ≡ ROW_PAGES * BOOK_ROWS }
    ensures marks { (n : ℕ) → get_or named.new n false
        ≡ (get_or named.old n false || is_among (shifted row numbers.now) n) }
    ensures long { length named.new ≡ length named.old }
{
    'numbers: for i in 0..numbers.len() {
        named[(ROW_PAGES * row as u32 + numbers[i]) as usize] = true;
    }
}

/// Marks the pages of all rows.
pub(crate) fn mark_rows(rows: &[HeldRow], named: &mut [bool])
    requires all { length rows.now ≡ BOOK_ROWS }
    requires room { length named.old ≡ ROW_PAGES * BOOK_ROWS }
    ensures marks { (n : ℕ) → get_or named.new n false
        ≡ (get_or named.old n false || is_among (held_names rows.now) n) }
    ensures long { length named.new ≡ length named.old }
{
    'rows: for row in 0..BOOK_ROWS as usize {
        mark_row(row, &rows[row].kept.numbers, named);
    }
}
