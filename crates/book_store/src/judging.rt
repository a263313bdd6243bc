//! The first place of a table that no book has.

ghost use Rattle.std.specs.Prelude.{◌≡◌, ◌+◌, ◌≤◌, ◌<◌, length, vec_capacity};
ghost use Rattle.book_store.specs.Judging.{all_rows_fault, book_fault};
ghost use Rattle.book_store.specs.declared.layout.TheConstants.{BOOK_TABLE, ROW_MOST};

use crate::layout::{BOOK_ROWS, BOOK_TABLE, TABLE_ROW};
use crate::rows::{first_nonzero, row_fault, row_of};

/// The first fault of the rows, of which so many may be present.
fn rows_fault(body: &[u8], rows: u32, numbers: &mut Vec<u32>) -> Option<u64>
    requires long { length body.now + 1 ≡ BOOK_TABLE }
    requires room { ROW_MOST ≤ vec_capacity numbers.old }
    ensures { result ≡ all_rows_fault rows body.now }
{
    'rows: for row in 0..BOOK_ROWS as usize {
        let bytes = row_of(body, row);
        match row_fault((row as u32) < rows, body, row, bytes, numbers) {
            Some(at) => return Some(at),
            None => {}
        }
    }
    None
}

/// The first place of a table after its gate that no book of so many rows has, counted from the
/// gate, if there is one. Room for the numbers of a row's pages is lent.
#[tactic(auto, unfolding(crate::specs::Judging::book_fault))]
pub fn book_fault(body: &[u8], rows: u32, numbers: &mut Vec<u32>) -> Option<u64>
    requires long { length body.now + 1 ≡ BOOK_TABLE }
    requires room { ROW_MOST ≤ vec_capacity numbers.old }
    ensures { result ≡ book_fault rows body.now }
{
    let end = TABLE_ROW + TABLE_ROW * BOOK_ROWS as usize;
    match first_nonzero(&body[1..TABLE_ROW - 1], 2) {
        Some(at) => return Some(at),
        None => {}
    }
    match rows_fault(body, rows, numbers) {
        Some(at) => return Some(at),
        None => {}
    }
    first_nonzero(&body[end - 1..BOOK_TABLE as usize - 1], end as u64)
}
