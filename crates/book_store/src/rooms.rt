//! Memory for the rows that count, and for their readers.

ghost use Rattle.std.specs.Prelude.{◌≡◌, ◌+◌, ◌-◌, ◌≤◌, [], All, None, IfOk, true, length, replicate, slice_index, vec_capacity};
ghost use Rattle.book_store.specs.declared.layout.TheConstants.{BOOK_ROWS, BOOK_TABLE};

use crate::desk::Desk;
use crate::held::{HeldRow, absent_rows};
use crate::layout::BOOK_ROWS;
use crate::row_grammar::RowGrammar;
use std::alloc::{AllocError, Global};

/// A desk with a table that was read.
fn desk_of(alloc: Global, rows: u32, second: bool, body: &[u8]) -> Result<Desk, AllocError>
    requires few { rows ≤ BOOK_ROWS }
    requires wide { length body.now + 1 ≡ BOOK_TABLE }
    requires turn { slice_index body.now 0 ≤ 3 }
    ensures rows { IfOk result (λ desk. desk.rows ≡ rows) }
    ensures second { IfOk result (λ desk. desk.second ≡ second) }
    ensures turn { IfOk result (λ desk. desk.turn ≡ slice_index body.now 0) }
    ensures body { IfOk result (λ desk. desk.body.items ≡ body.now) }
{
    Ok(Desk {
        rows,
        second,
        turn: body[0],
        body: body.to_vec(alloc)?,
    })
}

/// Memory for the rows of a table that was read: its desk, and room for the list of its rows.
pub(crate) fn take_memory(
    alloc: Global,
    count: u32,
    second: bool,
    body: &[u8],
) -> Result<(Desk, Vec<HeldRow>), AllocError>
    requires few { count ≤ BOOK_ROWS }
    requires wide { length body.now + 1 ≡ BOOK_TABLE }
    requires turn { slice_index body.now 0 ≤ 3 }
    ensures rows { IfOk result (λ both. both.0.rows ≡ count) }
    ensures second { IfOk result (λ both. both.0.second ≡ second) }
    ensures turn { IfOk result (λ both. both.0.turn ≡ slice_index body.now 0) }
    ensures body { IfOk result (λ both. both.0.body.items ≡ body.now) }
    ensures none { IfOk result (λ both. both.1.items ≡ []) }
    ensures room { IfOk result (λ both. BOOK_ROWS ≤ vec_capacity both.1) }
{
    let desk = desk_of(alloc, count, second, body)?;
    let rows = Vec::with_capacity(alloc, BOOK_ROWS as usize)?;
    Ok((desk, rows))
}

/// Memory for a book of which no table is open.
pub(crate) fn take_empty(alloc: Global, count: u32) -> Result<(Desk, Vec<HeldRow>), AllocError>
    requires { count ≤ BOOK_ROWS }
    ensures rows { IfOk result (λ both. both.0.rows ≡ count) }
    ensures second { IfOk result (λ both. both.0.second ≡ true) }
    ensures turn { IfOk result (λ both. both.0.turn ≡ 0) }
    ensures body { IfOk result (λ both. both.0.body.items ≡ replicate (BOOK_TABLE - 1) 0) }
    ensures long { IfOk result (λ both. length both.1.items ≡ BOOK_ROWS) }
    ensures absent { IfOk result (λ both. All (λ row. row.name ≡ None) both.1.items) }
{
    let desk = Desk::new(alloc, count)?;
    let rows = absent_rows(alloc)?;
    Ok((desk, rows))
}

/// No row has a reader.
pub(crate) fn fill_readers<G: RowGrammar + Drop>(readers: &mut Vec<Option<G>>)
    requires none { readers.old.items ≡ [] }
    requires room { BOOK_ROWS ≤ vec_capacity readers.old }
    ensures { readers.new.items ≡ replicate BOOK_ROWS None }
{
    'rows: for _ in 0..BOOK_ROWS {
        readers.push(None).unwrap();
    }
}
