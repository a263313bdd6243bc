//! The first fault of a row.

ghost use Rattle.std.specs.Prelude.{◌≡◌, ◌+◌, ◌-◌, ◌≤◌, ◌<◌, ◌&&◌, ◌||◌, not, length, vec_capacity};
ghost use Rattle.record_pages.specs.Tables.{nonzero_from};
ghost use Rattle.relay_wire.specs.Names.{is_name};
ghost use Rattle.book_store.specs.Judging.{is_named, is_taken, name_fault, pages_fault, row_at, row_fault};
ghost use Rattle.book_store.specs.Rows.{record_table, row_in, row_place};
ghost use Rattle.book_store.specs.declared.layout.TheConstants.{BOOK_ROWS, BOOK_TABLE, RECORD_PLACE, ROW_MOST, TABLE_ROW};

use crate::layout::{RECORD_PLACE, ROW_MOST, ROW_PAGES, TABLE_ROW};
use record_pages::{nonzero, table_fault};
use relay_wire::{NAME_LIMIT, Name};

/// Where a row begins, counted from the gate.
fn row_at(row: usize) -> u64
    requires { row < BOOK_ROWS }
    ensures { result ≡ row_at row }
{
    TABLE_ROW as u64 + TABLE_ROW as u64 * row as u64
}

/// The place of the first byte that isn't zero, counted from a place.
pub(crate) fn first_nonzero(bytes: &[u8], from: u64) -> Option<u64>
    requires { from + length bytes.now ≤ BOOK_TABLE }
    ensures { result ≡ nonzero_from from bytes.now }
{
    match nonzero(bytes, from as u32) {
        Some(at) => Some(at as u64),
        None => None,
    }
}

/// A row of a table after its gate.
pub(crate) fn row_of(body: &[u8], row: usize) -> &[u8]
    requires { row_place row + TABLE_ROW ≤ length body.now }
    ensures value { result.now ≡ row_in body.now row }
    ensures long { length result.now ≡ TABLE_ROW }
{
    let at = TABLE_ROW - 1 + TABLE_ROW * row;
    &body[at..at + TABLE_ROW]
}

/// The table of a present row's record.
pub(crate) fn record_of(row: &[u8]) -> &[u8]
    requires { length row.now ≡ TABLE_ROW }
    ensures value { result.now ≡ record_table row.now }
    ensures long { length result.now ≡ TABLE_ROW - RECORD_PLACE }
{
    &row[RECORD_PLACE..]
}

/// Whether a row is present under this name.
#[tactic(auto, unfolding(crate::specs::Judging::is_named))]
fn is_named(row: &[u8], name: &[u8]) -> bool
    requires { length row.now ≡ TABLE_ROW }
    ensures { result ≡ is_named row.now name.now }
{
    let len = row[1] as usize;
    row[0] == 1 && row[2..2 + len] == name[..]
}

/// Whether one of both is so.
fn either(a: bool, b: bool) -> bool
    ensures { result ≡ (a || b) }
{
    a || b
}

/// Whether one of the first rows is present under this name.
fn is_taken(body: &[u8], rows: usize, name: &[u8]) -> bool
    requires { row_place rows ≤ length body.now }
    ensures { result ≡ is_taken rows body.now name.now }
{
    let mut taken = false;
    'rows: for row in 0..rows {
        taken = either(taken, is_named(row_of(body, row), name));
    }
    taken
}

/// Whether these bytes are a name that none of the first rows has.
fn is_new_name(body: &[u8], rows: usize, name: &[u8]) -> bool
    requires { row_place rows ≤ length body.now }
    ensures { result ≡ (is_name name.now && not (is_taken rows body.now name.now)) }
{
    match Name::new(name) {
        Some(name) => !is_taken(body, rows, name.bytes()),
        None => false,
    }
}

/// The first fault of a present row's name.
#[tactic(auto, unfolding(crate::specs::Judging::name_fault))]
fn name_fault(body: &[u8], row: usize, bytes: &[u8]) -> Option<u64>
    requires row { row < BOOK_ROWS }
    requires room { row_place row ≤ length body.now }
    requires long { length bytes.now ≡ TABLE_ROW }
    ensures { result ≡ name_fault body.now row bytes.now }
{
    let len = bytes[1] as usize;
    let at = row_at(row);
    if len < 1 || len > NAME_LIMIT {
        return Some(at + 1);
    }
    if !is_new_name(body, row, &bytes[2..2 + len]) {
        return Some(at + 2);
    }
    first_nonzero(&bytes[2 + len..RECORD_PLACE + 1], at + 2 + len as u64)
}

/// The first fault of a present row's pages; else their numbers.
fn pages_fault(row: usize, bytes: &[u8], numbers: &mut Vec<u32>) -> Option<u64>
    requires row { row < BOOK_ROWS }
    requires long { length bytes.now ≡ TABLE_ROW }
    requires room { ROW_MOST ≤ vec_capacity numbers.old }
    ensures fault { result ≡ pages_fault row bytes.now }
    ensures capacity { vec_capacity numbers.old ≤ vec_capacity numbers.new }
{
    let at = row_at(row) + (RECORD_PLACE as u64 - 1);
    match table_fault(record_of(bytes), 0, ROW_PAGES, ROW_MOST, numbers) {
        Some(place) => Some(at + place as u64),
        None => None,
    }
}

/// The first fault of a row, which may be present or not.
#[tactic(auto, unfolding(crate::specs::Judging::row_fault))]
pub(crate) fn row_fault(
    may: bool,
    body: &[u8],
    row: usize,
    bytes: &[u8],
    numbers: &mut Vec<u32>,
) -> Option<u64>
    requires row { row < BOOK_ROWS }
    requires place { row_place row ≤ length body.now }
    requires long { length bytes.now ≡ TABLE_ROW }
    requires room { ROW_MOST ≤ vec_capacity numbers.old }
    ensures fault { result ≡ row_fault may body.now row bytes.now }
    ensures capacity { vec_capacity numbers.old ≤ vec_capacity numbers.new }
{
    let at = row_at(row);
    if bytes[0] == 0 {
        return first_nonzero(&bytes[1..], at + 1);
    }
    if bytes[0] != 1 || !may {
        return Some(at);
    }
    match name_fault(body, row, bytes) {
        Some(at) => Some(at),
        None => pages_fault(row, bytes, numbers),
    }
}
