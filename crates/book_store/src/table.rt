//! The rows of a table, as bytes.

ghost use Rattle.std.specs.Prelude.{◌≡◌, ◌≢◌, ◌+◌, ◌≤◌, ◌<◌, ℕ, All, length, take};
ghost use Rattle.record_pages.specs.declared.limits.TheConstants.{NUMBER_LIMIT};
ghost use Rattle.relay_wire.specs.declared.limits.TheConstants.{NAME_LIMIT};
ghost use Rattle.book_store.specs.Rows.{absent_row, row_head, row_in, row_place, row_text, with_row_in};
ghost use Rattle.book_store.specs.declared.layout.TheConstants.{RECORD_PLACE, ROW_MOST, TABLE_ROW};

use crate::layout::{RECORD_PLACE, TABLE_ROW};
use dr_base::{put, put_u8};
use pages::Directory;
use record_pages::lay_out_table;

/// A table names the pages of all rows.
pub(crate) struct BookTable;

impl Directory for BookTable {
    ghost use Rattle.book_store.specs.Rows.{book_names};

    ghost names = { book_names };
}

/// Puts the name of a present row.
fn put_head(out: &mut [u8], name: &[u8])
    requires room { length out.old ≡ TABLE_ROW }
    requires named { length name.now ≤ NAME_LIMIT }
    ensures head { take (RECORD_PLACE + 1) out.new ≡ row_head name.now }
    ensures long { length out.new ≡ length out.old }
{
    let at = put_u8(out, 0, 1);
    let at = put_u8(out, at, name.len() as u8);
    let at = put(out, at, name);
    out[at..RECORD_PLACE + 1].fill(0);
}

/// Lays out a present row.
fn lay_out_row(out: &mut [u8], name: &[u8], len: u32, numbers: &[u32])
    requires room { length out.old ≡ TABLE_ROW }
    requires named { length name.now ≤ NAME_LIMIT }
    requires few { length numbers.now ≤ ROW_MOST }
    requires small { All (λ n. n < NUMBER_LIMIT) numbers.now }
    ensures { out.new ≡ row_text name.now len numbers.now }
{
    put_head(out, name);
    let last = out[RECORD_PLACE];
    lay_out_table(&mut out[RECORD_PLACE..], last, len, numbers);
}

/// Lays out a present row in its place of a table after its gate.
pub(crate) fn put_row(body: &mut [u8], row: usize, name: &[u8], len: u32, numbers: &[u32])
    requires room { row_place row + TABLE_ROW ≤ length body.old }
    requires named { length name.now ≤ NAME_LIMIT }
    requires few { length numbers.now ≤ ROW_MOST }
    requires small { All (λ n. n < NUMBER_LIMIT) numbers.now }
    ensures whole { body.new ≡ with_row_in body.old row (row_text name.now len numbers.now) }
    ensures this { row_in body.new row ≡ row_text name.now len numbers.now }
    ensures others { (r : ℕ) → r ≢ row → row_in body.new r ≡ row_in body.old r }
    ensures long { length body.new ≡ length body.old }
{
    let at = TABLE_ROW - 1 + TABLE_ROW * row;
    lay_out_row(&mut body[at..at + TABLE_ROW], name, len, numbers);
}

/// Lays out an absent row.
fn lay_out_absent(out: &mut [u8])
    requires { length out.old ≡ TABLE_ROW }
    ensures { out.new ≡ absent_row }
{
    out.fill(0);
}

/// Makes a row absent in its place of a table after its gate.
pub(crate) fn blank_row(body: &mut [u8], row: usize)
    requires room { row_place row + TABLE_ROW ≤ length body.old }
    ensures whole { body.new ≡ with_row_in body.old row absent_row }
    ensures this { row_in body.new row ≡ absent_row }
    ensures others { (r : ℕ) → r ≢ row → row_in body.new r ≡ row_in body.old r }
    ensures long { length body.new ≡ length body.old }
{
    let at = TABLE_ROW - 1 + TABLE_ROW * row;
    lay_out_absent(&mut body[at..at + TABLE_ROW]);
}
