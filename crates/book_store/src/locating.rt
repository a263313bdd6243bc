//! What counts on a disk whose tables were read: rows, or why they can't be held.

ghost use Rattle.std.specs.Prelude.{◌≡◌, ◌+◌, ◌*◌, ◌≤◌, [], IfOk, true, length, vec_capacity};
ghost use Rattle.dr_disk.specs.State.{OnSeen};
ghost use Rattle.pages.specs.Finds.{Finds};
ghost use Rattle.pages.specs.Tables.{counts, is_open, open_table, tables_standing};
ghost use Rattle.book_store.specs.Judging.{book_fault};
ghost use Rattle.book_store.specs.Layout.{HasBook, book_layout};
ghost use Rattle.book_store.specs.Locating.{IsLocated, IsNoneLocated, table_refusal};
ghost use Rattle.book_store.specs.Scratch.{HasTables};
ghost use Rattle.book_store.specs.declared.layout.TheConstants.{BOOK_ROWS, BOOK_TABLE, ROW_MOST};

use crate::desk::Desk;
use crate::errors::BookOpenError;
use crate::held::HeldRow;
use crate::judging::book_fault;
use crate::layout::ROW_MOST;
use crate::rooms::{fill_readers, take_empty, take_memory};
use crate::row_grammar::RowGrammar;
use crate::scratch::Scratch;
use crate::taking::read_rows;
use dr_disk::{Call, Disk};
use pages::{Judged, judge};
use std::alloc::{AllocError, Global};

/// Rows in memory, with the table that names their pages; or why they can't be held.
#[derive(Drop)]
pub(crate) enum Located {
    Held { desk: Desk, rows: Vec<HeldRow> },
    Refused { error: BookOpenError },
}

/// There was no memory.
fn no_memory() -> Located
    ensures { result ≡ Located.Refused BookOpenError.Memory }
{
    Located::Refused {
        error: BookOpenError::Memory,
    }
}

/// Why a table can't be a book's of so many rows, if so.
fn fault_of(
    alloc: Global,
    count: u32,
    second: bool,
    body: &[u8],
) -> Result<Option<BookOpenError>, AllocError>
    requires { length body.now + 1 ≡ BOOK_TABLE }
    ensures { IfOk result (λ refusal. refusal ≡ table_refusal second (book_fault count body.now)) }
{
    let mut numbers = Vec::with_capacity(alloc, ROW_MOST as usize)?;
    let table = if second { 1 } else { 0 };
    match book_fault(body, count, &mut numbers) {
        Some(at) => Ok(Some(BookOpenError::DamagedTable { table, at })),
        None => Ok(None),
    }
}

/// What counts where a table was read that is newer than the other.
fn locate_newer<G: RowGrammar + Drop, D: Disk>(
    alloc: Global,
    disk: &mut D,
    count: u32,
    second: bool,
    body: &[u8],
    readers: &mut Vec<Option<G>>,
) -> Result<Located, Call>
    requires few { count ≤ BOOK_ROWS }
    requires within { HasBook count (D.state disk.old) }
    requires wide { length body.now + 1 ≡ BOOK_TABLE }
    requires opened { is_open (open_table body.now) ≡ true }
    requires counts { OnSeen (λ s. tables_standing (book_layout count) s
        ≡ counts second (open_table body.now)) (D.state disk.old) }
    requires none { readers.old.items ≡ [] }
    requires room { BOOK_ROWS ≤ vec_capacity readers.old }
    ensures { Finds (ROW_MOST * BOOK_ROWS)
        (IsLocated G.fault_at G.has_read count readers.new.items)
        (D.state disk.old) (D.state disk.new) result }
{
    match fault_of(alloc, count, second, body) {
        Ok(None) => {}
        Ok(Some(error)) => return Ok(Located::Refused { error }),
        Err(_) => return Ok(no_memory()),
    }
    let Ok((desk, mut rows)) = take_memory(alloc, count, second, body) else {
        return Ok(no_memory());
    };
    match read_rows(alloc, disk, body, &mut rows, readers) {
        Ok(None) => Ok(Located::Held { desk, rows }),
        Ok(Some(error)) => Ok(Located::Refused { error }),
        Err(call) => Err(call),
    }
}

/// What counts where no table is open: no row.
fn locate_none<G: RowGrammar + Drop>(
    alloc: Global,
    count: u32,
    readers: &mut Vec<Option<G>>,
) -> Located
    requires few { count ≤ BOOK_ROWS }
    requires none { readers.old.items ≡ [] }
    requires room { BOOK_ROWS ≤ vec_capacity readers.old }
    ensures { IsNoneLocated count readers.new.items result }
{
    let Ok((desk, rows)) = take_empty(alloc, count) else {
        return no_memory();
    };
    fill_readers(readers);
    Located::Held { desk, rows }
}

/// What counts on a disk whose tables were read, with these gates.
pub(crate) fn locate<G: RowGrammar + Drop, D: Disk>(
    alloc: Global,
    disk: &mut D,
    count: u32,
    first_gate: u8,
    second_gate: u8,
    scratch: &Scratch,
    readers: &mut Vec<Option<G>>,
) -> Result<Located, Call>
    requires few { count ≤ BOOK_ROWS }
    requires tables { HasTables count first_gate second_gate scratch.now (D.state disk.old) }
    requires none { readers.old.items ≡ [] }
    requires room { BOOK_ROWS ≤ vec_capacity readers.old }
    ensures { Finds (ROW_MOST * BOOK_ROWS)
        (IsLocated G.fault_at G.has_read count readers.new.items)
        (D.state disk.old) (D.state disk.new) result }
{
    match judge(first_gate, &scratch.first, second_gate, &scratch.second) {
        Judged::Alike => Ok(Located::Refused {
            error: BookOpenError::DamagedTable { table: 1, at: 1 },
        }),
        Judged::NoneOpen => Ok(locate_none(alloc, count, readers)),
        Judged::Newer { second: false } => {
            locate_newer(alloc, disk, count, false, &scratch.first, readers)
        }
        Judged::Newer { second: true } => {
            locate_newer(alloc, disk, count, true, &scratch.second, readers)
        }
    }
}
