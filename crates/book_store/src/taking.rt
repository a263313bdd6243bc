//! The rows of a book are read into memory, one after the other.

ghost use Rattle.std.specs.Prelude.{◌≡◌, ◌≢◌, ◌+◌, ◌*◌, ◌≤◌, ◌<◌, [], length, slice_index, vec_capacity, vec_len};
ghost use Rattle.pages.specs.Finds.{Finds};
ghost use Rattle.book_store.specs.Layout.{HasBook};
ghost use Rattle.book_store.specs.Marks.{IsLaidRow};
ghost use Rattle.book_store.specs.RowReading.{IsAbsentRead, IsRowRead};
ghost use Rattle.book_store.specs.RowsReading.{AreLaidRows, AreRowsRead};
ghost use Rattle.book_store.specs.declared.layout.TheConstants.{BOOK_ROWS, BOOK_TABLE, ROW_MOST, TABLE_ROW};

use crate::errors::BookOpenError;
use crate::held::HeldRow;
use crate::layout::BOOK_ROWS;
use crate::loading::{RowRoom, load_row, name_of, take_room};
use crate::row_grammar::RowGrammar;
use crate::rows::row_of;
use dr_disk::{Call, Disk};
use paged_records::Loaded;
use std::alloc::Global;

/// Reads a row that is present, with a reader of its own. Answers why it can't be held, if so.
fn read_present<G: RowGrammar + Drop, D: Disk>(
    alloc: Global,
    disk: &mut D,
    row: usize,
    bytes: &[u8],
    rows: &mut Vec<HeldRow>,
    readers: &mut Vec<Option<G>>,
) -> Result<Option<BookOpenError>, Call>
    requires row { row < BOOK_ROWS }
    requires within { HasBook (row + 1) (D.state disk.old) }
    requires wide { length bytes.now ≡ TABLE_ROW }
    requires laid { IsLaidRow bytes.now }
    requires present { slice_index bytes.now 0 ≢ 0 }
    requires room { vec_len rows.old < vec_capacity rows.old }
    requires readers { vec_len readers.old < vec_capacity readers.old }
    ensures read { Finds ROW_MOST (λ disk refusal. IsRowRead G.fault_at G.has_read row bytes.now
        rows.old.items rows.new.items readers.old.items readers.new.items disk refusal)
        (D.state disk.old) (D.state disk.new) result }
    ensures room { vec_capacity rows.old ≤ vec_capacity rows.new }
    ensures readers { vec_capacity readers.old ≤ vec_capacity readers.new }
{
    let Ok(room) = take_room::<G>(alloc, bytes) else {
        return Ok(Some(BookOpenError::Memory));
    };
    let RowRoom {
        table,
        kept,
        dropped,
        mut reader,
    } = room;
    match load_row(disk, row, bytes, &table, kept, &mut reader) {
        Ok(Loaded::Whole { kept }) => {
            let name = name_of(bytes);
            let held = HeldRow {
                name,
                kept,
                dropped,
            };
            rows.push(held).unwrap();
            readers.push(Some(reader)).unwrap();
            Ok(None)
        }
        Ok(Loaded::Faulty { at }) => Ok(Some(BookOpenError::DamagedRow {
            row: row as u32,
            at,
        })),
        Err(call) => Err(call),
    }
}

/// Takes an absent row, which has no reader. Answers why it can't be held, if so.
fn read_absent<G: RowGrammar + Drop>(
    alloc: Global,
    rows: &mut Vec<HeldRow>,
    readers: &mut Vec<Option<G>>,
) -> Option<BookOpenError>
    requires room { vec_len rows.old < vec_capacity rows.old }
    requires readers { vec_len readers.old < vec_capacity readers.old }
    ensures read { IsAbsentRead rows.old.items rows.new.items readers.old.items readers.new.items
        result }
    ensures room { vec_capacity rows.old ≤ vec_capacity rows.new }
    ensures readers { vec_capacity readers.old ≤ vec_capacity readers.new }
{
    let Ok(held) = HeldRow::absent(alloc) else {
        return Some(BookOpenError::Memory);
    };
    rows.push(held).unwrap();
    readers.push(None).unwrap();
    None
}

/// Reads a row, with a reader of its own if it is present. Answers why it can't be held, if so.
fn read_row<G: RowGrammar + Drop, D: Disk>(
    alloc: Global,
    disk: &mut D,
    row: usize,
    bytes: &[u8],
    rows: &mut Vec<HeldRow>,
    readers: &mut Vec<Option<G>>,
) -> Result<Option<BookOpenError>, Call>
    requires row { row < BOOK_ROWS }
    requires within { slice_index bytes.now 0 ≢ 0 → HasBook (row + 1) (D.state disk.old) }
    requires wide { length bytes.now ≡ TABLE_ROW }
    requires laid { IsLaidRow bytes.now }
    requires room { vec_len rows.old < vec_capacity rows.old }
    requires readers { vec_len readers.old < vec_capacity readers.old }
    ensures read { Finds ROW_MOST (λ disk refusal. IsRowRead G.fault_at G.has_read row bytes.now
        rows.old.items rows.new.items readers.old.items readers.new.items disk refusal)
        (D.state disk.old) (D.state disk.new) result }
    ensures room { vec_capacity rows.old ≤ vec_capacity rows.new }
    ensures readers { vec_capacity readers.old ≤ vec_capacity readers.new }
{
    if bytes[0] == 0 {
        return Ok(read_absent(alloc, rows, readers));
    }
    match read_present(alloc, disk, row, bytes, rows, readers) {
        Ok(refusal) => Ok(refusal),
        Err(call) => Err(call),
    }
}

/// Reads all rows of a table, one after the other. Answers why they can't be held, if so.
pub(crate) fn read_rows<G: RowGrammar + Drop, D: Disk>(
    alloc: Global,
    disk: &mut D,
    body: &[u8],
    rows: &mut Vec<HeldRow>,
    readers: &mut Vec<Option<G>>,
) -> Result<Option<BookOpenError>, Call>
    requires wide { length body.now + 1 ≡ BOOK_TABLE }
    requires laid { AreLaidRows body.now (D.state disk.old) }
    requires none { rows.old.items ≡ [] }
    requires no_readers { readers.old.items ≡ [] }
    requires room { BOOK_ROWS ≤ vec_capacity rows.old }
    requires readers { BOOK_ROWS ≤ vec_capacity readers.old }
    ensures read { Finds (ROW_MOST * BOOK_ROWS) (λ disk refusal. AreRowsRead G.fault_at G.has_read
        body.now rows.new.items readers.new.items disk refusal)
        (D.state disk.old) (D.state disk.new) result }
{
    'rows: for row in 0..BOOK_ROWS as usize {
        match read_row(alloc, disk, row, row_of(body, row), rows, readers) {
            Ok(None) => {}
            Ok(Some(error)) => return Ok(Some(error)),
            Err(call) => return Err(call),
        }
    }
    Ok(None)
}
