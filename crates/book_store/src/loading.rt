//! The record of a row is read into memory, and judged.

ghost use Rattle.std.specs.Prelude.{◌≡◌, ◌≢◌, ◌+◌, ◌<◌, true, Some, IfOk, length, slice_index};
ghost use Rattle.dr_disk.specs.State.{OnSeen};
ghost use Rattle.pages.specs.Finds.{Finds};
ghost use Rattle.paged_records.specs.Loading.{IsReadRecord};
ghost use Rattle.paged_records.specs.Memory.{HasRoomToLoad};
ghost use Rattle.relay_wire.specs.Names.{is_name};
ghost use Rattle.book_store.specs.Kept.{row_bounds};
ghost use Rattle.book_store.specs.Layout.{HasBook};
ghost use Rattle.book_store.specs.Marks.{IsLaidRow};
ghost use Rattle.book_store.specs.RowReading.{IsKeptRecord, IsRowLoaded, IsRowRoom, row_layout, widened};
ghost use Rattle.book_store.specs.Rows.{name_in};
ghost use Rattle.book_store.specs.declared.layout.TheConstants.{BOOK_ROWS, ROW_MOST, TABLE_ROW};

use crate::layout::{BOOK_START, BOOK_TABLE, ROW_MOST, ROW_PAGES, ROW_SIZE};
use crate::record::row_bounds;
use crate::row_grammar::RowGrammar;
use crate::rows::record_of;
use dr_base::PAGE;
use dr_disk::{Call, Disk};
use paged_records::{Grammar, Kept, Loaded, load};
use pages::{LOWER_PAGES, Layout};
use relay_wire::Name;
use std::alloc::{AllocError, Global};

/// The pages of one row, by their own numbers.
fn row_layout(row: usize) -> Layout
    requires { row < BOOK_ROWS }
    ensures { result ≡ row_layout row }
{
    let lower = BOOK_START + ROW_SIZE * row as u64;
    Layout {
        first: 0,
        second: BOOK_TABLE as u64,
        table: BOOK_TABLE,
        lower,
        upper: lower + PAGE as u64 * LOWER_PAGES as u64,
        least: 0,
        count: ROW_PAGES,
    }
}

/// The table of a row's record, as long as one that fills a page.
fn widened(alloc: Global, row: &[u8]) -> Result<Vec<u8>, AllocError>
    requires { length row.now ≡ TABLE_ROW }
    ensures { IfOk result (λ table. table.items ≡ widened row.now) }
{
    let mut table = record_of(row).to_vec(alloc)?;
    table.resize(PAGE - 1, 0)?;
    Ok(table)
}

/// The name that a present row says.
pub(crate) fn name_of(row: &[u8]) -> Option<Name>
    requires long { length row.now ≡ TABLE_ROW }
    requires named { is_name (name_in row.now) ≡ true }
    ensures { result ≡ Some (name_in row.now) }
{
    let len = row[1] as usize;
    Name::new(&row[2..2 + len])
}

/// What a row that is present is read into, with the table of its record.
#[derive(Drop)]
pub(crate) struct RowRoom<G> {
    pub(crate) table: Vec<u8>,
    pub(crate) kept: Kept,
    pub(crate) dropped: Vec<u32>,
    pub(crate) reader: G,
}

/// Takes the room for a row that is present, with a reader that has read nothing.
pub(crate) fn take_room<G: RowGrammar + Drop>(
    alloc: Global,
    row: &[u8],
) -> Result<RowRoom<G>, AllocError>
    requires { length row.now ≡ TABLE_ROW }
    ensures { IfOk result (IsRowRoom G.is_new row.now) }
{
    Ok(RowRoom {
        table: widened(alloc, row)?,
        kept: Kept::none(alloc, row_bounds())?,
        dropped: Vec::with_capacity(alloc, ROW_MOST as usize + 1)?,
        reader: G::fresh(alloc)?,
    })
}

/// Reads the record of a row that is present, in memory that has none. The table of the record is
/// lent, as long as one that fills a page.
pub(crate) fn load_row<G: Grammar, D: Disk>(
    disk: &mut D,
    row: usize,
    bytes: &[u8],
    table: &[u8],
    kept: Kept,
    reader: &mut G,
) -> Result<Loaded, Call>
    requires row { row < BOOK_ROWS }
    requires within { HasBook (row + 1) (D.state disk.old) }
    requires wide { length bytes.now ≡ TABLE_ROW }
    requires laid { IsLaidRow bytes.now }
    requires present { slice_index bytes.now 0 ≢ 0 }
    requires none { kept.len ≡ 0 }
    requires room { HasRoomToLoad row_bounds kept }
    requires table { table.now ≡ widened bytes.now }
    requires new { G.is_new reader.old }
    ensures kept { IfOk result (IsKeptRecord G.fault_at bytes.now) }
    ensures read { IfOk result (IsReadRecord (G.has_read reader.new)) }
    ensures loaded { Finds ROW_MOST
        (λ disk loaded. OnSeen (IsRowLoaded G.fault_at row bytes.now loaded) disk)
        (D.state disk.old) (D.state disk.new) result }
{
    let _size = disk.size();
    match load(disk, row_layout(row), row_bounds(), kept, table, reader) {
        Ok(loaded) => Ok(loaded),
        Err(call) => Err(call),
    }
}
