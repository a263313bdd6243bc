//! Rows of a store change: they are staged, all of them are committed at once, and what they
//! replaced is retired.

ghost use Rattle.std.specs.Prelude.{◌<◌, ◌≤◌, List, Option, take};
ghost use Rattle.book_store.specs.Kept.{row_bounds};
ghost use Rattle.book_store.specs.Shown.{BookRow};
ghost use Rattle.book_store.specs.Staging.{IsStagedOver, MayStage};
ghost use Rattle.book_store.specs.Store.{IsNewName, with_row, without_row, writes_at};
ghost use Rattle.book_store.specs.declared.layout.TheConstants.{BOOK_ROWS};
ghost use Rattle.paged_records.specs.Bounded.{HasRecordMemory, HasText};
ghost use Rattle.book.specs.Books.{IsStoreReady};
ghost use Rattle.book.specs.Changing.{TakesPlaceOf};

use book_store::{BookStore, StoreFault};
use dr_disk::Disk;
use relay_wire::Name;

/// Commits what is staged, and retires what it takes the place of.
pub(crate) fn settle<D: Disk>(store: &mut BookStore, disk: &mut D) -> Result<(), StoreFault>
    requires few { store.old.rows ≤ BOOK_ROWS }
    requires may { MayStage store.old (D.state disk.old) }
    ensures { (standing : List (Option BookRow))
        → IsStagedOver store.old standing (D.state disk.old)
        → TakesPlaceOf 0 store.old store.new standing (D.state disk.old) (D.state disk.new) result }
{
    match store.commit(disk) {
        Ok(()) => {}
        Err(fault) => return Err(fault),
    }
    match store.retire(disk) {
        Ok(()) => {}
        Err(fault) => return Err(fault),
    }
    Ok(())
}

/// Puts the first `len` bytes of a text into a row, under a name. The text's room is taken over
/// with it, and the room of the record before is handed back.
pub(crate) fn put_row<D: Disk>(
    store: &mut BookStore,
    disk: &mut D,
    row: usize,
    name: Name,
    text: &mut Vec<u8>,
    len: usize,
) -> Result<(), StoreFault>
    requires row { row < store.old.rows }
    requires name { IsNewName store.old row name }
    requires text { HasText row_bounds text.old len }
    requires ready { IsStoreReady store.old (D.state disk.old) }
    ensures takes { TakesPlaceOf (writes_at store.old row (take len text.old.items))
        (with_row store.old row name (take len text.old.items)) store.new store.old.held
        (D.state disk.old) (D.state disk.new) result }
    ensures room { HasRecordMemory row_bounds text.new }
{
    store.may_stage(disk);
    match store.stage(disk, row, name, text, len) {
        Ok(()) => {}
        Err(fault) => return Err(fault),
    }
    match settle(store, disk) {
        Ok(()) => Ok(()),
        Err(fault) => Err(fault),
    }
}

/// Makes a row absent.
pub(crate) fn clear_row<D: Disk>(
    store: &mut BookStore,
    disk: &mut D,
    row: usize,
) -> Result<(), StoreFault>
    requires row { row < store.old.rows }
    requires ready { IsStoreReady store.old (D.state disk.old) }
    ensures { TakesPlaceOf 0 (without_row store.old row) store.new store.old.held
        (D.state disk.old) (D.state disk.new) result }
{
    store.may_stage(disk);
    store.staged_empty(disk, row);
    store.stage_empty(row);
    match settle(store, disk) {
        Ok(()) => Ok(()),
        Err(fault) => Err(fault),
    }
}
