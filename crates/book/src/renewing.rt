//! Records in an earlier version are replaced by the same in the newest one, all in one commit.

ghost use Rattle.std.specs.Prelude.{◌*◌, ◌≡◌, ◌<◌, ◌≤◌, ℕ, IfOk, IsOk, List, None, OnOk, Option, Some, get_or, length, true};
ghost use Rattle.book_store.specs.Committing.{IsOldOrNewBook, KeepsRows, ReadsOutsideBook, call_of};
ghost use Rattle.book_store.specs.Kept.{row_bounds};
ghost use Rattle.book_store.specs.Shown.{BookRow};
ghost use Rattle.book_store.specs.Staging.{IsStagedOver, MayStage};
ghost use Rattle.book_store.specs.Store.{IsNewName, IsUnstaged};
ghost use Rattle.book_store.specs.declared.layout.TheConstants.{ROW_MOST};
ghost use Rattle.dr_base.specs.Bytes.{AreBytes};
ghost use Rattle.dr_disk.specs.Called.{Went};
ghost use Rattle.dr_disk.specs.Spans.{Span};
ghost use Rattle.pages.specs.Counted.{MakesAtMost};
ghost use Rattle.session_record.specs.Versions.{is_newest};
ghost use Rattle.paged_records.specs.Bounded.{HasRecordMemory};
ghost use Rattle.session_model.specs.Clients.{Client};
ghost use Rattle.book_model.specs.Rows.{Row as Named};
ghost use Rattle.book.specs.Books.{IsBookReady, IsStoreReady};
ghost use Rattle.book.specs.Opening.{AreNewest, AreRowsRead, IsRowRead};
ghost use Rattle.book.specs.Renewing.{HasFewDrops, Renews, RenewsRow, missed_by, renewings};
ghost use Rattle.book.specs.Rows.{stored};

use crate::beginning::write_now;
use crate::row::Row;
use crate::shelf::Shelf;
use crate::storing::settle;
use book_store::{BookStore, StoreFault, resting_books};
use dr_disk::Disk;
use kem_laws::Kem;
use session_record::{is_newest, record_law};

/// Bytes are below 256: a caller that needs this calls it.
fn are_bytes(bytes: &[u8])
    ensures { AreBytes bytes.now }
{
    let _bytes = bytes;
}

/// Whether each record of the first rows is in the newest version.
fn are_newest(store: &BookStore, count: usize) -> bool
    ensures all { result ≡ true → (r : ℕ) (row : BookRow) → r < count
        → get_or store.now.held r None ≡ Some row
        → (is_newest row.text ≡ true) × AreBytes row.text }
    ensures some { AreNewest store.now.held → result ≡ true }
{
    'rows: for at in 0..count {
        let content = store.content(at);
        are_bytes(content);
        if store.name(at).is_some() && !is_newest(content) {
            return false;
        }
    }
    true
}

/// Stages a row in the newest version, unless it is absent or in that one. Answers whether it did.
fn renew_row<K: Kem, D: Disk>(
    row: &Option<Row<K>>,
    at: usize,
    store: &mut BookStore,
    text: &mut Vec<u8>,
    disk: &mut D,
) -> Result<bool, StoreFault>
    requires here { at < store.old.rows }
    requires once { IsUnstaged store.old at }
    requires name { (session : Named Client) → row.now ≡ Some session
        → IsNewName store.old at session.name }
    requires may { MayStage store.old (D.state disk.old) }
    requires read { IsRowRead K.mechanism (get_or store.old.held at None) row.now }
    requires room { HasRecordMemory row_bounds text.old }
    ensures count { store.new.rows ≡ store.old.rows }
    ensures renews { IfOk result (λ staged. RenewsRow D.state staged at row.now
        store.old store.new disk.old disk.new) }
    ensures any_moment { (standing : List (Option BookRow))
        → IsStagedOver store.old standing (D.state disk.old) → Span (D.state disk.old)
        (D.state disk.new) (KeepsRows store.old.rows standing (D.state disk.old)) }
    ensures reads { ReadsOutsideBook store.old.rows (D.state disk.old) (D.state disk.new) }
    ensures went { Went call_of (D.state disk.old) (D.state disk.new) result }
    ensures few { MakesAtMost ROW_MOST missed_by (D.state disk.old) (D.state disk.new) result }
    ensures drops { HasFewDrops store.old → HasFewDrops store.new }
    ensures room { HasRecordMemory row_bounds text.new }
{
    record_law();
    match row {
        None => Ok(false),
        Some(row) => {
            let content = store.content(at);
            are_bytes(content);
            if is_newest(content) {
                return Ok(false);
            }
            let len = write_now(row.core.core(), text);
            match store.stage(disk, at, row.name.copied(), text, len) {
                Ok(()) => Ok(true),
                Err(fault) => Err(fault),
            }
        }
    }
}

/// Stages each row that is in an earlier version in the newest one.
fn renew_rows<K: Kem, D: Disk>(
    rows: &[Option<Row<K>>],
    store: &mut BookStore,
    text: &mut Vec<u8>,
    disk: &mut D,
) -> Result<(), StoreFault>
    requires ready { IsStoreReady store.old (D.state disk.old) }
    requires long { length rows.now ≡ store.old.rows }
    requires read { AreRowsRead K.mechanism store.old.held rows.now }
    requires room { HasRecordMemory row_bounds text.old }
    ensures count { store.new.rows ≡ store.old.rows }
    ensures renews { OnOk result (Renews rows.now store.old store.new (D.state disk.old)
        (D.state disk.new) (length rows.now)) }
    ensures any_moment { Span (D.state disk.old) (D.state disk.new)
        (KeepsRows store.old.rows store.old.held (D.state disk.old)) }
    ensures reads { ReadsOutsideBook store.old.rows (D.state disk.old) (D.state disk.new) }
    ensures went { Went call_of (D.state disk.old) (D.state disk.new) result }
    ensures few { MakesAtMost (ROW_MOST * length rows.now) missed_by
        (D.state disk.old) (D.state disk.new) result }
    ensures drops { OnOk result (HasFewDrops store.new) }
    ensures room { HasRecordMemory row_bounds text.new }
{
    resting_books();
    store.may_stage(disk);
    'rows: for at in 0..rows.len() {
        match renew_row(&rows[at], at, store, text, disk) {
            Ok(_) => {}
            Err(fault) => return Err(fault),
        }
    }
    Ok(())
}

impl<K: Kem> Shelf<K> {
    /// Replaces each record in an earlier version by the same in the newest one, all in one commit.
    /// Where there is none no call on the disk is made.
    pub(crate) fn renew<D: Disk>(&mut self, disk: &mut D) -> Result<(), StoreFault>
        requires ready { IsStoreReady self.old.book.store (D.state disk.old) }
        requires read { AreRowsRead K.mechanism self.old.book.store.held self.old.book.rows }
        ensures rows { self.new.book.rows ≡ self.old.book.rows }
        ensures count { OnOk result (self.new.book.store.rows ≡ self.old.book.store.rows) }
        ensures closed { self.new.book.closed ≡ self.old.book.closed }
        ensures ready { OnOk result (IsBookReady self.new.book (D.state disk.new)) }
        ensures any_moment { Span (D.state disk.old) (D.state disk.new)
            (IsOldOrNewBook self.old.book.store.rows self.old.book.store.held
            (stored self.old.book.rows) (D.state disk.old)) }
        ensures still { AreNewest self.old.book.store.held → IsOk result × (disk.new ≡ disk.old) }
        ensures reads { ReadsOutsideBook self.old.book.store.rows (D.state disk.old)
            (D.state disk.new) }
        ensures went { Went call_of (D.state disk.old) (D.state disk.new) result }
        ensures few { MakesAtMost (renewings (length self.old.book.rows)) missed_by
            (D.state disk.old) (D.state disk.new) result }
    {
        record_law();
        if are_newest(&self.store, self.rows.len()) {
            return Ok(());
        }
        match renew_rows(&self.rows, &mut self.store, &mut self.text, disk) {
            Ok(()) => {}
            Err(fault) => return Err(fault),
        }
        match settle(&mut self.store, disk) {
            Ok(()) => return Ok(()),
            Err(fault) => return Err(fault),
        }
    }
}
