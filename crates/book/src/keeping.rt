//! A row's session changes: its record takes the place of the row's on the disk, and then the
//! session changes.

ghost use Rattle.std.specs.Prelude.{◌≡◌, IfSome, OnErr, OnOk, get_or, is_some, take, true, None};
ghost use Rattle.book_store.specs.Kept.{row_bounds};
ghost use Rattle.book_store.specs.Store.{with_row, writes_at};
ghost use Rattle.paged_records.specs.Bounded.{HasRecordMemory, HasText};
ghost use Rattle.session_record.specs.Record.{record_text};
ghost use Rattle.client.specs.Drafting.{IsDraftOf, drafted_client};
ghost use Rattle.book.specs.Books.{IsStoreReady};
ghost use Rattle.book.specs.Changing.{TakesPlaceOf};
ghost use Rattle.book.specs.RowKeepings.{kept_of, known_name, name_of, with_kept};
ghost use Rattle.book.specs.Rows.{stored_row};

use crate::row::Row;
use crate::storing::put_row;
use book_store::{BookStore, StoreFault, row_bounds};
use client::{Core, Draft};
use dr_disk::Disk;
use kem_laws::Kem;
use paged_records::lengthen;

/// Writes the record that a draft leads to, and answers its length.
pub(crate) fn write_draft<K: Kem>(core: &Core<K>, draft: &Draft<'_, K>, text: &mut Vec<u8>) -> usize
    requires draft { IsDraftOf K.mechanism core.now draft.now }
    requires room { HasRecordMemory row_bounds text.old }
    ensures text { HasText row_bounds text.new result }
    ensures written { take result text.new.items ≡ record_text (drafted_client core.now draft.now) }
{
    let long = core.encoded_len(draft);
    lengthen(row_bounds(), text, long);
    core.encode(draft, text)
}

/// Keeps what was drafted of the session of a row that is present.
// Inlined, so that the draft stays where it is.
#[inline(always)]
pub(crate) fn keep_row<K: Kem, D: Disk>(
    row: &mut Option<Row<K>>,
    at: usize,
    store: &mut BookStore,
    text: &mut Vec<u8>,
    disk: &mut D,
    draft: Draft<'_, K>,
) -> Result<(), StoreFault>
    requires draft { IsDraftOf K.mechanism (kept_of row.old) draft }
    requires there { is_some row.old ≡ true }
    requires here { get_or store.old.held at None ≡ stored_row row.old }
    requires ready { IsStoreReady store.old (D.state disk.old) }
    requires room { HasRecordMemory row_bounds text.old }
    ensures next { OnOk result
        (row.new ≡ with_kept row.old (drafted_client (kept_of row.old) draft.entry)) }
    ensures keeps { OnErr result (row.new ≡ row.old) }
    ensures takes { let text = record_text (drafted_client (kept_of row.old) draft.entry) in
        TakesPlaceOf (writes_at store.old at text)
        (with_row store.old at (known_name (name_of row.old)) text) store.new store.old.held
        (D.state disk.old) (D.state disk.new) result }
    ensures room { HasRecordMemory row_bounds text.new }
{
    match row {
        Some(row) => {
            let len = write_draft(row.core.core(), &draft, text);
            match put_row(store, disk, at, row.name.copied(), text, len) {
                Ok(()) => {
                    row.core.accept(draft);
                    Ok(())
                }
                Err(fault) => {
                    draft.discard();
                    Err(fault)
                }
            }
        }
        None => {
            draft.discard();
            unreachable!()
        }
    }
}
