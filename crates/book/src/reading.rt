//! The sessions of a book's rows are read from their records.

ghost use Rattle.std.specs.Prelude.{◌≡◌, ◌<◌, ◌≤◌, [], ℕ, IfOk, None, Some, get_or, length, true, vec_capacity};
ghost use Rattle.book_store.specs.declared.layout.TheConstants.{BOOK_ROWS};
ghost use Rattle.book_store.specs.Readers.{HasReadRow, HaveReadRows};
ghost use Rattle.book_store.specs.Shown.{BookRow};
ghost use Rattle.relay_wire.specs.Names.{is_name};
ghost use Rattle.client.specs.Opening.{client_record_fault};
ghost use Rattle.client.specs.Reading.{HasReadClient, HasReadNothing};
ghost use Rattle.book.specs.Opening.{AreRowsRead, IsRowRead};

use crate::row::Row;
use crate::seat::Seat;
use book_store::{BookStore, Grammar, RowGrammar};
use client::RecordReader;
use kem_laws::Kem;
use relay_wire::Name;
use std::alloc::{AllocError, Global};
use std::mem::replace;

/// Reads the record of one row. It is on the heap, and has the room of the session that is read.
#[derive(Drop)]
pub(crate) struct RowReader<K: Kem> {
    reader: Box<RecordReader<K>>,
    seat: Seat<K>,
}

impl<K: Kem> Grammar for RowReader<K> {
    ghost fault_at = { λ text. client_record_fault K.mechanism text };

    ghost is_new = { λ r. HasReadNothing r.reader.value.session r.reader.value.room.inbox r.reader.value.room.outbox };

    ghost has_read = { λ r text. HasReadClient K.mechanism
        r.reader.value.session r.reader.value.room.inbox r.reader.value.room.outbox r.reader.value.keys text };

    fn read(&mut self, text: &[u8]) -> Result<(), u32> {
        self.reader.read(text)
    }
}

impl<K: Kem> RowGrammar for RowReader<K> {
    fn fresh(alloc: Global) -> Result<RowReader<K>, AllocError> {
        let reader = RecordReader::new(alloc)?;
        Ok(RowReader {
            reader: Box::new(alloc, reader)?,
            seat: Seat::take(alloc)?,
        })
    }
}

/// The session that was read of a row, under the row's name.
fn row_read<K: Kem>(store: &BookStore, at: usize, reader: RowReader<K>) -> Option<Row<K>>
    requires read { (row : BookRow) → get_or store.now.held at None ≡ Some row
        → HasReadClient K.mechanism reader.reader.value.session reader.reader.value.room.inbox
        reader.reader.value.room.outbox reader.reader.value.keys row.text }
    requires some { (row : BookRow) × (get_or store.now.held at None ≡ Some row)
        × (is_name row.name ≡ true) }
    ensures { IsRowRead K.mechanism (get_or store.now.held at None) result }
{
    let RowReader { reader, seat } = reader;
    match store.name(at) {
        Some(name) => match Name::new(name.as_bytes()) {
            Some(name) => Some(Row {
                name,
                core: seat.fill(Box::into_inner(reader).into_core()),
            }),
            None => unreachable!(),
        },
        None => unreachable!(),
    }
}

/// Fills in the sessions of the first rows, each from its reader.
pub(crate) fn fill_rows<K: Kem>(
    store: &BookStore,
    mut readers: Vec<Option<RowReader<K>>>,
    rows: &mut Vec<Option<Row<K>>>,
    count: usize,
)
    requires none { rows.old.items ≡ [] }
    requires room { count ≤ vec_capacity rows.old }
    requires most { count ≤ BOOK_ROWS }
    requires read { HaveReadRows (λ r text. HasReadClient K.mechanism r.reader.value.session
        r.reader.value.room.inbox r.reader.value.room.outbox r.reader.value.keys text) readers.items store.now.held }
    requires names { (r : ℕ) (row : BookRow) → get_or store.now.held r None ≡ Some row
        → is_name row.name ≡ true }
    ensures long { length rows.new.items ≡ count }
    ensures read { (r : ℕ) → r < count
        → IsRowRead K.mechanism (get_or store.now.held r None) (get_or rows.new.items r None) }
{
    'rows: for at in 0..count {
        let row = match replace(&mut readers[at], None) {
            Some(reader) => row_read(store, at, reader),
            None => None,
        };
        rows.push(row).unwrap();
    }
}
