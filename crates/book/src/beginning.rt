//! A session is begun under a name, and one is forgotten.

ghost use Rattle.std.specs.Prelude.{◌≡◌, ◌<◌, IfErr, IfOk, None, OnErr, OnOk, Some, get_or, length, slice_set, take};
ghost use Rattle.book_model.specs.Steps.{begins, forgets};
ghost use Rattle.book_store.specs.Kept.{row_bounds};
ghost use Rattle.book_store.specs.Store.{IsNewName, with_row, without_row, writes_at};
ghost use Rattle.paged_records.specs.Bounded.{HasRecordMemory, HasText};
ghost use Rattle.session_record.specs.Record.{record_text};
ghost use Rattle.client.specs.Beginning.{begin_of};
ghost use Rattle.book.specs.Beginning.{BeginsIn};
ghost use Rattle.book.specs.Books.{IsStoreReady, MayBookAct};
ghost use Rattle.book.specs.Changing.{TakesPlaceOf};
ghost use Rattle.book.specs.Forgetting.{ForgetsIn};
ghost use Rattle.book.specs.Machines.{IsStep};
ghost use Rattle.book.specs.Stepping.{begun_as, forgotten_as};

use crate::book::Book;
use crate::refusals::{BookBeginError, ForgetError};
use crate::row::Row;
use crate::seat::Seat;
use crate::shelf::Shelf;
use crate::storing::{clear_row, put_row};
use bodies::Format;
use book_store::{StoreFault, row_bounds};
use client::{Core, CoreBeginError, Keeper};
use dr_base::{Key32, Side};
use dr_disk::Disk;
use kem_laws::Kem;
use paged_records::lengthen;
use relay_wire::Name;
use std::alloc::Global;

/// Writes a core's record, and answers its length.
pub(crate) fn write_now<K: Kem>(core: &Core<K>, text: &mut Vec<u8>) -> usize
    requires { HasRecordMemory row_bounds text.old }
    ensures text { HasText row_bounds text.new result }
    ensures written { take result text.new.items ≡ record_text core.now }
{
    let long = core.encoded_len_now();
    lengthen(row_bounds(), text, long);
    core.encode_now(text)
}

impl<K: Kem> Shelf<K> {
    /// Puts a session into an absent row. A call on the disk that fails closes the book.
    fn add<D: Disk>(&mut self, disk: &mut D, at: usize, row: Row<K>) -> Result<(), StoreFault>
        requires row { at < self.old.book.store.rows }
        requires name { IsNewName self.old.book.store at row.name }
        requires ready { IsStoreReady self.old.book.store (D.state disk.old) }
        ensures rows { OnOk result
            (self.new.book.rows ≡ slice_set self.old.book.rows at (Some row)) }
        ensures stays { OnOk result (self.new.book.closed ≡ self.old.book.closed) }
        ensures keeps { OnErr result (self.new.book.rows ≡ self.old.book.rows) }
        ensures closes { IfErr result (λ fault. self.new.book.closed ≡ Some fault.call) }
        ensures takes { TakesPlaceOf (writes_at self.old.book.store at (record_text row.kept))
            (with_row self.old.book.store at row.name (record_text row.kept))
            self.new.book.store self.old.book.store.held
            (D.state disk.old) (D.state disk.new) result }
    {
        let len = write_now(row.core.core(), &mut self.text);
        match put_row(
            &mut self.store,
            disk,
            at,
            row.name.copied(),
            &mut self.text,
            len,
        ) {
            Ok(()) => {
                self.rows[at] = Some(row);
                Ok(())
            }
            Err(fault) => {
                self.closed = Some(fault.call);
                Err(fault)
            }
        }
    }

    /// Makes a row absent. A call on the disk that fails closes the book.
    fn clear<D: Disk>(&mut self, disk: &mut D, at: usize) -> Result<(), StoreFault>
        requires row { at < self.old.book.store.rows }
        requires ready { IsStoreReady self.old.book.store (D.state disk.old) }
        ensures rows { OnOk result (self.new.book.rows ≡ slice_set self.old.book.rows at None) }
        ensures stays { OnOk result (self.new.book.closed ≡ self.old.book.closed) }
        ensures keeps { OnErr result (self.new.book.rows ≡ self.old.book.rows) }
        ensures closes { IfErr result (λ fault. self.new.book.closed ≡ Some fault.call) }
        ensures takes { TakesPlaceOf 0 (without_row self.old.book.store at)
            self.new.book.store self.old.book.store.held
            (D.state disk.old) (D.state disk.new) result }
    {
        match clear_row(&mut self.store, disk, at) {
            Ok(()) => {
                self.rows[at] = None;
                Ok(())
            }
            Err(fault) => {
                self.closed = Some(fault.call);
                Err(fault)
            }
        }
    }
}

impl<K: Kem> Book<K> {
    /// Begins the session of a side under a name, in the lowest absent row, and puts its record.
    /// `Closed` exactly where a call on the disk failed before, then `BadName` exactly where the
    /// name isn't lawful, `NameTaken` exactly where a row has it, `BookFull` exactly where all rows
    /// are present, `Memory` only where it was wanting, and `NoPair` exactly where the agreement
    /// seed of the key has none. None of these changes anything or calls the disk. A `StoreFault`
    /// closes the book, which shows what it showed.
    pub fn begin<D: Disk>(
        &mut self,
        alloc: Global,
        disk: &mut D,
        name: &str,
        side: Side,
        format: Format,
        key: &Key32,
    ) -> Result<(), BookBeginError>
        requires { MayBookAct self.old (D.state disk.old) }
        ensures begins { BeginsIn D.state K.mechanism name.now (begin_of side format key.now)
            self.old self.new disk.old disk.new result }
        ensures steps { IsStep K.mechanism self.old self.new name.now
            (begins (begin_of side format key.now)) (begun_as result) }
    {
        if let Some(call) = self.shelf.closed() {
            return Err(BookBeginError::Closed { call });
        }
        let Some(own) = Name::new(name.as_bytes()) else {
            return Err(BookBeginError::BadName);
        };
        if let Some(_) = self.shelf.place(name) {
            return Err(BookBeginError::NameTaken);
        }
        let Some(at) = self.shelf.free() else {
            return Err(BookBeginError::BookFull {
                rows: self.shelf.count(),
            });
        };
        let Ok(seat) = Seat::take(alloc) else {
            return Err(BookBeginError::Memory);
        };
        let core = match Core::begin(alloc, side, format, key) {
            Ok(core) => core,
            Err(CoreBeginError::Memory) => return Err(BookBeginError::Memory),
            Err(CoreBeginError::NoPair) => return Err(BookBeginError::NoPair),
        };
        let row = Row {
            name: own,
            core: seat.fill(core),
        };
        match self.shelf.add(disk, at, row) {
            Ok(()) => return Ok(()),
            Err(fault) => return Err(BookBeginError::StoreFault { call: fault.call }),
        }
    }

    /// Forgets the session of a name: its row is absent then. `Closed` exactly where a call on the
    /// disk failed before, then `NoName` exactly where no row has the name: neither changes
    /// anything or calls the disk. A `StoreFault` closes the book, which shows what it showed.
    pub fn forget<D: Disk>(&mut self, disk: &mut D, name: &str) -> Result<(), ForgetError>
        requires { MayBookAct self.old (D.state disk.old) }
        ensures forgets { ForgetsIn D.state name.now self.old self.new disk.old disk.new result }
        ensures steps { IsStep K.mechanism self.old self.new name.now forgets
            (forgotten_as result) }
    {
        if let Some(call) = self.shelf.closed() {
            return Err(ForgetError::Closed { call });
        }
        let Some(at) = self.shelf.place(name) else {
            return Err(ForgetError::NoName);
        };
        match self.shelf.clear(disk, at) {
            Ok(()) => return Ok(()),
            Err(fault) => return Err(ForgetError::StoreFault { call: fault.call }),
        }
    }
}
