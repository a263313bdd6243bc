//! A book is opened from its disk.

ghost use Rattle.std.specs.Prelude.{◌+◌, ◌≡◌, ◌≢◌, ◌≤◌, List, Some, ℕ, IfErr, IfOk, OnOk};
ghost use Rattle.book_store.specs.Counts.{faulted, opening_reads, openings};
ghost use Rattle.book_store.specs.Layout.{HasBook};
ghost use Rattle.book_store.specs.Opened.{IsBookLeft, IsBookReadAtRest, IsBookRefused, IsLookedAt};
ghost use Rattle.book_store.specs.Shown.{stored_rows};
ghost use Rattle.book_store.specs.declared.layout.TheConstants.{BOOK_ROWS};
ghost use Rattle.dr_disk.specs.Spans.{IsQuiet, Span};
ghost use Rattle.dr_disk.specs.State.{Fate, OnSeen};
ghost use Rattle.dr_disk.specs.declared.call.Call.{Call};
ghost use Rattle.pages.specs.Counted.{MakesAtMost, ReadsAtMost};
ghost use Rattle.client.specs.Opening.{client_record_fault};
ghost use Rattle.book.specs.Renewing.{renewings};
ghost use Rattle.book.specs.Opening.{AreNewest, IsAsReadBook, IsBookReadNewest, IsEntryOrAsReadBook, IsOpenedBook};

use crate::book::Book;
use crate::reading::{RowReader, fill_rows};
use crate::shelf::Shelf;
use book_store::{BookOpenError, BookStore, resting_books, row_bounds};
use dr_disk::Disk;
use kem_laws::Kem;
use paged_records::record_memory;
use std::alloc::Global;

impl<K: Kem> Book<K> {
    /// Opens the book of so many rows that the disk holds: a sync, the reading of its table and of
    /// each row's record, and the wiping of all else; then records of an earlier version are
    /// replaced by the same in the newest one, all in one commit. `DamagedTable` and `DamagedRow`
    /// only where what was read is no book's, and nothing was written then; `Ok` only where it is
    /// one. `StoreFault` only where a call on the disk failed, and with `Memory` nothing was
    /// written.
    pub fn open<D: Disk>(alloc: Global, disk: &mut D, rows: u32) -> Result<Book<K>, BookOpenError>
        requires few { rows ≤ BOOK_ROWS }
        requires within { HasBook rows (D.state disk.old) }
        ensures opened { IfOk result
            (IsOpenedBook K.mechanism rows (D.state disk.old) (D.state disk.new)) }
        // Meanwhile, and in each ending, crashes and reads give what they gave, but for what was
        // tidied, and for the records in the newest version, which come all at once.
        ensures any_moment { Span (D.state disk.old) (D.state disk.new)
            (IsEntryOrAsReadBook K.mechanism rows (D.state disk.old)) }
        ensures reads { OnSeen (IsAsReadBook K.mechanism rows (D.state disk.old))
            (D.state disk.new) }
        // A book that was read at rest, with all records in the newest version, is left as it is,
        // after one sync. However it ends writes and syncs are bounded, the one that failed among
        // them; and where no record is in an earlier version so are reads, and fewer are made.
        ensures still { IsBookReadAtRest rows (D.state disk.old)
            → IsBookReadNewest rows (D.state disk.old)
            → IsBookLeft (D.state disk.old) (D.state disk.new) result }
        ensures few { MakesAtMost (openings rows + renewings rows) faulted
            (D.state disk.old) (D.state disk.new) result }
        ensures looked { (s : List ℕ) → (D.state disk.old).seen ≡ Some s
            → AreNewest (stored_rows rows s)
            → ReadsAtMost (opening_reads rows) (D.state disk.old) (D.state disk.new)
            × MakesAtMost (openings rows) faulted (D.state disk.old) (D.state disk.new) result }
        // Each refusal has its cause.
        ensures refused { IfErr result (IsBookRefused (client_record_fault K.mechanism) rows
            (D.state disk.old) (D.state disk.new)) }
        ensures memory { IfErr result (λ e. e ≡ BookOpenError.Memory
            → IsLookedAt (D.state disk.old) (D.state disk.new)) }
        ensures quiet { OnOk result (IsQuiet (D.state disk.old) (D.state disk.new)) }
        ensures fate { (D.state disk.old).fate ≡ Fate.all_pass →
            IfErr result (λ e. (call : Call) → e ≢ BookOpenError.StoreFault call)
            × ((D.state disk.new).fate ≡ Fate.all_pass) }
    {
        resting_books();
        let Ok(text) = record_memory(alloc, row_bounds()) else {
            return Err(BookOpenError::Memory);
        };
        let Ok(mut held) = Vec::with_capacity(alloc, rows as usize) else {
            return Err(BookOpenError::Memory);
        };
        let (store, readers) = match BookStore::open::<RowReader<K>, D>(alloc, disk, rows) {
            Ok(both) => both,
            Err(error) => return Err(error),
        };
        fill_rows(&store, readers, &mut held, rows as usize);
        let mut shelf = Shelf {
            rows: held,
            store,
            text,
            closed: None,
            at: 0,
        };
        match shelf.renew(disk) {
            Ok(()) => return Ok(Book { shelf }),
            Err(fault) => return Err(BookOpenError::StoreFault { call: fault.call }),
        }
    }
}
