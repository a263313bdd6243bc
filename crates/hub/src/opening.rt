//! A book is opened from a disk in memory whose calls all pass.

ghost use Rattle.std.specs.Prelude.{◌≡◌, ◌≤◌, IfOk};
ghost use Rattle.book_model.specs.Rows.{Rows};
ghost use Rattle.book_store.specs.Layout.{HasBook};
ghost use Rattle.book_store.specs.declared.layout.TheConstants.{BOOK_ROWS};
ghost use Rattle.dr_disk.specs.MemoryDisks.{state_of};
ghost use Rattle.dr_disk.specs.State.{Fate};
ghost use Rattle.session_model.specs.Clients.{Client};
ghost use Rattle.hub.specs.Held.{HoldsRows, HoldsSessions, IsHeld, IsWantOfMemory};

use book::{Book, BookOpenError};
use dr_disk::MemoryDisk;
use kem_laws::Kem;
use session_record::record_law;
use std::alloc::{AllocError, Global};

/// Why an opening failed, where that is want of memory.
fn want_of_memory(error: BookOpenError) -> AllocError
    requires { IsWantOfMemory error }
{
    match error {
        BookOpenError::Memory => AllocError,
        _ => unreachable!(),
    }
}

/// The book of so many rows that a disk holds, all of whose calls pass. It isn't refused: its only
/// error is want of memory.
pub(crate) fn opened<K: Kem>(
    alloc: Global,
    disk: &mut MemoryDisk,
    rows: u32,
) -> Result<Book<K>, AllocError>
    requires few { rows ≤ BOOK_ROWS }
    requires within { HasBook rows (state_of disk.old) }
    requires passes { (state_of disk.old).fate ≡ Fate.all_pass }
    requires holds { HoldsSessions K.mechanism rows (state_of disk.old) }
    ensures rows { IfOk result (λ book. (sessions : Rows Client)
        → HoldsRows K.mechanism rows sessions (state_of disk.old) → book.rows ≡ sessions) }
    ensures held { IfOk result (λ book. IsHeld rows book disk.new) }
{
    record_law();
    match Book::<K>::open(alloc, disk, rows) {
        Ok(book) => Ok(book),
        Err(error) => Err(want_of_memory(error)),
    }
}
