//! Why a book's store refuses.

use dr_disk::Call;
use thiserror::Error;

/// A call on the disk failed, of this kind. The store has to be opened again.
#[derive(Clone, Copy, Debug, PartialEq, Eq, Error)]
#[error("a call on the disk failed")]
pub struct StoreFault {
    pub call: Call,
}

/// Why a book couldn't be opened.
#[derive(Clone, Copy, Debug, PartialEq, Eq, Error)]
pub enum BookOpenError {
    /// There was no memory. Nothing was written.
    #[error("out of memory")]
    Memory,
    /// A call on the disk failed, of this kind.
    #[error("a call on the disk failed")]
    StoreFault { call: Call },
    /// What was read is no book's: the table, 0 or 1, and the first place in it that no book's
    /// table has. Nothing was written.
    #[error("book table {table} is damaged at {at}")]
    DamagedTable { table: u32, at: u64 },
    /// What was read is no book's: the first row whose record is none, and 4,096 and the first
    /// place in the record's pages that no record has. Nothing was written.
    #[error("book row {row} is damaged at {at}")]
    DamagedRow { row: u32, at: u64 },
}
