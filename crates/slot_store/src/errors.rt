//! Why a store refuses.

use dr_disk::Call;
use thiserror::Error;

/// A call on the disk failed, of this kind. The store has to be opened again.
#[derive(Clone, Copy, Debug, PartialEq, Eq, Error)]
#[error("a call on the disk failed")]
pub struct StoreFault {
    pub call: Call,
}

/// Why a store couldn't be opened.
#[derive(Clone, Copy, Debug, PartialEq, Eq, Error)]
pub enum OpenError {
    /// There was no memory. No call on the disk was made.
    #[error("out of memory")]
    Memory,
    /// A call on the disk failed, of this kind.
    #[error("a call on the disk failed")]
    StoreFault { call: Call },
    /// What was read is no store's: the table, 0 or 1, and the first place in it that no record's
    /// table has, or 4,096 and the first place in the record's pages. Nothing was written.
    #[error("slot {slot} is damaged at {at}")]
    Damaged { slot: u32, at: u64 },
}

/// Why an area couldn't be looked at.
#[derive(Clone, Copy, Debug, PartialEq, Eq, Error)]
pub enum InspectError {
    /// There was no memory. No call on the disk was made.
    #[error("out of memory")]
    Memory,
    /// A call on the disk failed, of this kind: a read.
    #[error("a call on the disk failed")]
    StoreFault { call: Call },
}
