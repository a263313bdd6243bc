//! Why no server is opened.

use dr_disk::Call;
use thiserror::Error;

/// Why no server is opened. Areas and boxes are counted from 0.
#[derive(Clone, Copy, Debug, PartialEq, Eq, Error)]
pub enum ServerOpenError {
    /// There was no memory.
    #[error("out of memory")]
    Memory,
    /// A call on the disk failed, of this kind.
    #[error("a call on the disk failed: {call:?}")]
    StoreFault { call: Call },
    /// What was read of an area is no store's with a box: the table, 0 or 1, and the first place in
    /// it that no record's table has, or 4,096 and the first place in the record's pages. Nothing
    /// was written to this area, nor to those after it.
    #[error("slot {slot} of area {area} is damaged at {at}")]
    Damaged { area: u32, slot: u32, at: u64 },
    /// The area of this box has the record of a box of another name. No record was put.
    #[error("the area of box {k} has another box")]
    BoxName { k: u32 },
    /// The area of this box has the record of the box with another guard: other keys, or a guard
    /// where it has no keys, or none where it has some. No record was put.
    #[error("the area of box {k} has its box with other keys")]
    BoxKeys { k: u32 },
}
