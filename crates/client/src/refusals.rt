//! Why a call on a client changed nothing, or closed it.

use crate::wording::InWords;
use dr_base::Key32;
use dr_disk::Call;
use session_model::Refusal;
use std::fmt;
use thiserror::Error;

/// Why a text isn't said.
#[derive(Drop, Error)]
pub enum SayRefusal {
    /// A call on the disk failed before, of this kind: the client has to be opened again.
    #[error("the client is closed, since a call on the disk failed before: {call:?}")]
    Closed { call: Call },
    /// The side says no such text now.
    #[error("the text is refused: {}", InWords(*.0))]
    Refused(Refusal),
    /// No seed could be drawn.
    #[error("no seed could be drawn")]
    DrawFault,
    /// The seed that was drawn has no pair.
    #[error("the seed gives no pair of keys")]
    NoPair { seed: Key32 },
    /// A call on the disk failed, of this kind: the client is closed.
    #[error("a call on the disk failed: {call:?}")]
    StoreFault { call: Call },
}

/// In words: a seed is never printed.
impl fmt::Debug for SayRefusal {
    fn fmt<W: fmt::Write>(&self, f: &mut fmt::Formatter<W>) -> Result<(), fmt::Error> {
        fmt::Display::fmt(self, f)
    }
}

/// Why a packet isn't taken.
#[derive(Clone, Copy, Debug, PartialEq, Eq, Error)]
pub enum TakeRefusal {
    /// A call on the disk failed before, of this kind: the client has to be opened again.
    #[error("the client is closed, since a call on the disk failed before: {call:?}")]
    Closed { call: Call },
    /// The packet doesn't open, or the inbox is full.
    #[error("the packet is refused: {}", InWords(*.0))]
    Refused(Refusal),
    /// A call on the disk failed, of this kind: the client is closed.
    #[error("a call on the disk failed: {call:?}")]
    StoreFault { call: Call },
}

/// Why nothing is dropped from a box.
#[derive(Clone, Copy, Debug, Error)]
pub enum DropRefusal {
    /// A call on the disk failed before, of this kind: the client has to be opened again.
    #[error("the client is closed, since a call on the disk failed before: {call:?}")]
    Closed { call: Call },
    /// What was to leave doesn't stand.
    #[error("nothing is dropped: {}", InWords(*.0))]
    Refused(Refusal),
    /// A call on the disk failed, of this kind: the client is closed.
    #[error("a call on the disk failed: {call:?}")]
    StoreFault { call: Call },
}

/// Why no client is opened.
#[derive(Clone, Copy, Debug, Error)]
pub enum OpenRefusal {
    /// There was no memory. No call on the disk was made.
    #[error("out of memory")]
    Memory,
    /// A call on the disk failed, of this kind.
    #[error("a call on the disk failed: {call:?}")]
    StoreFault { call: Call },
    /// What was read is no client's: the table, 0 or 1, and the first place in it that no record's
    /// table has, or 4,096 and the first place in the record's pages.
    #[error("slot {slot} is damaged at {at}")]
    Damaged { slot: u32, at: u64 },
    /// No table is open.
    #[error("no session was begun")]
    NoSession,
}

/// Why no client is begun.
#[derive(Clone, Copy, Debug, Error)]
pub enum BeginRefusal {
    /// There was no memory. No call on the disk was made.
    #[error("out of memory")]
    Memory,
    /// A call on the disk failed, of this kind.
    #[error("a call on the disk failed: {call:?}")]
    StoreFault { call: Call },
    /// What was read is no client's: the table, 0 or 1, and the first place in it that no record's
    /// table has, or 4,096 and the first place in the record's pages.
    #[error("slot {slot} is damaged at {at}")]
    Damaged { slot: u32, at: u64 },
    /// A session was begun before.
    #[error("a session was begun before")]
    Exists,
    /// The agreement seed that follows from the key has no pair.
    #[error("the key gives no pair of keys")]
    NoPair,
}

/// Why no core is begun.
#[derive(Clone, Copy, Debug, PartialEq, Eq, Error)]
pub enum CoreBeginError {
    /// There was no memory.
    #[error("out of memory")]
    Memory,
    /// The agreement seed that follows from the key has no pair.
    #[error("the key gives no pair of keys")]
    NoPair,
}
