//! Why a book refuses.

use client::SayRefusal;
use dr_disk::Call;
use thiserror::Error;

/// Why a call under a name isn't done.
#[derive(Drop)]
pub enum BookRefusal<R> {
    /// A call on the disk failed before, of this kind: the book has to be opened again.
    Closed { call: Call },
    /// No row has the name.
    NoName,
    /// The session of the row refuses it, or a call on the disk failed. It never says that the book
    /// was closed before.
    Of(R),
}

/// No row has the name.
#[derive(Clone, Copy, Debug, PartialEq, Eq, Error)]
#[error("no row has this name")]
pub struct NoName;

/// Why no session is begun.
#[derive(Clone, Copy, Debug, PartialEq, Eq, Error)]
pub enum BookBeginError {
    /// A call on the disk failed before, of this kind: the book has to be opened again.
    #[error("the book is closed, since a call on the disk failed before: {call:?}")]
    Closed { call: Call },
    /// The name isn't lawful.
    #[error("the name isn't lawful")]
    BadName,
    /// A row has the name.
    #[error("the name is taken")]
    NameTaken,
    /// All of so many rows are present.
    #[error("all {rows} rows are present")]
    BookFull { rows: u32 },
    /// There was no memory. No call on the disk was made.
    #[error("out of memory")]
    Memory,
    /// The agreement seed that follows from the key has no pair.
    #[error("the key gives no pair of keys")]
    NoPair,
    /// A call on the disk failed, of this kind: the book is closed.
    #[error("a call on the disk failed: {call:?}")]
    StoreFault { call: Call },
}

/// Why no session is forgotten.
#[derive(Clone, Copy, Debug, PartialEq, Eq, Error)]
pub enum ForgetError {
    /// A call on the disk failed before, of this kind: the book has to be opened again.
    #[error("the book is closed, since a call on the disk failed before: {call:?}")]
    Closed { call: Call },
    /// No row has the name.
    #[error("no row has this name")]
    NoName,
    /// A call on the disk failed, of this kind: the book is closed.
    #[error("a call on the disk failed: {call:?}")]
    StoreFault { call: Call },
}

/// Why a fan isn't done.
#[derive(Drop)]
pub enum FanRefusal {
    /// A call on the disk failed before, of this kind: the book has to be opened again.
    Closed { call: Call },
    /// It has no session.
    Nobody,
    /// The session at this place in it, from 0, refuses the text: it says so, or no seed could be
    /// drawn for it, or the seed has no pair.
    Peer { at: usize, refusal: SayRefusal },
    /// A call on the disk failed, of this kind: the book is closed.
    StoreFault { call: Call },
}
