//! What became of a frame, and of a connection.

use dr_disk::Call;
use thiserror::Error;

/// A connection ended, after this many frames were answered.
#[derive(Clone, Copy, Debug)]
pub struct Ended {
    pub answered: u32,
}

/// Why a connection broke off.
#[derive(Clone, Copy, Debug, Error)]
pub enum ServeFault {
    /// Receiving failed.
    #[error("receiving failed")]
    Read,
    /// Sending failed.
    #[error("sending failed")]
    Write,
    /// A call on the disk failed, of this kind. The server has to be opened again.
    #[error("a call on the disk failed: {0:?}")]
    Store(Call),
}

/// One round of a connection.
#[derive(Clone, Copy, Debug)]
pub enum Round {
    /// The pipe has ended.
    AtEnd,
    /// A frame was answered; after it nothing is, where this says so.
    Answered(bool),
}
