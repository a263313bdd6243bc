//! Frames over a pipe: one that comes is pulled whole, all bytes of one that goes, and a request
//! with its reply.
//!
//! Nobody reads ahead: the pipe gave the frames that were read and what the reader holds.
#![tactic(auto)]

pub use asking::ask;
pub use faults::{AskFault, PeerFault, PeerKind};
pub use pulling::{pull, send_all};

mod asking;
mod faults;
mod pulling;
