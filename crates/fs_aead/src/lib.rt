//! Forward-secure streams of message keys, and the table of the keys that were passed over.
//!
//! A chain key gives one message key and the next chain key, each by HMAC with SHA-256 (RFC 2104),
//! and is gone then: no later chain key leads back to an earlier message key. One stream seals, and
//! one opens. A stream can't be copied, and each step takes it, so that no key is given twice.
//! Where texts come out of order, the keys that were passed over wait in a table of fixed room,
//! each for the text of its position. `Skipped` is such a table. It has kilobytes, so it is changed
//! where it stands: `Skipped::copy_from` makes it a copy of another. Its keys lie in rows, one for
//! each epoch that has some.
//!
//! ```rust
//! use dr_base::{Key32, Position};
//! use fs_aead::{ReceiveStream, SendStream, Skipped};
//!
//! let (sending, key) = SendStream::resume(Key32 { bytes: [7; 32] }, 0).next();
//! let mut text = *b"hi";
//! let tag: [u8; 32] = key.seal(b"to you", &mut text);
//! let (chain, sent) = sending.rest();
//!
//! // The keys of 1.1 and 1.2 wait in the table, and the next one is that of 1.3.
//! let mut skipped = Skipped::new();
//! let receiving = ReceiveStream::resume(Key32 { bytes: [7; 32] }, 0).advance(1, &mut skipped, 2);
//! let (receiving, late) = receiving.next();
//! if let Some(key) = skipped.take(Position { epoch: 1, index: 1 }) {
//!     let opened = key.open(b"to you", &mut text, &tag);
//! }
//! ```
#![tactic(auto)]

pub use kept::SkipLimit;
pub use laws::{
    keys_are_taken_once, passed_keys_ascend, rows_hold_whole_epochs, streams_give_each_key,
};
pub use receiving::ReceiveStream;
pub use rows::Row;
pub use sending::SendStream;
pub use table::Skipped;

mod chain;
mod kept;
mod laws;
mod receiving;
mod rows;
mod sending;
mod table;
