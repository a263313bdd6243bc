//! One side of a conversation, kept on a disk: a session with its boxes, whose whole state is one
//! record in pages.
//!
//! Each call that changes something replaces the record before it answers, so a crash at any moment
//! leaves the state before the call or the one after it. A call on the disk that fails closes the
//! client, and the disk is opened again.
//!
//! A client is a `Core` with the store that keeps its record. A core is the same side in memory
//! alone: a step of it is drafted, written as a record, and only then accepted.
//!
//! Two sides, each on a disk of `AREA_SIZE` bytes (`examples/two-sides` is this as a program):
//!
//! ```rust
//! use bodies::Format;
//! use client::Client;
//! use dr_base::Side;
//! use sntrup761::Sntrup761;
//!
//! let mut second =
//!     Client::<Sntrup761>::begin(alloc, &mut disk, Side::Second, Format::Receipts, &key)?;
//! let mut first =
//!     Client::<Sntrup761>::begin(alloc, &mut other, Side::First, Format::Receipts, &key)?;
//! second.say(&mut disk, b"are you there?", &mut draws)?;
//! if let Some((_, packet)) = second.outbox(0) {
//!     first.take(&mut other, packet)?;
//! }
//! ```
#![tactic(auto)]

pub use begin::Begin;
pub use client::{AREA_SIZE, Client};
pub use cores::{Core, Draft, RecordReader};
pub use dropping::drop_items;
pub use keepers::Keeper;
pub use looking::look;
pub use refusals::{
    BeginRefusal, CoreBeginError, DropRefusal, OpenRefusal, SayRefusal, TakeRefusal,
};
pub use saying::say;
pub use syncing::{Names, SyncFault, SyncRefusal, box_bytes};
pub use taking::take;

mod begin;
mod beginning;
mod client;
mod cores;
mod dropping;
mod histories;
mod keepers;
mod keeping;
pub mod laws;
mod long_laws;
mod long_texts;
mod looking;
mod opening;
mod refusals;
mod room;
mod saying;
mod syncing;
mod taking;
mod wording;
