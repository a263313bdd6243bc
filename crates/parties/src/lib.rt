//! The parties of a script: a side of a conversation, kept on a disk in memory.
//!
//! A `Party` is a client with that disk. It does an act as its client does (`act`), also on a disk
//! that stops in it and then crashes (`stopped`), or in which one write or sync fails (`failed`):
//! then its client is closed, until it is opened again (`opened`). It syncs with a relay in memory
//! (`sync`). What a stop comes to says `specs/Stops`, and what a failed call leaves `specs/Shuts`.
//!
//! ```rust
//! use client::Begin;
//! use parties::Party;
//! use scripts::Call;
//! use session_model::Items;
//!
//! let mut party = Party::<K>::begin(alloc, &begin)?;
//! // The third write or sync fails: `Err` tells its kind, and the client is closed.
//! let ended = party.failed(3, Call::Drop(Items::Packets, 1));
//! let party = party.opened(alloc)?;
//! ```
#![tactic(auto)]

pub use acts::{ClientCall, Seeded};
pub use handing::{goes_over, hand_over};
pub use party::{BeginError, Party};
pub use post::{Packet, Post};

mod acts;
mod cutting;
mod failing;
mod given;
mod handing;
mod meeting;
mod parts;
mod party;
mod post;
mod stopping;
mod syncing;
