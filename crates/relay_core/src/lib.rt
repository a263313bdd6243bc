//! The boxes of a relay: lists of packets under numbers that rise, the guard that a box may have,
//! what they reply to requests, and their records.
//!
//! `specs/Boxes` says what a box replies and what it is then, `specs/Streams` what a whole stream
//! is answered, `specs/Counters` that no counter is served twice, `specs/Record` the bytes of a
//! box's record. All memory is taken when a relay is made.
//!
//! ```rust
//! use relay_core::Relay;
//! use relay_wire::{Packet, Request};
//!
//! let mut relay = Relay::new(alloc, &specs)?;
//! // Stored(1) as a frame in `out`, and the place of the box that changed
//! let (len, changed) = relay.answer(&Request::post(name.lent(), packet), &mut out);
//! ```
#![tactic(auto)]

pub use answering::{Answered, answer_frame};
pub use checking::check_box;
pub use limits::{BOX_LIMIT, EXCHANGE_LIMIT, RECORD_LIMIT, RELAY_LIMIT};
pub use loading::Loaded;
pub use relay::Relay;
pub use spec::{BoxKeys, BoxSpec};

mod answering;
mod checking;
mod guard_reading;
mod guard_writing;
mod guarding;
mod kept_packet;
pub mod laws;
mod limits;
mod loading;
mod mailbox;
mod reading;
mod relay;
mod rooms;
mod spec;
mod versions;
mod writing;
