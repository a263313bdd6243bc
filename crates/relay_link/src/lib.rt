//! A link to a relay in memory, which may lose a reply and break off there.
//!
//! The relay answers what is sent, frame by frame, and its boxes stand from one connection to the
//! next. `specs/Connections` says what the link tells, and `specs/Playing` that a sync over it is a
//! scene. All memory is taken when it is made.
//!
//! ```rust
//! use relay_link::RelayLink;
//!
//! let mut link = RelayLink::new(alloc, &specs)?;
//! link.connect(Some(2)); // the second request is answered, and its reply lost
//! ```
#![tactic(auto)]

pub use law::plays;
pub use limits::{REPLY_LIMIT, SENT_LIMIT, limits_in_numbers};
pub use link::RelayLink;

mod desk;
mod law;
mod limits;
mod link;
