//! The two boxes of a client: the texts that came in, and the packets that wait to go out.
//!
//! Each box is a list with a limit, the oldest first. All its memory is taken when it is made, room
//! for as many items as it may hold, each of the greatest size: no later call allocates. An item
//! stays in its room: to append one copies its bytes, and to drop the oldest moves only numbers.
//! `Row` is such a list at any limit and any greatest size.
//!
//! ```rust
//! use boxes::{Fewer, Inbox, TEXT_KIND};
//! use dr_base::Position;
//!
//! let mut inbox = Inbox::new(alloc)?;
//! let pushed = inbox.push(Position { epoch: 1, index: 1 }, TEXT_KIND, b"hi");
//! if let Some(oldest) = inbox.at(0) {
//!     let text: &[u8] = oldest.text;
//! }
//! let dropped = inbox.drop_first(1); // Ok: the one text that stood is gone
//! let refused = inbox.drop_first(1); // Err(Fewer { held: 0 })
//! ```
#![tactic(auto)]

pub use errors::{Fewer, Full, NoLong};
pub use inbox::{Entry, Inbox};
pub use kinds::{PART_KIND, TEXT_KIND, is_content};
pub use limits::{PART_HEAD, PART_LIMIT, PARTS_LIMIT};
pub use outbox::Outbox;
pub use part::{Part, is_part, parse_part, put_part};
pub use row::{Row, Stored};

mod errors;
mod inbox;
mod kinds;
pub mod laws;
mod leaving;
mod limits;
mod outbox;
mod part;
mod row;
