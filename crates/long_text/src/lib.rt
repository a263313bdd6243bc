//! Long texts: what is longer than one text comes in parts, each of them the content of an entry.
//!
//! A part has the id of its long text (4 bytes, the highest first), its number from 1 (1 byte), the
//! count of parts (1 byte), and its bytes. A text is cut after each `PART_LIMIT` bytes, and an
//! empty one is one part. The parts stand in an inbox, in whatever order they came, and some of
//! them perhaps more than once: `long` joins those of one id, or says what is lacking or clashes.
//!
//! `boxes` defines parts, `specs/Longs` says what those of an id make up, `specs/Cuts` how a text
//! is cut. `laws::told_is_long` says that a text whose parts stand in an inbox is what is joined.
//!
//! ```rust
//! use boxes::Inbox;
//! use long_text::{LONG_LIMIT, LongRefusal, PART_KIND, cut_part, long, part_count, put_part};
//!
//! let count = part_count(text);
//! if let Some(part) = cut_part(text, 7, 1) {
//!     let end = put_part(&mut room, 0, &part); // the content of an entry of kind PART_KIND
//! }
//! match long(&inbox, 7, &mut whole) {
//!     Ok(len) => {} // the text stands in whole[..len]
//!     Err(LongRefusal::Parts { have, n }) => {} // so many of its n parts stand
//!     Err(_) => {}
//! }
//! ```
#![tactic(auto)]

pub use boxes::{PART_HEAD, PART_KIND, PART_LIMIT, PARTS_LIMIT, Part, parse_part, put_part};
pub use cutting::{cut_part, part_count};
pub use joining::long;
pub use limits::LONG_LIMIT;
pub use refusal::LongRefusal;

mod cutting;
mod finding;
mod joining;
pub mod laws;
mod limits;
mod refusal;
