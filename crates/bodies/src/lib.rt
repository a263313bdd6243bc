//! What a packet seals, its body: a text as it is, a text padded, or a receipt, a kind and a text,
//! padded together.
//!
//! A packet of version `PLAIN` seals its text as it is. One of version `PADDED` seals the text's
//! length (2 bytes, the high one first), the text, and zeros up to the least multiple of 256 bytes.
//! One of version `RECEIPTS` seals in this way a receipt, a kind (1 byte) and a content of that
//! kind: a text, or a part of a long one. A receipt is a byte 00; or 01, its bound, and the
//! positions that it lists after their count (1 byte).
//!
//! `specs/Bodies` defines all three, sealed and opened, and `specs/Receipts` what receipts are and
//! what they cover. `bodies_law` says that what was sealed is opened, and nothing else,
//! `receipts_law` that what an honest receipt covers was opened, and that it covers what was,
//! `lengths_law` how many bytes are sealed.
//!
//! ```rust
//! use bodies::{Body, open_body, put_sealed, sealed_len};
//! use dr_base::{PADDED, SEALED_LIMIT, Side};
//!
//! let mut room = [0; SEALED_LIMIT];
//! let body = Body::text(b"hi");
//! let len = sealed_len(PADDED, &body); // 256
//! let end = put_sealed(PADDED, &mut room, 0, &body);
//! let opened = open_body(PADDED, Side::First, &room[..end]);
//! // a body whose content is b"hi", lent from the room
//! ```
#![tactic(auto)]

pub use body::{Body, body_place};
pub use boxes::{PART_KIND, TEXT_KIND};
pub use format::Format;
pub use law::{bodies_law, lengths_law, receipts_law};
pub use limits::{BODY_LIMIT, limits_in_numbers};
pub use opening::open_body;
pub use receipt::{Receipt, is_covered};
pub use sealing::{put_sealed, sealed_len};

mod body;
mod format;
mod law;
mod limits;
mod opening;
mod padding;
mod reading;
mod receipt;
mod sealing;
