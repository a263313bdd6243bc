//! One side of a conversation as plain values: what a session keeps, what it answers to a text or a
//! packet, and its boxes. The definitions stand in specs/. The code's share is what a session keeps
//! (`SessionPart` and its parts, among them the texts that wait for a receipt), the receipt that it
//! sends, the copying of its head in place, the keys of its boxes at a relay, and the enums of
//! answers and refusals.
#![tactic(auto)]

pub use answer::{Amount, Answer, Items, Refusal, Summary, Which};
pub use awaiting::Awaiting;
pub use contents::content_check;
pub use part::{Head, LentPart, Own, Phase, Reception, SessionPart, copy_of_key};
pub use refusals::{ReceiveRefusal, SendRefusal};
pub use relay_keys::{RELAY_KEYS_SIZE, RelayKeys, are_long, is_long};

mod answer;
mod awaiting;
mod contents;
mod copying;
mod part;
mod receipts;
mod refusals;
mod relay_keys;
