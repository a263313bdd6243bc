//! What commands share, whatever keeps the session: what they read, the lines that they write, and
//! how they close.
//!
//! `specs/Inputs` has what is read, `specs/Lines` the lines, `specs/Closing` how an act's outcome
//! ends a command. What a command comes to at a place on a disk is in `specs/Places`, `Acting`,
//! `InWorlds`, `Showing` and `Runs`.
#![tactic(auto)]

pub use closing::{close, finish_with, finish_written};
pub use input::{KEY_TEXT_LIMIT, PACKET_TEXT_LIMIT, Packet, read_key, read_long, read_packet};
pub use keys::write_keys;
pub use lines::{put_count, session_line};
pub use listing::{Listing, write_listing};
pub use longs::{close_long, write_said_part};
pub use outcomes::{dropped, said, said_at, taken};

mod closing;
mod input;
mod keys;
pub mod laws;
mod lines;
mod listing;
mod longs;
mod outcomes;
mod showing;
mod waiting;
