//! The command that serves a relay: it opens the boxes that its words name on a disk, listens, and
//! serves one connection after the other, with a line for each.
#![tactic(auto)]

pub use relay_server::HALF_SIZE;
pub use relaying::{RELAY_DISK_SIZE, relay};

mod box_words;
mod connecting;
pub mod laws;
mod lines;
mod names;
mod relaying;
mod serving;
