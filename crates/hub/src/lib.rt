//! A hub says one text to up to eight peers, on a disk in memory that stops meanwhile.
//!
//! The hub is a book with a row for each peer. `fan_play` begins it, fans one text, lets the disk
//! stop and crash, and has each peer take what the hub, as recovered, holds for it. What comes of
//! that says `specs/Plays`.
#![tactic(auto)]

pub use peers::{PEERS_LIMIT, peer_name};
pub use playing::{FanPlayError, fan_play};

mod draws;
mod everyone;
mod hub;
mod lines;
mod opening;
mod peers;
mod playing;
mod receiving;
mod stopping;
