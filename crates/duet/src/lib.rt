//! Both sides of a conversation, which play a script.
//!
//! Each side is a party (the crate `parties`). A `Duet` has both of them, the network between them
//! and their relay, and does what a line says; `play` writes what comes of it, line by line.
//! `specs/Outcomes` says what comes of one deed, and `specs/Trace` what the lines of a script are;
//! that they are the machine's on worlds says `played_is_the_trace`.
//!
//! ```rust
//! use duet::{play, summary_lines};
//!
//! let tally = play::<K, _>(alloc, &script, &mut out)?;
//! write_all(&mut out, summary_lines(&tally).as_slice())?;
//! ```
#![tactic(auto)]

pub use laws::{played_is_the_trace, receipts_hold, tallied_is_the_machines};
pub use playing::{PlayError, play};
pub use summary::{SummaryText, summary_lines};
pub use tally::{SideTally, Tally};

mod deeds;
mod draws;
mod fails;
mod joining;
mod laws;
mod network;
mod playing;
mod posting;
mod preparing;
mod relaying;
mod reply;
mod sides;
mod stops;
mod summary;
mod syncing;
mod tally;
mod telling;
