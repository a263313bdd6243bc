//! The work of the commands on an address book, on a source, a sink, a disk and draws: begin, say,
//! take, done, sent, fan, forget and list, and those that show what a session keeps.
//!
//! Each command opens the book that the disk holds, calls it at most once or shows what it has,
//! writes its lines and answers its status. `take` and `begin` read the source first. A command
//! under a name comes to what its word on a session alone comes to, at the row of the name
//! (`specs/Places`): the other rows stay.
#![tactic(auto)]

pub use beginning::begin;
pub use dropping::drop_items;
pub use fanning::fan;
pub use forgetting::forget;
pub use listing::list;
pub use saying::say;
pub use showing::show;
pub use taking::take;

mod beginning;
mod dropping;
mod endings_of;
mod fan_lines;
mod fanning;
mod forgetting;
pub mod laws;
mod lines;
mod listing;
mod outcomes;
mod saying;
mod showing;
mod taking;
