//! The work of the commands on a session, on a source, a sink, a disk, a link and draws: begin,
//! say, take, done, sent, check and sync, the four that show what the client keeps, the one
//! that shows a long text, the one that says one, and the one that shows the keys of its boxes.
//!
//! Each command but `begin` opens the client that the disk holds, lets it act at most once, sync,
//! or shows what it keeps, writes its lines and answers its status. `take`, `begin` and `say_long`
//! read the source first. `say_long` is a row of such runs, one for each part.
#![tactic(auto)]

pub use beginning::begin;
pub use checking::check;
pub use dropping::drop_items;
pub use keys::show_keys;
pub use long_saying::say_long;
pub use longs::long;
pub use saying::say;
pub use showing::show;
pub use syncing::sync;
pub use taking::take;

mod beginning;
mod checking;
mod dropping;
mod endings_of;
mod histories;
mod keys;
pub mod laws;
mod long_saying;
mod longs;
mod saying;
mod showing;
mod syncing;
mod taking;
mod whole_runs;
