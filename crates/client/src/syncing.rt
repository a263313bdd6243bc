//! A sync of a client with a relay.

pub use faults::{SyncFault, SyncRefusal};
pub use laws::{goes_over, sent_behind_the_disk};
pub use naming::{Names, box_bytes};

mod collecting;
mod faults;
mod fetching;
mod keys;
mod laws;
mod lines;
mod naming;
mod posting;
mod steps;
mod sync;
mod tokens;
