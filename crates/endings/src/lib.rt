//! How a command of the program ends: a row for each way, with its status and its last line, and
//! the writing of that line.
#![tactic(auto)]

pub use ending::Ending;
pub use peer_name::PeerName;
pub use status::{Status, UNWRITTEN, finish};

mod ending;
mod peer_name;
mod status;
