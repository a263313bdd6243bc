//! Where those who come in by a door over TCP wait: [`Hall::next`] gives the first that has said
//! something, so who is silent keeps nobody waiting. Neither it nor its guests use the descriptor
//! of a standard stream, which [`is_own`] tells.
#![tactic(auto)]

pub use descriptors::is_own;
pub use hall::{Hall, SEATS};

mod descriptors;
mod guests;
mod hall;
