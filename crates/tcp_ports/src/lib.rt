//! A link and a door over TCP. They tell nothing of content, and count each error. The door's next
//! connection is the first that has said something: so who is silent keeps nobody waiting. Each
//! call has a time, and so has each connection, which the bytes that go over it make longer, up to
//! a most: `Patience` says how. Neither uses the descriptor of a standard stream.
#![tactic(auto)]

pub use door::TcpDoor;
pub use link::TcpLink;
pub use patience::{Patience, RATE, Traffic, Whole, limits_in_numbers};

mod connection;
mod door;
mod link;
mod patience;
