//! A relay whose boxes stand on a disk: it serves one connection after the other.
//!
//! Each box is a record in an area of its own. A reply that says that something was kept or dropped
//! goes out after the record that has it is on the disk.
//!
//! ```rust
//! use relay_server::Server;
//!
//! let mut server = Server::open(alloc, &mut disk, &specs)?;
//! let ended = server.serve(&mut disk, &mut pipe)?; // how many frames were answered
//! ```
#![tactic(auto)]

pub use durable::DurableBoxes;
pub use errors::ServerOpenError;
pub use limits::{HALF_SIZE, UPPER_START};
pub use relay_core::{Answered, BoxSpec};
pub use server::{Looked, Server};
pub use serving::{Ended, Round, ServeFault};

mod answering;
mod areas;
mod durable;
mod errors;
mod filling;
pub mod laws;
mod limits;
mod opening;
mod server;
mod serving;
