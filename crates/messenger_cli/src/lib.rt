//! The program as one call over its ports: it reads the words, does a command's work and says how
//! it ended.
#![tactic(auto)]

pub use arguments::run_arguments;
pub use book_store::{BOOK_SIZE, BOOK_START, ROW_SIZE};
pub use endings::Status;
pub use law::limits;
pub use ports::Ports;
pub use program::{DISK_SIZE, run};
pub use relay_command::{HALF_SIZE, RELAY_DISK_SIZE};

mod arguments;
mod fan_playing;
mod in_book;
mod in_folder;
mod law;
mod making;
mod mechanisms;
mod performing;
mod playing;
mod ports;
mod program;
