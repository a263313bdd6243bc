//! The words of a command: what the program's arguments after its name ask for.
//!
//! `specs/Commands` has the table of the commands, `specs/Values` which of the words after a name
//! are its values.
//!
//! ```rust
//! use command_words::{Ask, parse};
//!
//! let Some(command) = parse(alloc, words)? else {
//!     .. // the words are no command
//! };
//! match (command.place, command.ask) {
//!     (Where::Folder, Ask::Say) => .. // `say TEXT`: the text is `command.value(0)`
//!     (Where::Book, Ask::Say) => .. // `book-say NAME TEXT`
//!     other => ..
//! }
//! ```
#![tactic(auto)]

pub use command::{Ask, Command, Where};
pub use limits::{CONNECTION_LIMIT, ID_LIMIT, PORT_LIMIT, ROUND_LIMIT, limits_in_numbers};
pub use words::parse;

mod application;
mod command;
mod limits;
mod named;
mod reading;
mod words;
