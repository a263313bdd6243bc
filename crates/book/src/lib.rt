//! Up to 32 sessions under names, kept in one store on a disk: an address book.
//!
//! Each call under a name is a step of that row's session alone, and replaces the row's record
//! before it answers, so a crash at any moment leaves all rows as they were or as they are then. A
//! call on the disk that fails closes the book, and the disk is opened again.
//!
//! What is answered under one name hangs on nothing that is asked under another (`laws`).
#![tactic(auto)]

pub use book::Book;
pub use book_store::BookOpenError;
pub use fans::{FAN_LIMIT, FanAddError, FanOut};
pub use refusals::{BookBeginError, BookRefusal, FanRefusal, ForgetError, NoName};

mod beginning;
mod book;
mod dropping;
mod fans;
mod keeping;
pub mod laws;
mod opening;
mod peers;
mod reading;
mod refusals;
mod renewing;
mod row;
mod saying;
mod seat;
mod shelf;
mod storing;
mod taking;
