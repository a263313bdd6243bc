//! One text is said in several sessions of a book, in all of them or in none.
//!
//! Each session is asked first: its draft is made with its seed, and discarded. Only where all of
//! them say the text is anything staged. A draft lends its room and has to be spent, so eight don't
//! stand side by side: each is made again from its seed, and is the same.

pub use list::{FAN_LIMIT, FanAddError, FanOut};

mod asking;
mod fan;
mod list;
mod putting;
mod rows;
