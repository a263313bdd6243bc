//! Grammars of texts of many fields: a printer and a reader that are tied by one law and put
//! together field by field.
//!
//! `specs/Reader` has the readers and what they are put together with, `specs/Printer` the
//! printers, `specs/Grammar` the law. That a combination of grammars is a grammar is shown in
//! `proofs/`, one lemma for each way of combining. The code of a reader is written with a `Cursor`,
//! and has the control flow of its reader.
//!
//! ```rust
//! use grammar::Cursor;
//!
//! // a number of one byte below 10, or the place of the fault
//! fn digit(cursor: &mut Cursor<'_>) -> Result<u8, usize> {
//!     let at = cursor.at();
//!     let digit = cursor.number8()?;
//!     if digit < 10 { Ok(digit) } else { Err(at) }
//! }
//! ```
#![tactic(auto)]

pub use cursor::Cursor;

mod cursor;
