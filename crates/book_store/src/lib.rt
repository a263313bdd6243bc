//! An address book on a disk: rows with names, each with one record in pages of its own, and one
//! table that names the pages of all rows. Several rows change under one commit.
#![tactic(auto)]

pub use desk::Desk;
pub use errors::{BookOpenError, StoreFault};
pub use judging::book_fault;
pub use laws::{
    all_or_none, faultless_tables_are_laid, laid_tables_are_faultless, opened_books_may_stage,
    resting_books, stay_as_they_were, zeros_are_at_rest,
};
pub use layout::{
    BOOK_ROWS, BOOK_SIZE, BOOK_START, BOOK_TABLE, RECORD_PLACE, ROW_MOST, ROW_PAGES, ROW_SIZE,
    TABLE_ROW, limits_in_numbers,
};
pub use paged_records::Grammar;
pub use record::row_bounds;
pub use row_grammar::RowGrammar;
pub use store::{BookStore, words};

mod changing;
mod desk;
mod errors;
mod gathering;
mod held;
mod judging;
mod laws;
mod layout;
mod loading;
mod locating;
mod naming;
mod opening;
mod reading;
mod record;
mod rooms;
mod row_grammar;
mod rows;
mod scratch;
mod settling;
mod store;
mod table;
mod taking;
