//! A record in pages: how it is cut, the table that names its pages, and what a new record changes
//! of them. All of it is memory; what stands on a disk is the concern of the crates above.
#![tactic(auto)]

pub use cutting::{holds_piece, page_count};
pub use free::fill_free;
pub use judging::{nonzero, table_fault};
pub use limits::{NAMED_LIMIT, NUMBER_LIMIT, limits_in_numbers};
pub use planning::{Plan, plan_pages};
pub use table::{lay_out_table, number_at, record_length};

mod cutting;
mod free;
mod judging;
mod limits;
mod planning;
mod table;
