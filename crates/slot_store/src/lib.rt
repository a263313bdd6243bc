//! One record in pages of a disk, replaced so that a crash at any moment leaves the old one or the
//! new.
//!
//! Of two tables the newer open one names the record's pages. What changes of a record is written
//! to pages that it doesn't name, then the other table, and then its gate is opened.
#![tactic(auto)]

pub use area::Area;
pub use errors::{InspectError, OpenError, StoreFault};
pub use inspecting::inspect;
pub use laws::{locality, readings, resting, widening};
pub use limits::{LOOK_READS, OPENING_CALLS, OPENING_READS, limits_in_numbers};
pub use opening::Found;
pub use paged_records::Grammar;
pub use pages::LOWER_PAGES;
pub use record_pages::{NAMED_LIMIT, NUMBER_LIMIT};
pub use report::{Finding, Gate, Report};
pub use rooms::{lengthen, record_memory};
pub use store::SlotStore;

mod area;
mod errors;
mod inspecting;
mod laws;
mod limits;
mod locating;
mod looking;
mod opening;
mod outcome;
mod pager;
mod reading;
mod report;
mod rooms;
mod scratch;
mod settling;
mod store;
mod table;
