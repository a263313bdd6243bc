//! Numbered pages on a disk, and two gated tables of which the newer open one names the pages that
//! count.
//!
//! A table is its gate (a5: open), its turn (1, 2 or 3), and what its directory lays out. Of two
//! open tables the newer is the one whose turn follows the other's in 1, 2, 3, 1. A page that it
//! doesn't name is free: what is written there changes nothing that a crash leaves, until a table
//! that names it is written and its gate is opened.
#![tactic(auto)]

pub use blanks::are_blank;
pub use clearing::wipe_unnamed;
pub use committing::commit;
pub use directory::Directory;
pub use judging::{Judged, is_open, judge, next_turn};
pub use layout::{LOWER_PAGES, Layout, OPEN, limits_in_numbers};
pub use page::{is_blank, read_page, write_page};
pub use putting::put;
pub use retiring::retire;
pub use rows::ROW_PAGES;
pub use tidying::tidy;
pub use writing::{wipe_pages, write_pages};

mod ahead;
mod blanks;
mod clearing;
mod committing;
mod directory;
mod judging;
mod layout;
mod page;
mod putting;
mod retiring;
mod rows;
mod steps;
mod synced;
mod tidying;
mod writing;
