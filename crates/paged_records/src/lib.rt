//! One record in pages: it lies in memory with the numbers of its pages, and a new one takes its place
//! by a plan of what is written and what is wiped. It is read where a table names it. How its table is
//! found, and what else stands on the disk, is the concern of the stores above.
#![tactic(auto)]

pub use bounds::Bounds;
pub use draft::Draft;
pub use grammar::Grammar;
pub use kept::{Kept, lengthen, record_memory};
pub use loading::{Loaded, load};
pub use planning::{replan, take_draft};

mod bounds;
mod draft;
mod grammar;
mod kept;
mod loading;
mod planning;
