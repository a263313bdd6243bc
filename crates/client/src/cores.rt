//! A side of a conversation in memory, and the drafts of its steps.

pub use drafts::Draft;
pub use reading::RecordReader;
pub use showing::Core;

mod accepting;
mod drafting;
mod drafts;
mod encoding;
mod measuring;
mod reading;
mod showing;
mod starting;
mod writing;
