//! The outside, as traits: where bytes and seeds come from and where bytes go. Each port counts its
//! faults, and tells what it holds or has taken where it can. The forms in memory tell all and fail
//! where they are told to; the adapters stand over std's reader and writer and over a source of
//! random bytes.
#![tactic(auto)]

pub use adapter::{RandomDraws, ReaderSource, WriterSink};
pub use dr_base::Failed;
pub use memory::door::MemoryDoor;
pub use memory::draws::{MemoryDraws, SteadyDraws};
pub use memory::link::{ADDRESS_LIMIT, MemoryLink};
pub use memory::pipe::MemoryPipe;
pub use memory::plan::CallPlan;
pub use memory::sink::{MemorySink, NullSink};
pub use memory::source::{MemorySource, SteadySource};
pub use output_line::{OutputLine, ROOM, limits_in_numbers};
pub use pipe::{Door, Link, Part, Pipe, Stand};
pub use port::{Draws, Sink, Source};
pub use reading::{InputError, read_whole};
pub use writing::write_all;

mod adapter;
mod memory;
mod output_line;
mod pipe;
mod port;
mod reading;
mod writing;
