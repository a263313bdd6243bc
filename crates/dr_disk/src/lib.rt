//! A disk that may stop inside any write: what a read gives, what a crash may leave, and how
//! often its calls failed. The disks in memory tell all of it, and one of them stops or fails
//! where it is told to. The disk over a file is the crate `file_disk`.
#![tactic(auto)]

pub use call::{Call, Mode};
pub use disk::Disk;
pub use memory::{MemoryDisk, count_fault};
pub use recording::RecordingDisk;
pub use steady::SteadyDisk;
pub use synced::write_synced;

mod call;
mod disk;
mod memory;
mod meter;
mod plan;
mod platter;
mod recording;
mod steady;
mod synced;
mod tape;
