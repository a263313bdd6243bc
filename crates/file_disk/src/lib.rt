//! The disk over a file. It tells its size and its faults alone. Its file is found or made at the first
//! call and locked, takes its room in steps or at once, and never has the descriptor of a standard
//! stream. A sync that fails is made good by the next one, also in the next program.
#![tactic(auto)]

pub use file::FileDisk;
pub use opening::Sharing;
pub use own_file::limits_in_numbers;

mod file;
mod handle;
mod marks;
mod opening;
mod own_file;
