//! The conversation of two people who each run the program on a disk of their own: what both
//! disks stand for, over all that they run, with crashes in it and between. There is no code here:
//! what one side's commands promise is in `session_commands`, and these are laws over both.
#![tactic(auto)]

mod going_on;
pub mod laws;
mod meeting;
mod opening;
