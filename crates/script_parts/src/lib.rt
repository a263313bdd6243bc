//! What scripts are read by and made of: a text taken apart, as [`split_line`] takes its first
//! line, and the numbers that a script's rounds are drawn from, as [`next_number`] gives them.
#![tactic(auto)]

pub use numbers::next_number;
pub use split::{after_prefix, cut_at, split_line};

mod numbers;
mod split;
