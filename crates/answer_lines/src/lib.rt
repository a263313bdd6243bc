//! Answers, refusals, texts and long texts as lines: what the program and its scripts print of what
//! a client answers.
#![tactic(auto)]

pub use answers::{drop_word, put_answer, put_named, put_position, put_refusal, put_summary};
pub use longs::{put_long_refusal, write_long};
pub use texts::{
    HEAD_LIMIT, TEXT_LINE_LIMIT, limits_in_numbers, place_line, put_part_number, write_content,
};

mod answers;
mod longs;
mod texts;
