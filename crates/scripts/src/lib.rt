//! Scripts of a conversation: what their lines say, read from a text, or made from a number.
#![tactic(auto)]

pub use call::{Call, Failure, LineCall, Source};
pub use called::parse_mode;
pub use hexed::{HEX_LIMIT, hex_bytes, limits_in_numbers};
pub use laws::lines_print_back;
pub use line::Line;
pub use lined::{Lined, Stop};
pub use lines::Lines;
pub use said::{Said, SaidPart};
pub use script::{KemName, Script, ScriptError};
pub use sides::{side_name, side_prefix};

mod call;
mod called;
mod head;
mod hexed;
mod laws;
mod line;
mod lined;
mod lines;
mod longs;
mod make;
mod number;
mod said;
mod script;
mod sides;
mod syncing;
mod words;
