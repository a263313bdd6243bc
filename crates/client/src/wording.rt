//! A session's refusal in words.

use answer_lines::put_refusal;
use dr_ports::OutputLine;
use session_model::Refusal;
use std::fmt;

/// A refusal in the words of its line, as `Spent 0.1`.
#[derive(Drop)]
pub(crate) struct InWords(pub(crate) Refusal);

impl fmt::Display for InWords {
    fn fmt<W: fmt::Write>(&self, f: &mut fmt::Formatter<W>) -> fmt::Result {
        let mut line = OutputLine::new();
        put_refusal(&mut line, self.0);
        match str::from_utf8(line.as_bytes()) {
            Ok(words) => f.write_str(words),
            Err(_) => Err(fmt::Error),
        }
    }
}
