//! The lines of a trace.

ghost use Rattle.std.specs.Prelude.{◌≡◌, ◌≤◌, length};
ghost use Rattle.duet.specs.Replies.{call_name, closed_line, failed_line, open_line, reply_line, unjoined_line};

use answer_lines::{put_answer, put_long_refusal};
use dr_base::Side;
use dr_disk::Call;
use dr_ports::OutputLine;
use long_text::LongRefusal;
use scripts::side_name;
use session_model::Answer;

/// The line of a side's event with its answer; a seed has none.
#[tactic(auto, unfolding(crate::specs::Replies::reply_line))]
pub fn reply(side: Side, answer: Answer) -> OutputLine
    ensures { result ≡ reply_line side answer }
{
    let mut line = OutputLine::new();
    if matches!(answer, Answer::Seeded) {
        return line;
    }
    line.text(side_name(side));
    put_answer(&mut line, answer);
    line.text(b"\n");
    line
}

/// The line of why a side has no long text.
#[tactic(auto, unfolding(crate::specs::Replies::unjoined_line))]
pub fn unjoined_line(side: Side, refusal: LongRefusal) -> OutputLine
    ensures { result ≡ unjoined_line side refusal }
{
    let mut line = OutputLine::new();
    line.text(side_name(side));
    line.text(b"refused ");
    put_long_refusal(&mut line, refusal);
    line.text(b"\n");
    line
}

/// A kind of call.
fn call_name(call: Call) -> &'static [u8]
    ensures text { result.now ≡ call_name call }
    ensures short { length result.now ≤ 5 }
{
    match call {
        Call::Read => b"read",
        Call::Write => b"write",
        Call::Sync => b"sync",
    }
}

/// The line that a call of this kind has failed.
#[tactic(auto, unfolding(crate::specs::Replies::failed_line))]
pub fn failed_line(side: Side, call: Call) -> OutputLine
    ensures { result ≡ failed_line side call }
{
    let mut line = OutputLine::new();
    line.text(side_name(side));
    line.text(b"fault ");
    line.text(call_name(call));
    line.text(b"\n");
    line
}

/// The line that one of this kind has closed the client.
#[tactic(auto, unfolding(crate::specs::Replies::closed_line))]
pub fn closed_line(side: Side, call: Call) -> OutputLine
    ensures { result ≡ closed_line side call }
{
    let mut line = OutputLine::new();
    line.text(side_name(side));
    line.text(b"closed ");
    line.text(call_name(call));
    line.text(b"\n");
    line
}

/// The line of an opening, by whether the client was closed.
#[tactic(auto, unfolding(crate::specs::Replies::open_line))]
pub fn open_line(side: Side, was_closed: bool) -> OutputLine
    ensures { result ≡ open_line side was_closed }
{
    let mut line = OutputLine::new();
    line.text(side_name(side));
    if was_closed {
        line.text(b"ready\n");
    } else {
        line.text(b"nothing\n");
    }
    line
}
