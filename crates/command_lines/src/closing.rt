//! The end of a command: its lines, and its last line.

ghost use Rattle.std.specs.Prelude.{◌≡◌, ◌≤◌, ℕ, List};
ghost use Rattle.dr_ports.specs.States.{SinkState};
ghost use Rattle.dr_ports.specs.Writing.{Writes};
ghost use Rattle.endings.specs.Ends.{Ends};
ghost use Rattle.endings.specs.declared.ending.Ending.TheVariants.{Done};
ghost use Rattle.command_lines.specs.Closing.{printed_answer, ending_by, lines_of_ending};

use answer_lines::put_answer;
use dr_ports::{Failed, OutputLine, Sink, write_all};
use endings::{Ending, Status, UNWRITTEN, finish};
use session_model::Answer;

/// The line of an answer.
fn answer_line(answer: Answer) -> OutputLine
    ensures { result ≡ printed_answer answer }
{
    let mut line = OutputLine::new();
    put_answer(&mut line, answer);
    line.text(b"\n");
    line
}

/// The status of a command that did its work and whose lines were written, or of which a write
/// failed.
pub fn finish_written<O: Sink>(out: &mut O, wrote: Result<(), Failed>) -> Status
    ensures ends { (lines : List ℕ) (old : SinkState) → Writes old (O.at out.old) lines wrote
        → Ends Done lines old (O.at out.new) result.code }
    ensures later { (O.at out.old).faults ≤ (O.at out.new).faults }
{
    match wrote {
        Ok(()) => finish(out, Ending::Done),
        Err(Failed) => UNWRITTEN,
    }
}

/// Writes the lines of a command that did its work.
pub fn finish_with<O: Sink>(out: &mut O, lines: &[u8]) -> Status
    ensures ends { Ends Done lines.now (O.at out.old) (O.at out.new) result.code }
    ensures later { (O.at out.old).faults ≤ (O.at out.new).faults }
{
    let wrote = write_all(out, lines);
    finish_written(out, wrote)
}

/// Writes the line of an answer, or the last line of another ending.
pub fn close<O: Sink>(out: &mut O, worked: Result<Answer, Ending>) -> Status
    ensures ends { Ends (ending_by worked) (lines_of_ending worked) (O.at out.old)
        (O.at out.new) result.code }
    ensures later { (O.at out.old).faults ≤ (O.at out.new).faults }
{
    match worked {
        Ok(answer) => finish_with(out, answer_line(answer).as_bytes()),
        Err(ending) => finish(out, ending),
    }
}
