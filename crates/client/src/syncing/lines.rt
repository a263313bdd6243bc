//! The lines of a sync.

ghost use Rattle.std.specs.Prelude.{◌≡◌, ◌≤◌, ◌++◌};
ghost use Rattle.dr_ports.specs.Writing.{Writes};
ghost use Rattle.client.specs.Syncing.Lines.{answer_line, end_line, stored_line};
ghost use Rattle.client.specs.Syncing.Moments.{IsAnswerWritten};
ghost use Rattle.client.specs.Syncing.Parties.{is_inbox_full, is_no_room};

use super::faults::{SyncFault, SyncRefusal};
use answer_lines::{put_answer, put_named};
use dr_ports::{Failed, OutputLine, Sink, write_all};
use session_model::{Answer, Refusal};
use sync_model::More;

/// Writes a line after a prefix.
fn write_line<O: Sink>(out: &mut O, prefix: &str, line: &OutputLine) -> Result<(), Failed>
    ensures { Writes (O.at out.old) (O.at out.new) (prefix.now ++ line.now) result }
{
    match write_all(out, prefix.as_bytes()) {
        Err(Failed) => Err(Failed),
        Ok(()) => write_all(out, line.as_bytes()),
    }
}

/// Writes the answer to a packet.
#[tactic(auto, unfolding(crate::specs::Syncing::Lines::answer_line))]
fn write_answer<O: Sink>(out: &mut O, prefix: &str, answer: Answer) -> Result<(), Failed>
    ensures { Writes (O.at out.old) (O.at out.new) (answer_line prefix.now answer) result }
{
    let mut line = OutputLine::new();
    put_answer(&mut line, answer);
    line.text(b"\n");
    write_line(out, prefix, &line)
}

/// Whether a refusal says that the inbox is full.
fn is_no_room(refusal: Refusal) -> bool
    ensures { result ≡ is_no_room refusal }
{
    match refusal {
        Refusal::InboxFull => true,
        _ => false,
    }
}

/// Whether there was no room for the text of a packet.
fn is_full(answer: Answer) -> bool
    ensures { result ≡ is_inbox_full answer }
{
    match answer {
        Answer::Refused(refusal) => is_no_room(refusal),
        _ => false,
    }
}

/// Writes the answer to a packet, if there was room for its text.
pub(crate) fn answered<O: Sink>(out: &mut O, prefix: &str, answer: Answer) -> Result<(), SyncFault>
    ensures answers { IsAnswerWritten (answer_line prefix.now answer) (is_inbox_full answer)
        (O.at out.old) (O.at out.new) result }
    ensures later { (O.at out.old).faults ≤ (O.at out.new).faults }
{
    if is_full(answer) {
        return Err(SyncFault::Refused(SyncRefusal::InboxFull));
    }
    match write_answer(out, prefix, answer) {
        Err(Failed) => Err(SyncFault::Write),
        Ok(()) => Ok(()),
    }
}

/// Writes that the relay keeps a packet.
#[tactic(auto, unfolding(crate::specs::Syncing::Lines::stored_line))]
pub(crate) fn write_stored<O: Sink>(out: &mut O, prefix: &str, number: u64) -> Result<(), Failed>
    ensures { Writes (O.at out.old) (O.at out.new) (stored_line prefix.now number) result }
{
    let mut line = OutputLine::new();
    put_named(&mut line, b"stored ", number);
    line.text(b"\n");
    write_line(out, prefix, &line)
}

/// Writes the last line.
#[tactic(auto, unfolding(crate::specs::Syncing::Lines::end_line))]
pub(crate) fn write_end<O: Sink>(out: &mut O, prefix: &str, more: More) -> Result<(), Failed>
    ensures { Writes (O.at out.old) (O.at out.new) (end_line prefix.now more) result }
{
    let mut line = OutputLine::new();
    match more {
        More::More => line.text(b"more\n"),
        More::End => line.text(b"end\n"),
    }
    write_line(out, prefix, &line)
}
