//! A run in numbers, in lines.

ghost use Rattle.std.specs.Prelude.{◌≡◌, ◌+◌, ◌≤◌, ◌++◌, length, codes, decimal};
ghost use Rattle.duet.specs.Summary.{sides_text, summary_lines};

use crate::tally::Tally;
use arrayvec::ArrayVec;
use dr_ports::OutputLine;

/// The six lines of a run in numbers.
pub type SummaryText = ArrayVec<u8, 320>;

/// The line of the rounds.
fn rounds_text(rounds: u32) -> OutputLine
    ensures bytes { result ≡ codes "rounds " ++ decimal rounds ++ codes "\n" }
    ensures len { length result ≤ 28 }
{
    let mut line = OutputLine::new();
    line.text(b"rounds ");
    line.number(u64::from(rounds));
    line.text(b"\n");
    line
}

/// The line of a name with First's number and Second's.
#[tactic(auto, unfolding(crate::specs::Summary::sides_text))]
fn sides_text(name: &[u8], first: u32, second: u32) -> OutputLine
    requires { length name.now ≤ 8 }
    ensures bytes { result ≡ sides_text name.now first second }
    ensures len { length result ≤ 51 }
{
    let mut line = OutputLine::new();
    line.text(name);
    line.text(b" ");
    line.number(u64::from(first));
    line.text(b" ");
    line.number(u64::from(second));
    line.text(b"\n");
    line
}

/// Puts a line after what stands.
fn put(text: &mut SummaryText, line: &OutputLine)
    requires { length text.old.items + length line.now ≤ 320 }
    ensures bytes { text.new.items ≡ text.old.items ++ line.now }
    ensures len { length text.new.items ≡ length text.old.items + length line.now }
{
    text.try_extend_from_slice(line.as_bytes()).unwrap();
}

/// The lines of a run in numbers: its rounds, and what each side said, opened and refused, how far
/// it came and what it misses, First's number before Second's.
#[tactic(auto, unfolding(crate::specs::Summary::summary_lines))]
pub fn summary_lines(tally: &Tally) -> SummaryText
    ensures { result.items ≡ summary_lines tally.now }
{
    let (first, second) = (&tally.first, &tally.second);
    let mut text = SummaryText::new();
    put(&mut text, &rounds_text(tally.rounds));
    put(&mut text, &sides_text(b"said", first.said, second.said));
    put(
        &mut text,
        &sides_text(b"opened", first.opened, second.opened),
    );
    put(
        &mut text,
        &sides_text(b"refused", first.refused, second.refused),
    );
    put(&mut text, &sides_text(b"epoch", first.epoch, second.epoch));
    put(
        &mut text,
        &sides_text(b"missing", first.missing, second.missing),
    );
    text
}
