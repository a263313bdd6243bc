//! The lines of long texts.

ghost use Rattle.std.specs.Prelude.{◌≡◌, ◌+◌, ◌≤◌, ◌++◌, codes, flat_map, length};
ghost use Rattle.dr_base.specs.declared.limits.TheConstants.{TEXT_LIMIT};
ghost use Rattle.dr_ports.specs.Writing.{Writes};
ghost use Rattle.answer_lines.specs.declared.texts.TheConstants.{HEAD_LIMIT};
ghost use Rattle.answer_lines.specs.Longs.{long_head, long_line, long_refusal_text};
ghost use Rattle.answer_lines.specs.Texts.{escaped};

use crate::answers::{put_named, put_position};
use crate::texts::{TextLine, put_text};
use dr_base::TEXT_LIMIT;
use dr_ports::{Failed, OutputLine, ROOM, Sink, write_all};
use long_text::LongRefusal;

/// Writes the bytes of a piece of a text. The room that they take in a line stands only here.
#[inline(never)]
fn write_piece<O: Sink>(out: &mut O, piece: &[u8]) -> Result<(), Failed>
    requires { length piece.now ≤ TEXT_LIMIT }
    ensures { Writes (O.at out.old) (O.at out.new) (flat_map escaped piece.now) result }
{
    let mut line = TextLine::new();
    put_text(&mut line, piece);
    write_all(out, line.as_slice())
}

/// Writes the bytes of a text, piece by piece.
fn write_text<O: Sink>(out: &mut O, text: &[u8]) -> Result<(), Failed>
    ensures { Writes (O.at out.old) (O.at out.new) (flat_map escaped text.now) result }
{
    let mut done = 0;
    'pieces: while done < text.len() {
        let size = (text.len() - done).min(TEXT_LIMIT);
        match write_piece(out, &text[done..done + size]) {
            Err(Failed) => return Err(Failed),
            Ok(()) => done += size,
        }
    }
    Ok(())
}

/// What stands before a long text.
#[tactic(auto, unfolding(crate::specs::Longs::long_head))]
fn long_head(head: &[u8], id: u32) -> OutputLine
    requires { length head.now ≤ HEAD_LIMIT }
    ensures { result ≡ long_head head.now id }
{
    let mut line = OutputLine::new();
    line.text(head);
    put_named(&mut line, b"long ", u64::from(id));
    line.text(b" \"");
    line
}

/// Writes the bytes of a long text, and the end of its line.
fn write_rest<O: Sink>(out: &mut O, text: &[u8]) -> Result<(), Failed>
    ensures { Writes (O.at out.old) (O.at out.new) (flat_map escaped text.now ++ codes "\"\n")
        result }
{
    match write_text(out, text) {
        Err(Failed) => Err(Failed),
        Ok(()) => write_all(out, b"\"\n"),
    }
}

/// Writes the line of the long text of an id, after a head, as a side's name: `HEAD long ID "text"`.
/// Its bytes are as those of a text in an inbox. It takes no memory.
pub fn write_long<O: Sink>(out: &mut O, head: &[u8], id: u32, text: &[u8]) -> Result<(), Failed>
    requires { length head.now ≤ HEAD_LIMIT }
    ensures { Writes (O.at out.old) (O.at out.new) (long_line head.now id text.now) result }
{
    match write_all(out, long_head(head, id).as_bytes()) {
        Err(Failed) => Err(Failed),
        Ok(()) => write_rest(out, text),
    }
}

/// Puts why an inbox has no long text after what stands.
#[tactic(auto, unfolding(crate::specs::Longs::long_refusal_text))]
pub fn put_long_refusal(line: &mut OutputLine, refusal: LongRefusal)
    requires { length line.old + 89 ≤ ROOM }
    ensures bytes { line.new ≡ line.old ++ long_refusal_text refusal }
    ensures len { length line.new ≤ length line.old + 89 }
{
    match refusal {
        LongRefusal::NoLong => line.text(b"NoLong"),
        LongRefusal::Clash { first, second } => {
            line.text(b"Clash ");
            put_position(line, first);
            line.text(b" ");
            put_position(line, second);
        }
        LongRefusal::Parts { have, n } => {
            put_named(line, b"Parts ", u64::from(have));
            put_named(line, b" ", u64::from(n));
        }
    }
}
