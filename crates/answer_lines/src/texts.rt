//! The lines of texts and parts: those of an inbox, and the positions of those that wait for a
//! receipt.

ghost use Rattle.std.specs.Prelude.{◌≡◌, ℕ, ◌+◌, ◌*◌, ◌≤◌, List, ◌++◌, flat_map, length};
ghost use Rattle.boxes.specs.Seen.{entry_seen};
ghost use Rattle.dr_ports.specs.Writing.{Writes};
ghost use Rattle.answer_lines.specs.declared.texts.TheConstants.{HEAD_LIMIT, TEXT_LINE_LIMIT};
ghost use Rattle.answer_lines.specs.Texts.{content_line, escaped, is_plain, part_held, part_line, part_number_text, place_line, text_line};
ghost use Rattle.answer_lines.specs.Limits.{HasLimits};

use crate::answers::{put_named, put_position};
use arrayvec::ArrayVec;
use boxes::{Entry, PART_KIND, Part, parse_part};
use dr_base::{Position, TEXT_LIMIT};
use dr_ports::{Failed, OutputLine, ROOM, Sink, write_all};

/// The longest head of a line, in bytes: a side's name.
pub const HEAD_LIMIT: usize = 8;

/// The longest line of a text, in bytes: each byte of the text takes four at most, and what stands
/// around it has room.
pub const TEXT_LINE_LIMIT: usize = 4 * TEXT_LIMIT + 96;

/// The line of a text.
pub type TextLine = ArrayVec<u8, TEXT_LINE_LIMIT>;

/// Whether a byte stands for itself.
fn is_plain(byte: u8) -> bool
    ensures { result ≡ is_plain byte }
{
    (byte >= b' ' && byte <= b'~') && !(byte == b'"' || byte == b'\\')
}

/// Puts one byte of a text after what stands.
#[tactic(auto, using(crate::proofs::Escaping::plain_byte))]
fn put_escaped(line: &mut TextLine, byte: u8)
    requires { length line.old.items + 4 ≤ TEXT_LINE_LIMIT }
    ensures bytes { line.new.items ≡ line.old.items ++ escaped byte }
    ensures len { length line.new.items ≤ length line.old.items + 4 }
{
    if is_plain(byte) {
        line.push(byte);
        return;
    }
    let mut digits = [0; 2];
    hex::encode_to_slice([byte], &mut digits).unwrap();
    line.try_extend_from_slice(b"\\x").unwrap();
    line.try_extend_from_slice(&digits).unwrap();
}

/// Puts the bytes of a text after what stands.
pub(crate) fn put_text(line: &mut TextLine, text: &[u8])
    requires { length line.old.items + 4 * length text.now ≤ TEXT_LINE_LIMIT }
    ensures bytes { line.new.items ≡ line.old.items ++ flat_map escaped text.now }
    ensures len { length line.new.items ≤ length line.old.items + 4 * length text.now }
{
    'bytes: for byte in text {
        put_escaped(line, *byte);
    }
}

/// The line of a text with its position, after a head, as a side's name: `HEAD t.i "text"`, in
/// which each byte that isn't printable, a quote or a backslash is `\x` and two hex digits.
#[tactic(auto, unfolding(crate::specs::Texts::text_line))]
fn text_line(head: &[u8], entry: &Entry<'_>) -> TextLine
    requires head { length head.now ≤ HEAD_LIMIT }
    requires text { length entry.now.text.now ≤ TEXT_LIMIT }
    ensures { result.items ≡ text_line head.now (entry_seen entry.now) }
{
    let mut begin = OutputLine::new();
    begin.text(head);
    put_position(&mut begin, entry.position);
    begin.text(b" \"");
    let mut line = TextLine::new();
    line.try_extend_from_slice(begin.as_bytes()).unwrap();
    put_text(&mut line, entry.text);
    line.try_extend_from_slice(b"\"\n").unwrap();
    line
}

/// Puts which of how many parts a part is after what stands: ` part K/N`.
#[tactic(auto, unfolding(crate::specs::Texts::part_number_text))]
pub fn put_part_number(line: &mut OutputLine, number: u8, count: u8)
    requires { length line.old + 47 ≤ ROOM }
    ensures bytes { line.new ≡ line.old ++ part_number_text number count }
    ensures len { length line.new ≤ length line.old + 47 }
{
    put_named(line, b" part ", u64::from(number));
    put_named(line, b"/", u64::from(count));
}

/// The line of a part with its position, after a head: `HEAD t.i part K/N of ID`.
#[tactic(auto, unfolding(crate::specs::Texts::part_line))]
fn part_line(head: &[u8], position: Position, part: &Part<'_>) -> OutputLine
    requires { length head.now ≤ HEAD_LIMIT }
    ensures { result ≡ part_line head.now position part.now }
{
    let mut line = OutputLine::new();
    line.text(head);
    put_position(&mut line, position);
    put_part_number(&mut line, part.number, part.count);
    put_named(&mut line, b" of ", u64::from(part.id));
    line.text(b"\n");
    line
}

/// The part that an entry holds, if that is what it holds.
fn part_held<'a>(entry: &Entry<'a>) -> Option<Part<'a>>
    ensures { result ≡ part_held (entry_seen entry.now) }
{
    if entry.kind == PART_KIND {
        parse_part(entry.text)
    } else {
        None
    }
}

/// Writes the line of an entry with its position, after a head, as a side's name: `HEAD t.i "text"`
/// for a text, and `HEAD t.i part K/N of ID` for a part of a long one. The room of the line stands
/// only here.
#[tactic(auto, unfolding(crate::specs::Texts::content_line))]
#[inline(never)]
pub fn write_content<O: Sink>(out: &mut O, head: &[u8], entry: &Entry<'_>) -> Result<(), Failed>
    requires head { length head.now ≤ HEAD_LIMIT }
    requires text { length entry.now.text.now ≤ TEXT_LIMIT }
    ensures { Writes (O.at out.old) (O.at out.new) (content_line head.now (entry_seen entry.now))
        result }
{
    match part_held(entry) {
        Some(part) => write_all(out, part_line(head, entry.position, &part).as_bytes()),
        None => write_all(out, text_line(head, entry).as_slice()),
    }
}

/// The line of a position alone, after a head, as a side's name: `HEAD t.i`.
#[tactic(auto, unfolding(crate::specs::Texts::place_line))]
pub fn place_line(head: &[u8], position: Position) -> OutputLine
    requires { length head.now ≤ HEAD_LIMIT }
    ensures { result ≡ place_line head.now position }
{
    let mut line = OutputLine::new();
    line.text(head);
    put_position(&mut line, position);
    line.text(b"\n");
    line
}

/// The limits of this crate as numbers. The function has no code.
pub fn limits_in_numbers()
    ensures { HasLimits }
{}
