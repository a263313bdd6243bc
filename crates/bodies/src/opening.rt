//! What the bytes of an opened packet hold.

ghost use Rattle.std.specs.Prelude.{◌≡◌, ◌≢◌, ◌≤◌, option_map, length, IfSome};
ghost use Rattle.grammar.specs.Standing.{Reads};
ghost use Rattle.bodies.specs.Bodies.{HasContentAt, body_place, body_read, opened_body};
ghost use Rattle.bodies.specs.Padding.{are_zeros, padded_field, unpadded};

use crate::body::Body;
use crate::limits::BODY_LIMIT;
use crate::padding::filling;
use crate::reading::read_head;
use boxes::is_content;
use dr_base::{PLAIN, Side, TEXT_LIMIT};
use grammar::Cursor;

/// Whether all are zeros.
fn are_zeros(bytes: &[u8]) -> bool
    ensures { result ≡ are_zeros bytes.now }
{
    bytes.iter().all(|byte| *byte == 0)
}

/// What is padded, and its padding.
#[tactic(auto, unfolding(crate::specs::Padding::padded_field))]
fn read_padded<'a>(cursor: &mut Cursor<'a>) -> Result<&'a [u8], usize>
    ensures { Reads (λ text. text.now) (padded_field BODY_LIMIT) cursor.old cursor.new result }
{
    let at = cursor.at();
    let len = usize::from(cursor.number16()?);
    if len > BODY_LIMIT {
        return Err(at);
    }
    let text = cursor.piece(len)?;
    let at_zeros = cursor.at();
    let zeros = cursor.piece(filling(len))?;
    if !are_zeros(zeros) {
        return Err(at_zeros);
    }
    Ok(text)
}

/// What bytes are the padding of.
#[tactic(auto, unfolding(crate::specs::Padding::unpadded))]
fn unpadded(bytes: &[u8]) -> Option<&[u8]>
    ensures { option_map (λ text. text.now) result ≡ unpadded BODY_LIMIT bytes.now }
{
    let mut cursor = Cursor::new(bytes);
    let Ok(text) = read_padded(&mut cursor) else {
        return None;
    };
    if cursor.is_at_end() { Some(text) } else { None }
}

/// The body that a packet of a version has as these bytes, if they are one.
fn read_body(version: u8, side: Side, bytes: &[u8]) -> Option<Body<'_>>
    ensures { result ≡ body_read version side bytes.now }
{
    let mut cursor = Cursor::new(bytes);
    let Ok((receipt, kind)) = read_head(&mut cursor, version, side) else {
        return None;
    };
    let (_, content) = bytes.split_at(cursor.at());
    if !is_content(kind, content) {
        return None;
    }
    Some(Body {
        receipt,
        kind,
        content,
    })
}

/// The body that the bytes of an opened packet of a version hold, where this is the side that opens
/// it; the content is lent from its place in them. Nothing is found exactly where they are no
/// padding of a lawful body of the version; the bytes of a plain packet always are one.
#[tactic(auto, unfolding(crate::specs::Bodies::opened_body))]
pub fn open_body(version: u8, side: Side, bytes: &[u8]) -> Option<Body<'_>>
    ensures opens { result ≡ opened_body version side bytes.now }
    ensures place { IfSome result (λ body.
        HasContentAt bytes.now (body_place version body) body.content) }
    ensures fits { version ≢ PLAIN → IfSome result (λ body. length body.content ≤ TEXT_LIMIT) }
{
    if version == PLAIN {
        return Some(Body::text(bytes));
    }
    match unpadded(bytes) {
        Some(text) => read_body(version, side, text),
        None => None,
    }
}
