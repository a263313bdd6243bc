//! The parts of long texts, and their bytes.

ghost use Rattle.std.specs.Prelude.{◌≡◌, ◌+◌, ◌≤◌, true, length, IfSome};
ghost use Rattle.dr_base.specs.Buffer.{Puts};
ghost use Rattle.boxes.specs.Parts.{IsPart, is_part, is_part_under, part_of, part_read, part_text};

use crate::kinds::PART_KIND;
use crate::limits::{PART_HEAD, PARTS_LIMIT};
use dr_base::{TEXT_LIMIT, put, put_u32, read_u32};
use std::marker::Model;

/// A part of a long text, lent from where its bytes stand.
#[derive(Drop)]
pub struct Part<'a> {
    /// The id of the long text.
    pub id: u32,
    /// Which part it is, from 1 to the count.
    pub number: u8,
    /// How many parts the long text has.
    pub count: u8,
    pub bytes: &'a [u8],
}

impl<'a> Model for Part<'a> {
    ghost use Rattle.boxes.specs.Parts.{Part as Meant};

    ghost Value = { Meant };

    ghost view = { λ p. record {
      id = p.id;
      number = p.number;
      count = p.count;
      bytes = p.bytes.now;
    } };
}

/// Whether bytes are those of a lawful part.
#[tactic(auto, unfolding(crate::specs::Parts::is_part))]
pub fn is_part(bytes: &[u8]) -> bool
    ensures { result ≡ is_part bytes.now }
{
    if bytes.len() < PART_HEAD || bytes.len() > TEXT_LIMIT {
        return false;
    }
    bytes[4] >= 1 && bytes[4] <= bytes[5] && usize::from(bytes[5]) <= PARTS_LIMIT
}

/// The part that has these bytes, which are those of one.
#[tactic(auto, unfolding(crate::specs::Parts::is_part))]
fn part_of(bytes: &[u8]) -> Part<'_>
    requires { is_part bytes.now ≡ true }
    ensures value { result ≡ part_of bytes.now }
    ensures lawful { IsPart result }
{
    Part {
        id: read_u32(bytes, 0),
        number: bytes[4],
        count: bytes[5],
        bytes: &bytes[PART_HEAD..],
    }
}

/// The part that has these bytes, all of them. None comes exactly where no lawful part has them.
pub fn parse_part(bytes: &[u8]) -> Option<Part<'_>>
    ensures value { result ≡ part_read bytes.now }
    ensures lawful { IfSome result IsPart }
{
    if !is_part(bytes) {
        return None;
    }
    Some(part_of(bytes))
}

/// Puts the bytes of a part at a place, and answers the place after them.
pub fn put_part(out: &mut [u8], at: usize, part: &Part<'_>) -> usize
    requires { at + length (part_text part.now) ≤ length out.old }
    ensures { Puts out.old out.new at (part_text part.now) result }
{
    let at_number = put_u32(out, at, part.id);
    let at_bytes = put(out, at_number, &[part.number, part.count]);
    put(out, at_bytes, part.bytes)
}

/// Whether bytes of a kind are a part of the long text of an id.
pub(crate) fn is_part_under(id: u32, kind: u8, bytes: &[u8]) -> bool
    ensures { result ≡ is_part_under id kind bytes.now }
{
    if kind != PART_KIND {
        return false;
    }
    match parse_part(bytes) {
        Some(part) => part.id == id,
        None => false,
    }
}
