//! A text is cut into parts.

ghost use Rattle.std.specs.Prelude.{◌≡◌, ◌≤◌, ◌*◌, ◌-◌, length, IfSome};
ghost use Rattle.long_text.specs.Cuts.{bytes_at, count_of, part_cut};
ghost use Rattle.boxes.specs.Parts.{IsPart};
ghost use Rattle.boxes.specs.declared.limits.TheConstants.{PARTS_LIMIT, PART_LIMIT};
ghost use Rattle.long_text.specs.declared.limits.TheConstants.{LONG_LIMIT};

use boxes::{PART_LIMIT, Part};

/// How many parts a text has: it is cut after each `PART_LIMIT` bytes, and an empty one is one
/// part.
pub fn part_count(text: &[u8]) -> u8
    requires { length text.now ≤ LONG_LIMIT }
    ensures value { result ≡ count_of text.now }
    ensures some { 1 ≤ result }
    ensures few { result ≤ PARTS_LIMIT }
{
    text.len().div_ceil(PART_LIMIT).max(1) as u8
}

/// The bytes of the part of a number, which the text has.
fn bytes_cut(text: &[u8], number: u8) -> &[u8]
    requires one { 1 ≤ number }
    requires inside { PART_LIMIT * (number - 1) ≤ length text.now }
    ensures value { result.now ≡ bytes_at text.now number }
    ensures short { length result.now ≤ PART_LIMIT }
{
    let rest = &text[PART_LIMIT * (usize::from(number) - 1)..];
    &rest[..rest.len().min(PART_LIMIT)]
}

/// The part of a text under a number, from 1. None comes exactly where the text has no such part.
#[tactic(auto, using(crate::proofs::Cuts::cut_inside))]
pub fn cut_part(text: &[u8], id: u32, number: u8) -> Option<Part<'_>>
    requires { length text.now ≤ LONG_LIMIT }
    ensures value { result ≡ part_cut id text.now number }
    ensures lawful { IfSome result IsPart }
{
    let count = part_count(text);
    if number < 1 || number > count {
        return None;
    }
    Some(Part {
        id,
        number,
        count,
        bytes: bytes_cut(text, number),
    })
}
