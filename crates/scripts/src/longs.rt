//! What lines say of long texts.

ghost use Rattle.std.specs.Prelude.{◌≡◌, option_map};
ghost use Rattle.scripts.specs.Longs.{drop_long_words, halves_or_all, if_lawful, join_words, part_with, part_words};
ghost use Rattle.scripts.specs.Seen.{call_seen, part_said};

use crate::call::{Call, LineCall};
use crate::number::number;
use crate::said::{Said, SaidPart};
use boxes::{PART_LIMIT, PARTS_LIMIT};
use script_parts::{after_prefix, cut_at};

/// The halves of a text around its first space; all, and nothing, where there is none.
fn cut_or_all(text: &[u8]) -> (&[u8], &[u8])
    ensures before { result.0.now ≡ (halves_or_all text.entry.now).0 }
    ensures behind { result.1.now ≡ (halves_or_all text.entry.now).1 }
{
    match cut_at(text, b' ') {
        Some(halves) => halves,
        None => (text, &text[..0]),
    }
}

/// A part of these numbers and bytes, if it is lawful.
fn lawful_part(id: u32, number: u32, count: u32, bytes: &[u8]) -> Option<SaidPart<'_>>
    ensures { option_map part_said result
        ≡ if_lawful (part_with id number bytes.entry.now count) }
{
    if number < 1 || number > count || count > PARTS_LIMIT as u32 || bytes.len() > PART_LIMIT {
        return None;
    }
    Some(SaidPart {
        id,
        number: number as u8,
        count: count as u8,
        bytes,
    })
}

/// Reads `part`, an id, the number of a part, how many parts there are, and its bytes.
#[tactic(auto, unfolding(crate::specs::Longs::part_words))]
pub fn parse_part(words: &[u8]) -> Option<LineCall<'_>>
    ensures { option_map call_seen result ≡ part_words words.entry.now }
{
    let text = after_prefix(words, b"part ")?;
    let (id, rest) = cut_at(text, b' ')?;
    let id = number(id)?;
    let (place, rest) = cut_at(rest, b' ')?;
    let place = number(place)?;
    let (count, bytes) = cut_or_all(rest);
    let count = number(count)?;
    let part = lawful_part(id, place, count, bytes)?;
    Some(Call::Say(Said::Part(part)))
}

/// Reads `done-long` and an id.
#[tactic(auto, unfolding(crate::specs::Longs::drop_long_words))]
pub fn parse_drop_long(words: &[u8]) -> Option<LineCall<'_>>
    ensures { option_map call_seen result ≡ drop_long_words words.entry.now }
{
    let digits = after_prefix(words, b"done-long ")?;
    let id = number(digits)?;
    Some(Call::DropLong(id))
}

/// Reads `long` and an id.
#[tactic(auto, unfolding(crate::specs::Longs::join_words))]
pub fn parse_join(words: &[u8]) -> Option<u32>
    ensures { result ≡ join_words words.now }
{
    let digits = after_prefix(words, b"long ")?;
    number(digits)
}
