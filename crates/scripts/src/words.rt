//! What a side does in a line.

ghost use Rattle.std.specs.Prelude.{◌≡◌, Some, None, option_copied, option_map, if◌then◌else◌};
ghost use Rattle.scripts.specs.Words.{amount_words, bytes_words, called_words, drop_words, flip_words, hex_read, look_words, packet_read, position_read, say_words, source_words, take_words, text_after};
ghost use Rattle.scripts.specs.Seen.{bytes_of_hex, call_seen, event_of, source_of};

use crate::call::{Call, LineCall, Source};
use crate::hexed::{DIGIT_LIMIT, HEX_LIMIT};
use crate::line::Line;
use crate::longs::{parse_drop_long, parse_part};
use crate::number::number;
use crate::said::Said;
use answer_lines::drop_word;
use dr_base::{Position, Side};
use hex::decode_to_slice;
use script_parts::{after_prefix, cut_at};
use session_model::{Amount, Items};

/// What stands after a word and a space; nothing where the word stands alone.
fn text_after<'a>(words: &'a [u8], word: &[u8]) -> Option<&'a [u8]>
    ensures { option_copied result ≡ text_after word.now words.entry.now }
{
    if words == word {
        return Some(&words[..0]);
    }
    let rest = after_prefix(words, word)?;
    after_prefix(rest, b" ")
}

/// Reads `say` and a text.
#[tactic(auto, unfolding(crate::specs::Words::say_words))]
fn parse_say(words: &[u8]) -> Option<LineCall<'_>>
    ensures { option_map call_seen result ≡ say_words words.entry.now }
{
    let text = text_after(words, b"say")?;
    Some(Call::Say(Said::Text(text)))
}

/// Reads `take` and a packet.
#[tactic(auto, unfolding(crate::specs::Words::take_words))]
fn parse_take(words: &[u8]) -> Option<Source<'_>>
    ensures { option_map source_of result ≡ take_words words.entry.now }
{
    match after_prefix(words, b"take ") {
        Some(packet) => parse_packet(packet),
        None => None,
    }
}

/// Reads `#` and a number, or a position.
fn parse_packet(text: &[u8]) -> Option<Source<'_>>
    ensures { option_map source_of result ≡ packet_read text.entry.now }
{
    if let Some(digits) = after_prefix(text, b"#") {
        if let Some(nth) = number(digits) {
            return Some(Source::Nth(nth));
        }
    }
    match parse_position(text) {
        Some(position) => Some(Source::At(position)),
        None => None,
    }
}

/// Reads an epoch, a point and an index.
#[tactic(auto, unfolding(crate::specs::Words::position_read))]
fn parse_position(text: &[u8]) -> Option<Position>
    ensures { result ≡ position_read text.now }
{
    let (epoch, index) = cut_at(text, b'.')?;
    let epoch = number(epoch)?;
    let index = number(index)?;
    Some(Position { epoch, index })
}

/// Reads `flip`, a position, a space, and the number of a bit.
#[tactic(auto, unfolding(crate::specs::Words::flip_words))]
fn parse_flip(words: &[u8]) -> Option<Source<'_>>
    ensures { option_map source_of result ≡ flip_words words.entry.now }
{
    let text = after_prefix(words, b"flip ")?;
    let (position, bit) = cut_at(text, b' ')?;
    let position = parse_position(position)?;
    let bit = number(bit)?;
    Some(Source::Flipped(position, bit))
}

/// Whether a text is at most `HEX_LIMIT` bytes in hex. Their room stands only where a line asks it.
#[inline(never)]
#[tactic(auto, unfolding(crate::specs::Words::hex_read))]
fn is_hex(text: &[u8]) -> bool
    ensures { hex_read text.now ≡ (if result then Some (bytes_of_hex text.now) else None) }
{
    if text.len() > DIGIT_LIMIT {
        return false;
    }
    let mut bytes = [0; HEX_LIMIT];
    decode_to_slice(text, &mut bytes[..text.len() / 2]).is_ok()
}

/// Reads `bytes` and bytes in hex.
#[tactic(auto, unfolding(crate::specs::Words::bytes_words))]
fn parse_bytes(words: &[u8]) -> Option<Source<'_>>
    ensures { option_map source_of result ≡ bytes_words words.entry.now }
{
    let hex = text_after(words, b"bytes")?;
    if is_hex(hex) {
        return Some(Source::Bytes(hex));
    }
    None
}

/// Reads a packet that a side takes.
fn parse_source(words: &[u8]) -> Option<Source<'_>>
    ensures { option_map source_of result ≡ source_words words.entry.now }
{
    if let Some(found) = parse_take(words) {
        return Some(found);
    }
    if let Some(found) = parse_flip(words) {
        return Some(found);
    }
    parse_bytes(words)
}

/// Reads what a side is called to do.
#[tactic(auto, unfolding(crate::specs::Words::called_words))]
pub fn parse_called(words: &[u8]) -> Option<LineCall<'_>>
    ensures { option_map call_seen result ≡ called_words words.entry.now }
{
    if let Some(found) = parse_say(words) {
        return Some(found);
    }
    if let Some(found) = parse_part(words) {
        return Some(found);
    }
    if let Some(source) = parse_source(words) {
        return Some(Call::Take(source));
    }
    if let Some(found) = parse_drop(Items::Packets, words) {
        return Some(found);
    }
    if let Some(found) = parse_drop(Items::Texts, words) {
        return Some(found);
    }
    parse_drop_long(words)
}

/// Reads `inbox`, `awaiting` or `state`.
#[tactic(auto, unfolding(crate::specs::Words::look_words))]
pub fn parse_look(side: Side, words: &[u8]) -> Option<Line<'_>>
    ensures { option_map event_of result ≡ look_words side words.entry.now }
{
    if words == b"inbox".as_slice() {
        return Some(Line::Inbox(side));
    }
    if words == b"awaiting".as_slice() {
        return Some(Line::Awaiting(side));
    }
    if words == b"state".as_slice() {
        return Some(Line::State(side));
    }
    None
}

/// Reads the word of these items, and an amount.
#[tactic(auto, unfolding(crate::specs::Words::drop_words))]
fn parse_drop(items: Items, words: &[u8]) -> Option<LineCall<'_>>
    ensures { option_map call_seen result ≡ drop_words items words.entry.now }
{
    let text = after_prefix(words, drop_word(items))?;
    let amount = parse_amount(text)?;
    Some(Call::Drop(items, amount))
}

/// Reads `all` or a number.
#[tactic(auto, unfolding(crate::specs::Words::amount_words))]
fn parse_amount(text: &[u8]) -> Option<Amount>
    ensures { result ≡ amount_words text.now }
{
    if text == b"all".as_slice() {
        return Some(Amount::All);
    }
    match number(text) {
        Some(n) => Some(Amount::Exactly(n)),
        None => None,
    }
}
