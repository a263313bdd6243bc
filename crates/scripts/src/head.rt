//! The lines of a script before its deeds. Those after its key may be left out.

ghost use Rattle.std.specs.Prelude.{◌≡◌, ◌≤◌, ◌+◌, length, option_map};
ghost use Rattle.dr_model.specs.Conversations.Formats.{Formats};
ghost use Rattle.scripts.specs.Heads.{formats_read, guard_read, head_read};
ghost use Rattle.scripts.specs.Script.{kem_read, key_read, lines_of};
ghost use Rattle.scripts.specs.Seen.{head_fields};

use crate::script::KemName;
use bodies::Format;
use dr_base::Key32;
use hex::FromHex;
use script_parts::{after_prefix, cut_at, split_line};

/// What the lines after the key say, and the text after them.
#[derive(Clone, Copy)]
pub struct Head<'a> {
    /// How First seals its texts.
    pub first: Format,
    /// How Second does.
    pub second: Format,
    /// Whether the relay guards the boxes of both.
    pub guarded: bool,
    /// The number of the line that the rest begins with.
    pub number: u32,
    pub rest: &'a [u8],
}

/// The mechanism that a line names.
#[tactic(auto, unfolding(crate::specs::Script::kem_read))]
pub fn parse_kem(line: &[u8]) -> Option<KemName>
    ensures { result ≡ kem_read line.now }
{
    if line == b"kem open".as_slice() {
        return Some(KemName::Open);
    }
    if line == b"kem sntrup761".as_slice() {
        return Some(KemName::Sntrup761);
    }
    None
}

/// The key of a line `key` and 64 hex digits of either case.
#[tactic(auto, unfolding(crate::specs::Script::key_read))]
pub fn parse_key(line: &[u8]) -> Option<Key32>
    ensures { option_map (λ key. key.bytes) result ≡ key_read line.now }
{
    match after_prefix(line, b"key ") {
        Some(digits) => match <[u8; 32] as FromHex>::from_hex(digits) {
            Ok(bytes) => Some(Key32 { bytes }),
            Err(_) => None,
        },
        None => None,
    }
}

/// Reads `format`, First's and Second's.
#[tactic(auto, unfolding(crate::specs::Heads::formats_read))]
fn parse_formats(line: &[u8]) -> Option<(Format, Format)>
    ensures { option_map (λ formats. record { first = formats.0; second = formats.1 }) result
        ≡ formats_read line.now }
{
    let words = after_prefix(line, b"format ")?;
    let (first, second) = cut_at(words, b' ')?;
    let first = Format::named(first)?;
    let second = Format::named(second)?;
    Some((first, second))
}

/// The head of a script in these formats, of which this text begins with the line of this number.
/// That line may be `guard`.
#[tactic(auto, unfolding(crate::specs::Heads::guard_read))]
fn parse_guard(first: Format, second: Format, number: u32, text: &[u8]) -> Head<'_>
    requires { number ≤ 4 }
    ensures head { let formats : Formats = record { first = first; second = second } in
        head_fields result ≡ guard_read formats number (lines_of text.entry.now) }
    ensures early { result.number ≤ number + 1 }
    ensures within { length result.rest.now ≤ length text.entry.now }
{
    if let Some((line, rest)) = split_line(text) {
        if line == b"guard".as_slice() {
            return Head {
                first,
                second,
                guarded: true,
                number: number + 1,
                rest,
            };
        }
    }
    Head {
        first,
        second,
        guarded: false,
        number,
        rest: text,
    }
}

/// The head of what stands after the key.
#[tactic(auto, unfolding(crate::specs::Heads::head_read))]
pub fn parse_head(text: &[u8]) -> Head<'_>
    ensures head { head_fields result ≡ head_read (lines_of text.entry.now) }
    ensures early { result.number ≤ 5 }
    ensures within { length result.rest.now ≤ length text.entry.now }
{
    if let Some((line, rest)) = split_line(text) {
        if let Some((first, second)) = parse_formats(line) {
            return parse_guard(first, second, 4, rest);
        }
    }
    parse_guard(Format::Plain, Format::Plain, 3, text)
}
