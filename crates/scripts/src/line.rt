//! The lines of a script after its key.

ghost use Rattle.std.specs.Prelude.{◌≡◌, option_map};
ghost use Rattle.scripts.specs.Sides.{acting_side};
ghost use Rattle.scripts.specs.Words.{plain_read, seed_read, side_words};
ghost use Rattle.scripts.specs.Seen.{event_of};

use crate::call::LineCall;
use crate::sides::named_side;
use crate::words::{parse_called, parse_look};
use dr_base::Side;
use hex::FromHex;
use script_parts::after_prefix;

/// What one line says that stops no disk.
#[derive(Clone, Copy)]
pub enum Line<'a> {
    /// The next draw is this seed.
    Seed([u8; 32]),
    /// A side does this.
    Does(Side, LineCall<'a>),
    /// A side shows its inbox.
    Inbox(Side),
    /// A side shows which of its own texts wait for a receipt.
    Awaiting(Side),
    /// A side shows what it holds, in numbers.
    State(Side),
}

impl<'a> Line<'a> {
    /// Reads a line: a seed, or a side, a space, and what it does.
    #[tactic(auto, unfolding(crate::specs::Words::plain_read))]
    pub fn parse(line: &'a [u8]) -> Option<Self>
        ensures { option_map event_of result ≡ plain_read line.entry.now }
    {
        if let Some(found) = parse_seed(line) {
            return Some(found);
        }
        match named_side(line) {
            Some((side, words)) => parse_words(side, words),
            None => None,
        }
    }

    /// The side whose event it is; a seed is no side's, and counts as First's.
    pub fn side(&self) -> Side
        ensures { result ≡ acting_side (event_of self.now) }
    {
        match self {
            Line::Seed(_) => Side::First,
            Line::Does(side, _) => *side,
            Line::Inbox(side) => *side,
            Line::Awaiting(side) => *side,
            Line::State(side) => *side,
        }
    }
}

/// Reads `seed` and 64 hex digits of either case.
#[tactic(auto, unfolding(crate::specs::Words::seed_read))]
fn parse_seed(line: &[u8]) -> Option<Line<'_>>
    ensures { option_map event_of result ≡ seed_read line.entry.now }
{
    match after_prefix(line, b"seed ") {
        Some(digits) => match <[u8; 32] as FromHex>::from_hex(digits) {
            Ok(seed) => Some(Line::Seed(seed)),
            Err(_) => None,
        },
        None => None,
    }
}

/// Reads what stands after a side.
#[tactic(auto, unfolding(crate::specs::Words::side_words))]
fn parse_words(side: Side, words: &[u8]) -> Option<Line<'_>>
    ensures { option_map event_of result ≡ side_words side words.entry.now }
{
    if let Some(call) = parse_called(words) {
        return Some(Line::Does(side, call));
    }
    parse_look(side, words)
}
