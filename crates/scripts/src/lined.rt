//! Lines of a script, which may stop the disk of their side or let it fail once, open its client
//! again, sync it, or show a long text of its inbox.

ghost use Rattle.std.specs.Prelude.{◌≡◌, option_map};
ghost use Rattle.scripts.specs.Lined.{lined_deed};
ghost use Rattle.scripts.specs.Sides.{deed_side};
ghost use Rattle.scripts.specs.Words.{deed_words, line_read};

use crate::call::{Failure, LineCall};
use crate::called::{parse_fail, parse_stop};
use crate::line::Line;
use crate::longs::parse_join;
use crate::sides::named_side;
use crate::syncing::parse_sync;
use dr_base::Side;
use dr_disk::Mode;

/// What one line says.
#[derive(Clone, Copy)]
pub enum Lined<'a> {
    /// This, and no disk stops.
    Plain(Line<'a>),
    /// The disk of the side stops in a call.
    Stopping(Stop<'a>),
    /// A write or a sync of the side's disk fails in a call.
    Failing(Failure<'a>),
    /// The closed client of the side opens again.
    Opening(Side),
    /// The side syncs with the relay. The reply to the request of this number, from 1, is lost, and
    /// the link fails there.
    Syncing(Side, Option<u32>),
    /// The side shows the long text of this id, whose parts stand in its inbox.
    Joining(Side, u32),
}

/// A call in which the disk of its side stops.
#[derive(Clone, Copy)]
pub struct Stop<'a> {
    pub side: Side,
    /// This many writes and syncs of the call pass.
    pub after: u32,
    /// How the disk crashes then.
    pub mode: Mode,
    pub call: LineCall<'a>,
}

impl<'a> Lined<'a> {
    /// Reads a line.
    #[tactic(auto, unfolding(crate::specs::Words::line_read))]
    pub fn parse(line: &'a [u8]) -> Option<Self>
        ensures { option_map lined_deed result ≡ line_read line.entry.now }
    {
        if let Some(found) = Line::parse(line) {
            return Some(Lined::Plain(found));
        }
        match named_side(line) {
            Some((side, words)) => parse_deed(side, words),
            None => None,
        }
    }

    /// The side whose deed it is; a seed is no side's, and counts as First's.
    pub fn side(&self) -> Side
        ensures { result ≡ deed_side (lined_deed self.now) }
    {
        match self {
            Lined::Plain(line) => line.side(),
            Lined::Stopping(stop) => stop.side,
            Lined::Failing(failure) => failure.side,
            Lined::Opening(side) => *side,
            Lined::Syncing(side, _) => *side,
            Lined::Joining(side, _) => *side,
        }
    }
}

/// Reads what stands after a side and isn't an event alone.
#[tactic(auto, unfolding(crate::specs::Words::deed_words, crate::specs::Words::open_words))]
fn parse_deed(side: Side, words: &[u8]) -> Option<Lined<'_>>
    ensures { option_map lined_deed result ≡ deed_words side words.entry.now }
{
    if let Some(found) = parse_stop(side, words) {
        return Some(Lined::Stopping(found));
    }
    if let Some(found) = parse_fail(side, words) {
        return Some(Lined::Failing(found));
    }
    if words == b"open".as_slice() {
        return Some(Lined::Opening(side));
    }
    if let Some(lost) = parse_sync(words) {
        return Some(Lined::Syncing(side, lost));
    }
    match parse_join(words) {
        Some(id) => Some(Lined::Joining(side, id)),
        None => None,
    }
}
