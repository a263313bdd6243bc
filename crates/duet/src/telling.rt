//! The lines of an event, written.

ghost use Rattle.std.specs.Prelude.{◌≡◌, ◌-◌, ◌^◌, ◌<◌, length, flat_map, slice_index_or, None, true};
ghost use Rattle.dr_ports.specs.Writing.{Writes};
ghost use Rattle.boxes.specs.Entries.{Entry};
ghost use Rattle.dr_base.specs.declared.position.Position.{Position};
ghost use Rattle.dr_model.specs.Machines.Sides.{step_on};
ghost use Rattle.duet.specs.Held.{HasPostRoom, shown, stepped};
ghost use Rattle.duet.specs.Shuts.{asks_open, shut_of};
ghost use Rattle.duet.specs.Replies.{entry_line, reply_line, reply_of, shown_lines, waiting_line};
ghost use Rattle.scripts.specs.Sides.{acting_side};
ghost use Rattle.scripts.specs.Seen.{event_of};
ghost use Rattle.duet.specs.Tally.{IsBelow, counted_of};

use crate::reply::reply;
use crate::sides::Duet;
use crate::tally::Tally;
use answer_lines::{place_line, write_content};
use dr_base::Side;
use dr_ports::{Failed, OutputLine, Sink, write_all};
use kem_laws::Kem;
use parties::Party;
use scripts::{Line, side_name};
use session_model::{Answer, Items};

/// Writes the line of the entry at a place of a side's inbox.
fn write_entry<K: Kem, O: Sink>(
    out: &mut O,
    side: Side,
    party: &Party<K>,
    at: u32,
) -> Result<(), Failed>
    requires { at < length party.now.kept.inbox }
    ensures { (d : Entry) → Writes (O.at out.old) (O.at out.new)
        (entry_line side (slice_index_or party.now.kept.inbox at d)) result }
{
    match party.inbox_at(at as usize) {
        Some(entry) => write_content(out, side_name(side), &entry),
        None => Ok(()),
    }
}

/// Writes the lines of a side's inbox, the oldest text first.
fn write_inbox<K: Kem, O: Sink>(out: &mut O, side: Side, party: &Party<K>) -> Result<(), Failed>
    ensures { Writes (O.at out.old) (O.at out.new)
        (flat_map (entry_line side) party.now.kept.inbox) result }
{
    'texts: for at in 0..party.standing(Items::Texts) {
        match write_entry(out, side, party, at) {
            Err(Failed) => return Err(Failed),
            Ok(()) => {}
        }
    }
    Ok(())
}

/// Writes the line of the own text that waits at a place.
fn write_place<K: Kem, O: Sink>(
    out: &mut O,
    side: Side,
    party: &Party<K>,
    at: u32,
) -> Result<(), Failed>
    requires { at < length party.now.kept.state.awaiting }
    ensures { (d : Position) → Writes (O.at out.old) (O.at out.new)
        (waiting_line side (slice_index_or party.now.kept.state.awaiting at d)) result }
{
    match party.awaiting_at(at as usize) {
        Some(position) => write_line(out, &place_line(side_name(side), position)),
        None => Ok(()),
    }
}

/// Writes the lines of a side's own texts that wait for a receipt, the oldest first.
fn write_awaiting<K: Kem, O: Sink>(out: &mut O, side: Side, party: &Party<K>) -> Result<(), Failed>
    ensures { Writes (O.at out.old) (O.at out.new)
        (flat_map (waiting_line side) party.now.kept.state.awaiting) result }
{
    'texts: for at in 0..party.waiting() {
        match write_place(out, side, party, at) {
            Err(Failed) => return Err(Failed),
            Ok(()) => {}
        }
    }
    Ok(())
}

/// Writes what an event shows.
fn write_shown<K: Kem, O: Sink>(out: &mut O, duet: &Duet<K>, line: &Line<'_>) -> Result<(), Failed>
    ensures { Writes (O.at out.old) (O.at out.new)
        (shown_lines (acting_side (event_of line.now))
        (shown (event_of line.now) duet.now.sides)) result }
{
    match line {
        Line::Inbox(side) => write_inbox(out, *side, duet.party(*side)),
        Line::Awaiting(side) => write_awaiting(out, *side, duet.party(*side)),
        _ => Ok(()),
    }
}

/// Writes a line.
pub fn write_line<O: Sink>(out: &mut O, line: &OutputLine) -> Result<(), Failed>
    ensures { Writes (O.at out.old) (O.at out.new) line.now result }
{
    match write_all(out, line.as_bytes()) {
        Err(Failed) => Err(Failed),
        Ok(()) => Ok(()),
    }
}

/// Counts a side's answer, and writes its line.
pub fn tell<O: Sink>(
    side: Side,
    answer: Answer,
    tally: &mut Tally,
    out: &mut O,
) -> Result<(), Failed>
    requires few { IsBelow (2 ^ 32 - 1) tally.old }
    ensures counts { tally.new ≡ counted_of side answer tally.old }
    ensures writes { Writes (O.at out.old) (O.at out.new) (reply_line side answer) result }
{
    tally.count(side, answer);
    write_line(out, &reply(side, answer))
}

/// Plays one event that no stop cuts off, counts its answer, and writes its lines.
#[tactic(auto, unfolding(crate::specs::Replies::reply_of))]
pub fn play_line<K: Kem, O: Sink>(
    duet: &mut Duet<K>,
    line: &Line<'_>,
    tally: &mut Tally,
    out: &mut O,
) -> Result<(), Failed>
    requires room { HasPostRoom duet.old }
    requires draws { duet.old.sides.draws.made < 2 ^ 32 - 1 }
    requires few { IsBelow (2 ^ 32 - 1) tally.old }
    requires open { asks_open (event_of line.now) ≡ true
        → shut_of duet.old.shuts (acting_side (event_of line.now)) ≡ None }
    ensures next { duet.new ≡ stepped K.mechanism duet.old (event_of line.now) }
    ensures counts { let k = K.mechanism in
        tally.new ≡ counted_of (acting_side (event_of line.now))
        (step_on k duet.old.sides (event_of line.now)).answer tally.old }
    ensures writes { let k = K.mechanism in
        Writes (O.at out.old) (O.at out.new)
        (reply_of (event_of line.now) (step_on k duet.old.sides (event_of line.now))) result }
{
    let answer = duet.step(line);
    match tell(line.side(), answer, tally, out) {
        Err(Failed) => Err(Failed),
        Ok(()) => write_shown(out, duet, line),
    }
}
