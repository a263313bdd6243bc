//! One deed of a script, played: it is done, and its lines are written.

ghost use Rattle.std.specs.Prelude.{◌≡◌, ◌-◌, ◌^◌, ◌<◌, None, Ok, Err, MatchResult};
ghost use Rattle.dr_ports.specs.Writing.{Writes};
ghost use Rattle.duet.specs.Held.{HasPostRoom, after_deed, beside};
ghost use Rattle.duet.specs.Outcomes.{barring, failed_on};
ghost use Rattle.duet.specs.Shuts.{shut_of};
ghost use Rattle.scripts.specs.Sides.{acting_side};
ghost use Rattle.scripts.specs.Deeds.{reopens};
ghost use Rattle.scripts.specs.Seen.{call_event};
ghost use Rattle.duet.specs.Tally.{IsBelow, counted_all};
ghost use Rattle.duet.specs.declared.tally.Tally.{Tally as Counted};
ghost use Rattle.duet.specs.Playing.{PlaysDeed, PlaysFreely};
ghost use Rattle.scripts.specs.Lined.{lined_deed, stop_deed};

use crate::joining::play_joining;
use crate::reply::{closed_line, failed_line, open_line};
use crate::sides::Duet;
use crate::tally::Tally;
use crate::telling::{play_line, tell, write_line};
use dr_base::Side;
use dr_ports::{Failed, Sink};
use kem_laws::Kem;
use scripts::{Failure, Lined, Stop};
use std::alloc::{AllocError, Global};

/// Why a deed wasn't done to its end.
pub enum Cut {
    /// No memory was left to open a side again, or to join a long text.
    Memory,
    /// A write failed.
    Write,
}

/// Both sides after a deed, unless a write failed.
pub(crate) fn unless_failed<K: Kem>(
    duet: Duet<K>,
    written: Result<(), Failed>,
) -> Result<Duet<K>, Cut>
    ensures { MatchResult written (λ _. result ≡ Ok duet) (λ _. result ≡ Err Cut.Write) }
{
    match written {
        Err(Failed) => Err(Cut::Write),
        Ok(()) => Ok(duet),
    }
}

/// Plays a call in which a disk stops: counts its answer, and writes its line. Gives both sides
/// after it.
fn play_stop<K: Kem, O: Sink>(
    alloc: Global,
    duet: Duet<K>,
    stop: &Stop<'_>,
    tally: &mut Tally,
    out: &mut O,
) -> Result<Duet<K>, Cut>
    requires room { HasPostRoom duet }
    requires draws { duet.sides.draws.made < 2 ^ 32 - 1 }
    requires few { IsBelow (2 ^ 32 - 1) tally.old }
    requires open { shut_of duet.shuts stop.now.side ≡ None }
    ensures { PlaysFreely K.mechanism (stop_deed stop.now) duet tally.old tally.new
        (O.at out.old) (O.at out.new) result }
{
    match duet.stop(alloc, stop) {
        Err(AllocError) => Err(Cut::Memory),
        Ok((next, answer)) => {
            let written = tell(stop.side, answer, tally, out);
            unless_failed(next, written)
        }
    }
}

/// Plays a call in which a disk fails: counts its answer and writes its line, or writes which kind
/// of call failed.
fn play_fail<K: Kem, O: Sink>(
    duet: &mut Duet<K>,
    failure: &Failure<'_>,
    tally: &mut Tally,
    out: &mut O,
) -> Result<(), Failed>
    requires room { HasPostRoom duet.old }
    requires draws { duet.old.sides.draws.made < 2 ^ 32 - 1 }
    requires few { IsBelow (2 ^ 32 - 1) tally.old }
    requires open { shut_of duet.old.shuts failure.now.side ≡ None }
    ensures next { let event = call_event failure.now.side failure.now.call in
        duet.new ≡ after_deed duet.old
        (failed_on K.mechanism (beside duet.old) failure.now.at event) }
    ensures counts { let event = call_event failure.now.side failure.now.call in
        tally.new ≡ counted_all (acting_side event)
        (failed_on K.mechanism (beside duet.old) failure.now.at event).answers tally.old }
    ensures writes { let event = call_event failure.now.side failure.now.call in
        Writes (O.at out.old) (O.at out.new)
        (failed_on K.mechanism (beside duet.old) failure.now.at event).lines result }
{
    match duet.fail(failure) {
        Ok(answer) => tell(failure.side, answer, tally, out),
        Err(call) => write_line(out, &failed_line(failure.side, call)),
    }
}

/// Plays an opening, and writes its line. Gives both sides after it.
fn play_opening<K: Kem, O: Sink>(
    alloc: Global,
    duet: Duet<K>,
    side: Side,
    out: &mut O,
) -> Result<Duet<K>, Cut>
    requires room { HasPostRoom duet }
    ensures { (tally : Counted) → PlaysFreely K.mechanism (reopens side) duet tally tally
        (O.at out.old) (O.at out.new) result }
{
    if duet.party(side).closed_by().is_none() {
        let written = write_line(out, &open_line(side, false));
        return unless_failed(duet, written);
    }
    match duet.reopen(alloc, side) {
        Err(AllocError) => Err(Cut::Memory),
        Ok(next) => {
            let written = write_line(out, &open_line(side, true));
            unless_failed(next, written)
        }
    }
}

/// Plays one deed that isn't barred: counts its answer, and writes its lines. Gives both sides
/// after it.
fn play_freely<K: Kem, O: Sink>(
    alloc: Global,
    duet: Duet<K>,
    line: &Lined<'_>,
    tally: &mut Tally,
    out: &mut O,
) -> Result<Duet<K>, Cut>
    requires room { HasPostRoom duet }
    requires draws { duet.sides.draws.made < 2 ^ 32 - 1 }
    requires few { IsBelow (2 ^ 32 - 1) tally.old }
    requires open { barring duet.shuts (lined_deed line.now) ≡ None }
    ensures { PlaysFreely K.mechanism (lined_deed line.now) duet tally.old tally.new (O.at out.old)
        (O.at out.new) result }
{
    let mut duet = duet;
    match line {
        Lined::Plain(line) => {
            let written = play_line(&mut duet, line, tally, out);
            unless_failed(duet, written)
        }
        Lined::Stopping(stop) => play_stop(alloc, duet, stop, tally, out),
        Lined::Failing(failure) => {
            let written = play_fail(&mut duet, failure, tally, out);
            unless_failed(duet, written)
        }
        Lined::Opening(side) => play_opening(alloc, duet, *side, out),
        Lined::Syncing(side, lost) => {
            let written = duet.sync(out, *side, *lost);
            unless_failed(duet, written)
        }
        Lined::Joining(side, id) => play_joining(alloc, duet, *side, *id, out),
    }
}

/// Plays one deed: where its side is closed and it asks for an open client, only that is written.
/// Gives both sides after it.
pub fn play_deed<K: Kem, O: Sink>(
    alloc: Global,
    duet: Duet<K>,
    line: &Lined<'_>,
    tally: &mut Tally,
    out: &mut O,
) -> Result<Duet<K>, Cut>
    requires room { HasPostRoom duet }
    requires draws { duet.sides.draws.made < 2 ^ 32 - 1 }
    requires few { IsBelow (2 ^ 32 - 1) tally.old }
    ensures { PlaysDeed K.mechanism (lined_deed line.now) duet tally.old tally.new (O.at out.old)
        (O.at out.new) result }
{
    match duet.barred_by(line) {
        Some(call) => {
            let written = write_line(out, &closed_line(line.side(), call));
            unless_failed(duet, written)
        }
        None => play_freely(alloc, duet, line, tally, out),
    }
}
