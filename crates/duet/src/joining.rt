//! A side shows a long text, whose parts stand in its inbox.

ghost use Rattle.std.specs.Prelude.{◌≡◌, length};
ghost use Rattle.dr_ports.specs.Writing.{Writes};
ghost use Rattle.duet.specs.Playing.{PlaysFreely};
ghost use Rattle.duet.specs.Replies.{shown_long};
ghost use Rattle.duet.specs.declared.tally.Tally.{Tally as Counted};
ghost use Rattle.long_text.specs.Longs.{long_of};
ghost use Rattle.long_text.specs.Seen.{Fills};
ghost use Rattle.long_text.specs.declared.limits.TheConstants.{LONG_LIMIT};
ghost use Rattle.scripts.specs.Deeds.{joins};

use crate::deeds::{Cut, unless_failed};
use crate::reply::unjoined_line;
use crate::sides::Duet;
use crate::telling::write_line;
use answer_lines::write_long;
use dr_base::Side;
use dr_ports::{Failed, Sink};
use kem_laws::Kem;
use long_text::{LONG_LIMIT, LongRefusal};
use parties::Party;
use scripts::side_name;
use std::alloc::Global;

/// Joins the parts of the long text of an id at the beginning of the room.
fn join<K: Kem>(party: &Party<K>, id: u32, room: &mut [u8]) -> Result<usize, LongRefusal>
    requires { length room.old ≡ LONG_LIMIT }
    ensures { Fills room.old room.new result (long_of id party.now.kept.inbox) }
{
    match room.as_mut_array::<LONG_LIMIT>() {
        Some(room) => party.long(id, room),
        None => unreachable!(),
    }
}

/// Writes the line of the long text of an id that a side has, or of why it has none. The text is
/// joined in the room that is lent.
fn write_joined<K: Kem, O: Sink>(
    out: &mut O,
    side: Side,
    party: &Party<K>,
    id: u32,
    room: &mut [u8],
) -> Result<(), Failed>
    requires { length room.old ≡ LONG_LIMIT }
    ensures { Writes (O.at out.old) (O.at out.new)
        (shown_long side id party.now.kept.inbox) result }
{
    match join(party, id, room) {
        Ok(len) => write_long(out, side_name(side), id, &room[..len]),
        Err(refusal) => write_line(out, &unjoined_line(side, refusal)),
    }
}

/// Plays a look at a long text, and writes its line. Its room is taken for that line alone. Both
/// sides stay as they were.
pub fn play_joining<K: Kem, O: Sink>(
    alloc: Global,
    duet: Duet<K>,
    side: Side,
    id: u32,
    out: &mut O,
) -> Result<Duet<K>, Cut>
    ensures { (tally : Counted) → PlaysFreely K.mechanism (joins side id) duet tally tally
        (O.at out.old) (O.at out.new) result }
{
    let Ok(mut room) = vec![in alloc; 0; LONG_LIMIT] else {
        return Err(Cut::Memory);
    };
    let written = write_joined(out, side, duet.party(side), id, room.as_mut_slice());
    unless_failed(duet, written)
}
