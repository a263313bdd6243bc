//! The long text of an id.

ghost use Rattle.std.specs.Prelude.{◌≡◌, ◌≤◌, ◌*◌, ◌+◌, length, ℕ, List};
ghost use Rattle.dr_base.specs.Buffer.{Puts};
ghost use Rattle.boxes.specs.declared.limits.TheConstants.{PARTS_LIMIT};
ghost use Rattle.long_text.specs.declared.limits.TheConstants.{LONG_LIMIT};
ghost use Rattle.long_text.specs.Longs.{joined, long_of};
ghost use Rattle.long_text.specs.Pieces.{pieces};
ghost use Rattle.long_text.specs.Seen.{Fills};

use crate::finding::{clash_in, count_told, numbers_had, under};
use crate::limits::LONG_LIMIT;
use crate::refusal::LongRefusal;
use boxes::Inbox;
use dr_base::put;

/// Puts the bytes under the numbers 1 to n at the beginning, and answers how many they are.
fn join(inbox: &Inbox, id: u32, n: u8, into: &mut [u8]) -> usize
    requires few { n ≤ PARTS_LIMIT }
    requires room { LONG_LIMIT ≤ length into.old }
    ensures { Puts into.old into.new 0 (joined (pieces id inbox.now) n) result }
{
    let mut at = 0;
    'numbers: for i in 0..n {
        if let Some(piece) = under(inbox, id, i + 1) {
            at = put(into, at, piece.bytes);
        }
    }
    at
}

/// Joins the parts of a long text that stand in an inbox: it stands at the beginning of the room
/// then, and the answer is its length. What is behind it stays as it was, and so does all of it
/// where this is refused. `NoLong` comes exactly where no part stands, else `Clash` with the first
/// pair that clashes, else `Parts` where fewer numbers stand than the count says. Nothing is
/// allocated.
pub fn long(inbox: &Inbox, id: u32, into: &mut [u8; LONG_LIMIT]) -> Result<usize, LongRefusal>
    ensures { Fills into.old into.new result (long_of id inbox.now) }
{
    let Some(count) = count_told(inbox, id) else {
        return Err(LongRefusal::NoLong);
    };
    if let Some(refusal) = clash_in(inbox, id) {
        return Err(refusal);
    }
    let have = numbers_had(inbox, id);
    if have < u32::from(count) {
        return Err(LongRefusal::Parts {
            have,
            n: u32::from(count),
        });
    }
    Ok(join(inbox, id, count, into))
}
