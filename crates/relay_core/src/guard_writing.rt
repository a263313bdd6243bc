//! Writing the guard in a box's record.

ghost use Rattle.std.specs.Prelude.{◌+◌, ◌≤◌, length};
ghost use Rattle.dr_base.specs.Buffer.{Puts};
ghost use Rattle.relay_core.specs.GuardFields.{flagged_text, guard_bytes};

use dr_base::{put, put_u8, put_u64};
use relay_guard::Guard;

/// Puts both keys, and the last counter under each, at a place.
#[tactic(auto, unfolding(crate::specs::GuardFields::guard_bytes))]
fn put_keys(out: &mut [u8], at: usize, guard: &Guard) -> usize
    requires { at + length (guard_bytes guard.now) ≤ length out.old }
    ensures { Puts out.old out.new at (guard_bytes guard.now) result }
{
    let at_poster = put(out, at, &guard.owner.bytes);
    let at_owner_last = put(out, at_poster, &guard.poster.bytes);
    let at_poster_last = put_u64(out, at_owner_last, guard.owner_last);
    put_u64(out, at_poster_last, guard.poster_last)
}

/// Puts a byte that says whether there is a guard, and the guard, at a place.
#[tactic(auto, unfolding(crate::specs::GuardFields::flagged_text))]
pub(crate) fn put_guard(out: &mut [u8], at: usize, guard: &Option<Guard>) -> usize
    requires { at + length (flagged_text guard.now) ≤ length out.old }
    ensures { Puts out.old out.new at (flagged_text guard.now) result }
{
    match guard {
        None => put_u8(out, at, 0),
        Some(guard) => {
            let at_keys = put_u8(out, at, 1);
            put_keys(out, at_keys, guard)
        }
    }
}
