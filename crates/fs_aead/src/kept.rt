//! The keys that were passed over, in an array of fixed room: copied in place, and counted.

ghost use Rattle.std.specs.Prelude.{◌≡◌, ◌+◌, ◌^◌, ◌<◌, ◌≤◌, ◌↔◌, length, IsOk, IfErr};

use arrayvec::ArrayVec;
use dr_base::{KEPT_LIMIT, Kept, Key32};
use thiserror::Error;

/// Too many keys were passed: `would` is how many there would be in the table, which has room for
/// `KEPT_LIMIT`.
#[derive(Clone, Copy, Debug, PartialEq, Eq, Error)]
#[error("{would} keys would be kept, more than {KEPT_LIMIT}")]
pub struct SkipLimit {
    pub would: u32,
}

/// A second copy of a kept key.
fn copied(kept: &Kept) -> Kept
    ensures { result ≡ kept.now }
{
    Kept {
        position: kept.position,
        key: Key32 {
            bytes: kept.key.bytes,
        },
    }
}

/// Makes an array a copy of kept keys, in place.
pub fn copy_keys(keys: &[Kept], copy: &mut ArrayVec<Kept, KEPT_LIMIT>)
    requires { length keys.now ≤ KEPT_LIMIT }
    ensures { copy.new.items ≡ keys.now }
{
    copy.clear();
    'keys: for kept in keys {
        copy.push(copied(kept));
    }
}

/// Whether `n` more keys have room beside these.
pub fn room_for(keys: &[Kept], n: u32) -> Result<(), SkipLimit>
    requires { length keys.now + n < 2 ^ 32 }
    ensures ok { IsOk result ↔ (length keys.now + n ≤ KEPT_LIMIT) }
    ensures err { IfErr result (λ limit. limit.would ≡ length keys.now + n) }
{
    let would = keys.len() as u32 + n;
    if would as usize > KEPT_LIMIT {
        return Err(SkipLimit { would });
    }
    Ok(())
}
