//! Readers of the guard in a box's record.

ghost use Rattle.std.specs.Prelude.{◌≡◌, ◌+◌, ◌*◌};
ghost use Rattle.grammar.specs.Reader.{piece};
ghost use Rattle.grammar.specs.Standing.{Reads};
ghost use Rattle.relay_core.specs.GuardFields.{flagged_guard, guard_field, guard_fields};
ghost use Rattle.relay_core.specs.Record.{EndsWithin};
ghost use Rattle.relay_core.specs.declared.limits.TheConstants.{GUARD_SIZE};

use crate::versions::Version;
use dr_base::Key32;
use grammar::Cursor;
use relay_guard::Guard;

/// A key.
fn read_key(cursor: &mut Cursor<'_>) -> Result<Key32, usize>
    ensures reads { Reads (λ key. key.bytes) (piece 32) cursor.old cursor.new result }
    ensures within { EndsWithin 32 cursor.old cursor.new result }
{
    let bytes = cursor.piece(32)?;
    let mut key = Key32 { bytes: [0; 32] };
    key.bytes.copy_from_slice(bytes);
    Ok(key)
}

/// Both keys, and the last counter under each.
#[tactic(auto, unfolding(crate::specs::GuardFields::guard_fields))]
fn read_keys(cursor: &mut Cursor<'_>) -> Result<Guard, usize>
    ensures reads { Reads (λ guard. guard) guard_fields cursor.old cursor.new result }
    ensures within { EndsWithin (2 * 32 + 2 * 8) cursor.old cursor.new result }
{
    let owner = read_key(cursor)?;
    let poster = read_key(cursor)?;
    let owner_last = cursor.number64()?;
    let poster_last = cursor.number64()?;
    Ok(Guard {
        owner,
        poster,
        owner_last,
        poster_last,
    })
}

/// A byte that says whether there is a guard, and the guard.
#[tactic(auto, unfolding(crate::specs::GuardFields::flagged_guard))]
fn read_flagged(cursor: &mut Cursor<'_>) -> Result<Option<Guard>, usize>
    ensures reads { Reads (λ guard. guard) flagged_guard cursor.old cursor.new result }
    ensures within { EndsWithin GUARD_SIZE cursor.old cursor.new result }
{
    let at = cursor.at();
    match cursor.number8()? {
        0 => Ok(None),
        1 => {
            let guard = read_keys(cursor)?;
            Ok(Some(guard))
        }
        _ => Err(at),
    }
}

/// The guard, which a record may have since version 2.
#[tactic(auto, unfolding(crate::specs::GuardFields::guard_field))]
pub(crate) fn read_guard(cursor: &mut Cursor<'_>, version: Version) -> Result<Option<Guard>, usize>
    ensures reads { Reads (λ guard. guard) (guard_field version) cursor.old cursor.new result }
    ensures within { EndsWithin GUARD_SIZE cursor.old cursor.new result }
{
    if version.has_guards() {
        read_flagged(cursor)
    } else {
        Ok(None)
    }
}
