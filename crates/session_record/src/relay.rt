//! The keys of the session's boxes at a relay, which a record ends with.

ghost use Rattle.std.specs.Prelude.{◌≡◌, ◌+◌, ◌≤◌, length, option_copied};
ghost use Rattle.dr_base.specs.Buffer.{Puts};
ghost use Rattle.grammar.specs.Standing.{Reads};
ghost use Rattle.session_model.specs.BoxKeys.{HasLongKeys, relay_bytes};
ghost use Rattle.session_record.specs.Relay.{flagged_keys, flagged_text, relay_field, relay_keys_field, relay_text};
ghost use Rattle.session_record.specs.Versions.{newest};

use crate::versions::Version;
use dr_base::{put, put_u8};
use grammar::Cursor;
use session_model::{RELAY_KEYS_SIZE, RelayKeys, are_long};

/// The keys, which are one field.
#[tactic(auto, unfolding(crate::specs::Relay::relay_keys_field))]
fn read_keys(cursor: &mut Cursor<'_>) -> Result<RelayKeys, usize>
    ensures { Reads (λ keys. keys) relay_keys_field cursor.old cursor.new result }
{
    let bytes = cursor.piece(RELAY_KEYS_SIZE)?;
    Ok(RelayKeys::at(bytes))
}

/// A byte that says whether there are keys, and the keys.
#[tactic(auto, unfolding(crate::specs::Relay::flagged_keys))]
fn read_flagged(cursor: &mut Cursor<'_>) -> Result<Option<RelayKeys>, usize>
    ensures { Reads (λ keys. keys) flagged_keys cursor.old cursor.new result }
{
    let at = cursor.at();
    match cursor.number8()? {
        0 => Ok(None),
        1 => {
            let keys = read_keys(cursor)?;
            Ok(Some(keys))
        }
        _ => Err(at),
    }
}

/// The keys, none where the version has no byte for them.
#[tactic(auto, unfolding(crate::specs::Relay::relay_field))]
pub(crate) fn read_relay(
    cursor: &mut Cursor<'_>,
    version: Version,
) -> Result<Option<RelayKeys>, usize>
    ensures { Reads (λ keys. keys) (relay_field version) cursor.old cursor.new result }
{
    if version.has_keys() {
        read_flagged(cursor)
    } else {
        Ok(None)
    }
}

/// Puts the keys.
fn put_keys(out: &mut [u8], at: usize, keys: &RelayKeys) -> usize
    requires { at + length (relay_bytes keys.now) ≤ length out.old }
    ensures { Puts out.old out.new at (relay_bytes keys.now) result }
{
    let at_first_poster = put(out, at, &keys.first_owner.bytes);
    let at_second_owner = put(out, at_first_poster, &keys.first_poster.bytes);
    let at_second_poster = put(out, at_second_owner, &keys.second_owner.bytes);
    put(out, at_second_poster, &keys.second_poster.bytes)
}

/// Puts a byte that says whether there are keys, and the keys.
#[tactic(auto, unfolding(crate::specs::Relay::flagged_text))]
pub(crate) fn put_relay(out: &mut [u8], at: usize, keys: Option<&RelayKeys>) -> usize
    requires { at + length (relay_text newest (option_copied keys)) ≤ length out.old }
    ensures { Puts out.old out.new at (relay_text newest (option_copied keys.entry)) result }
{
    match keys {
        None => put_u8(out, at, 0),
        Some(keys) => {
            let at_keys = put_u8(out, at, 1);
            put_keys(out, at_keys, keys)
        }
    }
}

/// Each key has 32 bytes, where there are some, which the proofs learn here.
pub(crate) fn have_length(keys: Option<&RelayKeys>)
    ensures { HasLongKeys (option_copied keys.entry) }
{
    match keys {
        None => {}
        Some(keys) => are_long(keys),
    }
}

/// The length of the keys with the byte that says whether there are some.
#[tactic(auto, unfolding(crate::specs::Relay::flagged_text))]
pub(crate) fn relay_len(keys: Option<&RelayKeys>) -> usize
    ensures { result ≡ length (relay_text newest (option_copied keys.entry)) }
{
    match keys {
        None => 1,
        Some(keys) => {
            are_long(keys);
            1 + RELAY_KEYS_SIZE
        }
    }
}
