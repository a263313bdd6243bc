//! What a word says of a box.

ghost use Rattle.std.specs.Prelude.{◌≡◌, ◌&&◌, Some, None, is_some, if◌then◌else◌};
ghost use Rattle.relay_wire.specs.Names.{is_name};
ghost use Rattle.relay_command.specs.BoxWords.{key_in, keys_in, name_in, says_box, spec_in};

use dr_base::Key32;
use hex::decode_to_slice;
use relay_core::{BoxKeys, BoxSpec};
use relay_wire::Name;
use script_parts::cut_at;

/// The key that these digits are.
fn key_in(digits: &[u8]) -> Option<Key32>
    ensures { result ≡ key_in digits.now }
{
    let mut bytes = [0; 32];
    if decode_to_slice(digits, &mut bytes).is_err() {
        return None;
    }
    Some(Key32 { bytes })
}

/// The keys on both sides of a comma.
#[tactic(auto, unfolding(crate::specs::BoxWords::keys_in))]
fn keys_in(text: &[u8]) -> Option<BoxKeys>
    ensures { result ≡ keys_in text.now }
{
    let (owner, poster) = cut_at(text, b',')?;
    let owner = key_in(owner)?;
    let poster = key_in(poster)?;
    Some(BoxKeys { owner, poster })
}

/// The name in a word.
#[tactic(auto, unfolding(crate::specs::BoxWords::name_in))]
pub(crate) fn name_in(word: &[u8]) -> &[u8]
    ensures { result.now ≡ name_in word.now }
{
    match cut_at(word, b'=') {
        None => word,
        Some((name, _keys)) => name,
    }
}

/// A box with keys.
fn guarded(name: &[u8], keys: &[u8]) -> Option<BoxSpec>
    ensures { result ≡ (if is_name name.now && is_some (keys_in keys.now)
        then Some (record { name = name.now; keys = keys_in keys.now }) else None) }
{
    let name = Name::new(name)?;
    let keys = keys_in(keys)?;
    Some(BoxSpec {
        name,
        keys: Some(keys),
    })
}

/// A box without keys.
fn bare(name: &[u8]) -> Option<BoxSpec>
    ensures { result ≡ (if is_name name.now then Some (record { name = name.now; keys = None })
        else None) }
{
    let name = Name::new(name)?;
    Some(BoxSpec { name, keys: None })
}

/// What the box is made by that a word names, if it does.
#[tactic(auto, unfolding(crate::specs::BoxWords::says_box, crate::specs::BoxWords::spec_in))]
pub(crate) fn spec_in(word: &[u8]) -> Option<BoxSpec>
    ensures { result ≡ (if says_box word.now then Some (spec_in word.now) else None) }
{
    match cut_at(word, b'=') {
        None => bare(word),
        Some((name, keys)) => guarded(name, keys),
    }
}
