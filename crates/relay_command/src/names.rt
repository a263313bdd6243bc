//! The words that name a relay's boxes.

ghost use Rattle.std.specs.Prelude.{◌≡◌, ◌≤◌, length, map, IfErr, IfOk, OnOk};
ghost use Rattle.relay_core.specs.declared.limits.TheConstants.{RELAY_LIMIT};
ghost use Rattle.relay_command.specs.BoxWords.{says_box};
ghost use Rattle.relay_command.specs.Names.{AreNames, IsFirstBad, is_among, is_box_name, specs_of};

use crate::box_words::{name_in, spec_in};
use relay_core::{BoxSpec, RELAY_LIMIT};
use std::alloc::{AllocError, Global};

/// Whether one of these words has this name.
fn is_among(words: &[&str], name: &[u8]) -> bool
    ensures { result ≡ is_among (map (λ w. w.now) words.now) name.now }
{
    'words: for other in words {
        if name_in(other.as_bytes()) == name {
            return true;
        }
    }
    false
}

/// Whether a word says what a box is.
fn says_box(word: &str) -> bool
    ensures { result ≡ says_box word.now }
{
    spec_in(word.as_bytes()).is_some()
}

/// Whether a word names a box after these.
#[tactic(auto, unfolding(crate::specs::Names::is_box_name))]
fn is_box_name(before: &[&str], word: &str) -> bool
    ensures { result ≡ is_box_name (map (λ w. w.now) before.now) word.now }
{
    says_box(word) && !is_among(before, name_in(word.as_bytes())) && before.len() < RELAY_LIMIT
}

/// Whether each word names a box; if not, the number of the first that doesn't, from 1.
pub(crate) fn check_names(words: &[&str]) -> Result<(), u32>
    ensures names { OnOk result (AreNames (map (λ w. w.now) words.now)) }
    ensures few { OnOk result (length words.now ≤ RELAY_LIMIT) }
    ensures bad { IfErr result (IsFirstBad (map (λ w. w.now) words.now)) }
{
    'words: for k in 0..words.len() {
        if !is_box_name(&words[..k], words[k]) {
            return Err(k as u32 + 1);
        }
    }
    Ok(())
}

/// What the boxes are made by that these words name.
pub(crate) fn specs_of(alloc: Global, words: &[&str]) -> Result<Vec<BoxSpec>, AllocError>
    requires { AreNames (map (λ w. w.now) words.now) }
    ensures { IfOk result (λ specs. specs.items ≡ specs_of (map (λ w. w.now) words.now)) }
{
    let mut specs = Vec::new(alloc);
    'words: for word in words {
        match spec_in(word.as_bytes()) {
            Some(spec) => specs.push(spec)?,
            None => unreachable!(),
        }
    }
    Ok(specs)
}
