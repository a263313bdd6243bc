//! The syncs that lines say.

ghost use Rattle.std.specs.Prelude.{◌≡◌};
ghost use Rattle.scripts.specs.Words.{lose_words, sync_words};

use crate::number::counted;
use script_parts::after_prefix;

/// Reads `lose` and the number of a reply, from 1.
#[tactic(auto, unfolding(crate::specs::Words::lose_words))]
fn parse_lose(words: &[u8]) -> Option<u32>
    ensures { result ≡ lose_words words.now }
{
    let digits = after_prefix(words, b"lose ")?;
    counted(digits)
}

/// Reads `sync`, or `lose` and the number of the reply that is lost.
#[tactic(auto, unfolding(crate::specs::Words::sync_words))]
pub fn parse_sync(words: &[u8]) -> Option<Option<u32>>
    ensures { result ≡ sync_words words.now }
{
    if words == b"sync".as_slice() {
        return Some(None);
    }
    match parse_lose(words) {
        Some(lost) => Some(Some(lost)),
        None => None,
    }
}
