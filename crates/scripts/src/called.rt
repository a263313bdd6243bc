//! The calls in which a disk stops, or fails once.

ghost use Rattle.std.specs.Prelude.{◌≡◌, option_map};
ghost use Rattle.scripts.specs.Lined.{failed_deed, stop_deed};
ghost use Rattle.scripts.specs.Seen.{call_seen};
ghost use Rattle.scripts.specs.Words.{call_words, fail_words, mode_read, stop_words};

use crate::call::{Failure, LineCall};
use crate::lined::Stop;
use crate::number::{counted, number};
use crate::words::parse_called;
use dr_base::Side;
use dr_disk::Mode;
use hex::FromHex;
use script_parts::{after_prefix, cut_at};

/// Reads a call in which a disk may stop or fail.
#[tactic(auto, unfolding(crate::specs::Words::call_words))]
fn parse_call(words: &[u8]) -> Option<LineCall<'_>>
    ensures { option_map call_seen result ≡ call_words words.entry.now }
{
    let call = parse_called(words)?;
    if call.may_stop() {
        return Some(call);
    }
    None
}

/// Reads `old`, `new`, or a byte in two hex digits of either case.
#[tactic(auto, unfolding(crate::specs::Words::mode_read))]
pub fn parse_mode(text: &[u8]) -> Option<Mode>
    ensures { result ≡ mode_read text.now }
{
    if text == b"old".as_slice() {
        return Some(Mode::Old);
    }
    if text == b"new".as_slice() {
        return Some(Mode::New);
    }
    match <[u8; 1] as FromHex>::from_hex(text) {
        Ok(bytes) => Some(Mode::Fill(bytes[0])),
        Err(_) => None,
    }
}

/// Reads `stop`, how many writes and syncs pass, the mode of the crash, and the call.
#[tactic(auto, unfolding(crate::specs::Words::stop_words))]
pub fn parse_stop(side: Side, words: &[u8]) -> Option<Stop<'_>>
    ensures { option_map stop_deed result ≡ stop_words side words.entry.now }
{
    let text = after_prefix(words, b"stop ")?;
    let (after, rest) = cut_at(text, b' ')?;
    let after = number(after)?;
    let (mode, call) = cut_at(rest, b' ')?;
    let mode = parse_mode(mode)?;
    let call = parse_call(call)?;
    Some(Stop {
        side,
        after,
        mode,
        call,
    })
}

/// Reads `fail`, the number of the write or sync that fails, and the call.
#[tactic(auto, unfolding(crate::specs::Words::fail_words))]
pub fn parse_fail(side: Side, words: &[u8]) -> Option<Failure<'_>>
    ensures { option_map failed_deed result ≡ fail_words side words.entry.now }
{
    let text = after_prefix(words, b"fail ")?;
    let (at, call) = cut_at(text, b' ')?;
    let at = counted(at)?;
    let call = parse_call(call)?;
    Some(Failure { side, at, call })
}
