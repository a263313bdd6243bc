//! What a command reads from the source.

ghost use Rattle.std.specs.Prelude.{◌≡◌, ◌≤◌, IfOk, length, option_map};
ghost use Rattle.dr_base.specs.declared.key.Key32.{Key32};
ghost use Rattle.endings.specs.declared.ending.Ending.TheVariants.{BadKey, NotHex};
ghost use Rattle.long_text.specs.declared.limits.TheConstants.{LONG_LIMIT};
ghost use Rattle.command_lines.specs.Inputs.{ReadsInput, key_in_hex, packet_in_hex, stripped, whole_text};

use arrayvec::ArrayVec;
use dr_base::{Key32, PACKET_LIMIT};
use dr_ports::{InputError, Source, read_whole};
use endings::Ending;
use hex::decode_to_slice;
use long_text::LONG_LIMIT;
use std::alloc::Global;

/// The longest text of a packet, in bytes: two hex digits for each of its own, and a line feed.
pub const PACKET_TEXT_LIMIT: usize = 2 * PACKET_LIMIT + 1;

/// The longest text of a key, in bytes: two hex digits for each of its 32, and a line feed.
pub const KEY_TEXT_LIMIT: usize = 2 * 32 + 1;

/// A packet that was read.
pub type Packet = ArrayVec<u8, PACKET_LIMIT>;

/// The text without one line feed at its end.
#[tactic(auto, unfolding(crate::specs::Inputs::stripped))]
fn stripped(text: &[u8]) -> &[u8]
    ensures value { result.now ≡ stripped text.now }
    ensures len { length result.now ≤ length text.now }
{
    if text.len() >= 1 && text[text.len() - 1] == b'\n' {
        return &text[..text.len() - 1];
    }
    text
}

/// The packet that the digits are.
#[tactic(auto, unfolding(crate::specs::Inputs::packet_in_hex))]
fn packet_in(text: &[u8]) -> Option<Packet>
    requires { length text.now ≤ PACKET_TEXT_LIMIT }
    ensures { option_map (λ packet. packet.items) result ≡ packet_in_hex text.now }
{
    let digits = stripped(text);
    let size = digits.len() / 2;
    let mut room = [0; PACKET_LIMIT];
    if decode_to_slice(digits, &mut room[..size]).is_err() {
        return None;
    }
    let mut packet = Packet::new();
    packet.try_extend_from_slice(&room[..size]).unwrap();
    Some(packet)
}

/// Reads the packet that the source holds.
pub fn read_packet<S: Source>(alloc: Global, source: &mut S) -> Result<Packet, Ending>
    ensures { ReadsInput (λ packet. packet.items) PACKET_TEXT_LIMIT packet_in_hex NotHex
        (S.at source.old) (S.at source.new) result }
{
    let text = match read_whole(alloc, source, PACKET_TEXT_LIMIT) {
        Ok(text) => text,
        Err(InputError::Memory) => return Err(Ending::NoMemory),
        Err(InputError::TooLong) => return Err(Ending::InputTooLong(PACKET_TEXT_LIMIT as u32)),
        Err(InputError::Fault) => return Err(Ending::ReadFault),
    };
    match packet_in(text.as_slice()) {
        Some(packet) => Ok(packet),
        None => Err(Ending::NotHex),
    }
}

/// The key that the digits are.
#[tactic(auto, unfolding(crate::specs::Inputs::key_in_hex))]
fn key_in(text: &[u8]) -> Option<Key32>
    ensures { option_map (λ (key : Key32). key.bytes) result ≡ key_in_hex text.now }
{
    let mut bytes = [0; 32];
    if decode_to_slice(stripped(text), &mut bytes).is_err() {
        return None;
    }
    Some(Key32 { bytes })
}

/// Reads the key that the source holds.
pub fn read_key<S: Source>(alloc: Global, source: &mut S) -> Result<Key32, Ending>
    ensures { ReadsInput (λ (key : Key32). key.bytes) KEY_TEXT_LIMIT key_in_hex BadKey
        (S.at source.old) (S.at source.new) result }
{
    let text = match read_whole(alloc, source, KEY_TEXT_LIMIT) {
        Ok(text) => text,
        Err(InputError::Memory) => return Err(Ending::NoMemory),
        Err(InputError::TooLong) => return Err(Ending::InputTooLong(KEY_TEXT_LIMIT as u32)),
        Err(InputError::Fault) => return Err(Ending::ReadFault),
    };
    match key_in(text.as_slice()) {
        Some(key) => Ok(key),
        None => Err(Ending::BadKey),
    }
}

/// Reads the long text that the source holds, just as it is.
pub fn read_long<S: Source>(alloc: Global, source: &mut S) -> Result<Vec<u8>, Ending>
    ensures reads { ReadsInput (λ text. text.items) LONG_LIMIT whole_text NotHex
        (S.at source.old) (S.at source.new) result }
    ensures fits { IfOk result (λ text. length text.items ≤ LONG_LIMIT) }
{
    match read_whole(alloc, source, LONG_LIMIT) {
        Ok(text) => Ok(text),
        Err(InputError::Memory) => Err(Ending::NoMemory),
        Err(InputError::TooLong) => Err(Ending::InputTooLong(LONG_LIMIT as u32)),
        Err(InputError::Fault) => Err(Ending::ReadFault),
    }
}
