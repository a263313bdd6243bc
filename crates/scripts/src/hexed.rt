//! Bytes that a line writes in hex.

ghost use Rattle.std.specs.Prelude.{◌≡◌};
ghost use Rattle.scripts.specs.Seen.{bytes_of_hex};
ghost use Rattle.scripts.specs.Limits.{HasLimits};

use arrayvec::ArrayVec;
use dr_base::CARRIED_LIMIT;
use hex::decode_to_slice;

/// The most bytes that a line writes in hex: those of a packet that a relay carries.
pub const HEX_LIMIT: usize = CARRIED_LIMIT;

/// The digits of that many bytes.
pub const DIGIT_LIMIT: usize = 2 * HEX_LIMIT;

/// The bytes of these digits, none where they aren't at most `HEX_LIMIT` bytes in hex.
#[inline(never)]
#[tactic(auto, unfolding(crate::specs::Words::hex_read))]
pub fn hex_bytes(digits: &[u8]) -> ArrayVec<u8, HEX_LIMIT>
    ensures { result.items ≡ bytes_of_hex digits.now }
{
    let mut bytes = ArrayVec::new();
    if digits.len() > DIGIT_LIMIT {
        return bytes;
    }
    let size = digits.len() / 2;
    let mut room = [0; HEX_LIMIT];
    if decode_to_slice(digits, &mut room[..size]).is_ok() {
        bytes.try_extend_from_slice(&room[..size]).unwrap();
    }
    bytes
}

/// The limits of this crate as numbers. The function has no code.
pub fn limits_in_numbers()
    ensures { HasLimits }
{}
