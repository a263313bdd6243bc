//! Decode: the list of numbers, each below its limit, that bytes stand for.
ghost use Rattle.std.specs.Prelude.{◌≡◌, ◌+◌, ◌-◌, ◌/◌, ◌<◌, ◌≤◌, length, take, drop, All};
ghost use Rattle.std.specs.List.{AllZip};
ghost use Rattle.ntru_codec.specs.Numbers.{IsLimit};
ghost use Rattle.ntru_codec.specs.Levels.{pair_length, next_limits, pair_values};
ghost use Rattle.ntru_codec.specs.Coding.{decoded, encoded_length};

use crate::levels::{carry, next_count, shrink};
use crate::numbers::{high_part, last_bytes, low_part, number_at, shrink_pair};

/// Writes the pairs of the next list's values to the front of `out`.
fn decode_pairs(bytes: &[u8], limits: &[u16], next: &[u16], out: &mut [u16])
    requires limits { All IsLimit limits.now }
    requires many { length limits.now ≤ 761 }
    requires same { length next.now ≡ length limits.now - length limits.now / 2 }
    requires small { All (λ v. v < 16384) next.now }
    requires within { pair_length limits.now ≤ length bytes.now }
    requires room { length limits.now ≤ length out.old }
    ensures { take (length limits.now) out.new ≡ pair_values bytes.now limits.now next.now }
{
    let pairs = limits.len() / 2;
    let mut at = 0;
    for i in 0..pairs {
        let pair = shrink_pair(limits[2 * i], limits[2 * i + 1]);
        let number = number_at(bytes, at, pair.bytes, next[i]);
        out[2 * i] = low_part(number, limits[2 * i]);
        out[2 * i + 1] = high_part(number, limits[2 * i], limits[2 * i + 1]);
        at += pair.bytes;
    }
    carry(next, pairs, out, 2 * pairs);
}

/// Writes the values of the bytes to the front of `out`.
fn decode_into(bytes: &[u8], limits: &[u16], out: &mut [u16])
    requires limits { All IsLimit limits.now }
    requires some { 1 ≤ length limits.now }
    requires many { length limits.now ≤ 761 }
    requires room { length limits.now ≤ length out.old }
    requires whole { length bytes.now ≡ encoded_length limits.now }
    ensures { take (length limits.now) out.new ≡ decoded bytes.now limits.now }
{
    if limits.len() == 1 {
        let count = last_bytes(limits[0]);
        out[0] = low_part(number_at(bytes, 0, count, 0), limits[0]);
        return;
    }
    let mut next_limits = [0; 381];
    let mut next_values = [0; 381];
    let count = next_count(limits.len());
    let at = shrink(limits, &mut next_limits);
    decode_into(&bytes[at..], &next_limits[..count], &mut next_values);
    decode_pairs(bytes, limits, &next_values[..count], out);
}

/// Writes the values that the bytes stand for. Any bytes of an encoding's length are accepted.
pub fn decode(bytes: &[u8], limits: &[u16], out: &mut [u16])
    requires limits { All IsLimit limits.now }
    requires some { 1 ≤ length limits.now }
    requires many { length limits.now ≤ 761 }
    requires room { length out.old ≡ length limits.now }
    requires whole { length bytes.now ≡ encoded_length limits.now }
    ensures values { out.new ≡ decoded bytes.now limits.now }
    ensures below { AllZip ◌<◌ out.new limits.now }
{
    decode_into(bytes, limits, out)
}
