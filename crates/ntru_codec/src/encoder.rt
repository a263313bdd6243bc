//! Encode: a list of numbers, each below its limit, as bytes.
ghost use Rattle.std.specs.Prelude.{◌≡◌, ◌+◌, ◌-◌, ◌*◌, ◌/◌, ◌<◌, ◌≤◌, ◌++◌, length, take, drop, All};
ghost use Rattle.std.specs.List.{AllZip};
ghost use Rattle.ntru_codec.specs.Numbers.{IsLimit};
ghost use Rattle.ntru_codec.specs.Levels.{pair_bytes, pair_length, next_values, next_limits};
ghost use Rattle.ntru_codec.specs.Coding.{encoded, encoded_length};

use crate::levels::{carry, next_count, shrink};
use crate::numbers::{last_bytes, pair_number, put_low_bytes, shrink_pair, without_low_bytes};

/// Writes the bytes that go out of the pairs to the front of `out`, and the next list's values to
/// the front of `next`.
fn encode_pairs(values: &[u16], limits: &[u16], next: &mut [u16], out: &mut [u8])
    requires same { length values.now ≡ length limits.now }
    requires below { AllZip ◌<◌ values.now limits.now }
    requires limits { All IsLimit limits.now }
    requires many { length limits.now ≤ 761 }
    requires next_room { length limits.now ≤ 2 * length next.old }
    requires room { pair_length limits.now ≤ length out.old }
    ensures bytes { out.new
        ≡ pair_bytes values.now limits.now ++ drop (pair_length limits.now) out.old }
    ensures next { take (length limits.now - length limits.now / 2) next.new
        ≡ next_values values.now limits.now }
{
    let pairs = limits.len() / 2;
    let mut at = 0;
    for i in 0..pairs {
        let pair = shrink_pair(limits[2 * i], limits[2 * i + 1]);
        let number = pair_number(
            values[2 * i],
            values[2 * i + 1],
            limits[2 * i],
            limits[2 * i + 1],
        );
        put_low_bytes(out, at, pair.bytes, number);
        next[i] = without_low_bytes(number, pair.bytes) as u16;
        at += pair.bytes;
    }
    carry(values, 2 * pairs, next, pairs);
}

/// Writes the values' bytes to the front of `out`, and answers how many they are. The rest of `out`
/// stays as it was.
pub fn encode(values: &[u16], limits: &[u16], out: &mut [u8]) -> usize
    requires same { length values.now ≡ length limits.now }
    requires below { AllZip ◌<◌ values.now limits.now }
    requires limits { All IsLimit limits.now }
    requires some { 1 ≤ length limits.now }
    requires many { length limits.now ≤ 761 }
    requires room { encoded_length limits.now ≤ length out.old }
    ensures bytes { out.new ≡ encoded values.now limits.now ++ drop result out.old }
    ensures count { result ≡ encoded_length limits.now }
{
    if limits.len() == 1 {
        let count = last_bytes(limits[0]);
        put_low_bytes(out, 0, count, u32::from(values[0]));
        return count;
    }
    let mut next_limits = [0; 381];
    let mut next_values = [0; 381];
    let count = next_count(limits.len());
    let at = shrink(limits, &mut next_limits);
    encode_pairs(values, limits, &mut next_values, out);
    at + encode(&next_values[..count], &next_limits[..count], &mut out[at..])
}
