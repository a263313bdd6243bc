//! One level of limits: from a list's limits to those of the next list.
ghost use Rattle.std.specs.Prelude.{◌≡◌, ◌+◌, ◌-◌, ◌*◌, ◌/◌, ◌<◌, ◌≤◌, ◌++◌, length, take, drop, All};
ghost use Rattle.ntru_codec.specs.Numbers.{IsLimit};
ghost use Rattle.ntru_codec.specs.Levels.{pair_length, next_limits};

use crate::numbers::shrink_pair;

/// How many entries the list after one of `count` entries has.
pub(crate) fn next_count(count: usize) -> usize
    ensures { result ≡ count - count / 2 }
{
    count - count / 2
}

/// Copies what `from` has from the place `at` on, which is one entry at most, to the place `to`.
#[tactic(auto, using(crate::proofs::Places::carries))]
pub(crate) fn carry(from: &[u16], at: usize, out: &mut [u16], to: usize)
    requires last { length from.now ≤ at + 1 }
    requires within { at ≤ length from.now }
    requires room { to + (length from.now - at) ≤ length out.old }
    ensures { take (to + (length from.now - at)) out.new ≡ take to out.old ++ drop at from.now }
{
    if at == from.len() {
        return;
    }
    out[to] = from[at];
}

/// Writes the next list's limits to the front of `next`, and answers how many bytes go out of the
/// pairs.
pub(crate) fn shrink(limits: &[u16], next: &mut [u16]) -> usize
    requires limits { All IsLimit limits.now }
    requires many { length limits.now ≤ 761 }
    requires room { length limits.now ≤ 2 * length next.old }
    ensures bytes { result ≡ pair_length limits.now }
    ensures next { take (length limits.now - length limits.now / 2) next.new
        ≡ next_limits limits.now }
{
    let pairs = limits.len() / 2;
    let mut bytes = 0;
    for i in 0..pairs {
        let pair = shrink_pair(limits[2 * i], limits[2 * i + 1]);
        next[i] = pair.limit;
        bytes += pair.bytes;
    }
    carry(limits, 2 * pairs, next, pairs);
    bytes
}
