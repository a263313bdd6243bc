//! A candidate for the inverse in R/3, by shift elimination on planes of bits.
//!
//! Row k is a multiple a = g * b, where b has degree k, and a is zero at the pivots of the rows
//! before it. x times this row is the next one but for two things. The last coefficient comes round
//! as a multiple of 1 + x: `aim`, a multiple less 1 + x that is zero at every pivot, clears it. And
//! a pivot that no pivot stands before takes what the row has there: `kept`, which is 1 at this
//! pivot and 0 at all others, clears that. At the end `aim` is zero everywhere. Since the rows
//! begin with g * (1 + x) in place of g, its b is the inverse of g.
//!
//! Where there is no gap, a is zero before x^k, and b after it. So one array of bits holds both: b
//! from its first bit on, and a 64 bits after it. x times a row moves both up by one bit.
//! Coefficients are -1, 0 and 1, so a row is added or subtracted, and a word does so to 64 places
//! at once.
//!
//! No clause says what the candidate is: whoever asks for it tries it by a product. It isn't the
//! inverse where g has none, and might not be where two such pivots stand at a time.
ghost use Rattle.std.specs.Prelude.{◌<◌, ◌≤◌, ◌≡◌, ℕ, true, false, slice_index_or};

use crate::bits_three::{Bits, Sign};
use crate::modulo_three::R3;
use crate::planes_three::Planes3;

/// The coefficient 1.
const ONE: Sign = Sign {
    nonzero: u64::MAX,
    negative: 0,
};

/// The first place from `from` on that no pivot has, or 761.
fn first_free(taken: &[bool; 761], from: usize) -> usize
    requires { from ≤ 761 }
    ensures behind { from ≤ result }
    ensures within { result ≤ 761 }
    ensures before { (k : ℕ) → from ≤ k → k < result
        → slice_index_or taken.now k false ≡ true }
    ensures free { result < 761 → slice_index_or taken.now result true ≡ false }
{
    for place in from..761 {
        if !taken[place] {
            return place;
        }
    }
    761
}

/// `aim` before the first step: -1 - x, with the b zero.
fn first_aim() -> Bits {
    let mut aim = Bits::of(&Planes3::zero(), 0);
    aim.nonzero[1] = 3;
    aim.negative[1] = 3;
    aim
}

/// What is the inverse of `g`, unless the caller's trial shows that it isn't.
pub fn candidate_three(g: &Planes3) -> R3 {
    let mut row = Bits::of(&g.add(&g.shift()), 1);
    let mut aim = first_aim();
    let mut kept = aim;
    let mut gap: usize = 0;
    let mut taken = [false; 761];
    let mut low: usize = 0;
    for _ in 0..761 {
        let pivot = row.lead(low);
        if pivot == 761 {
            return aim.b();
        }
        let unit = row.at(pivot);
        let there = aim.at(pivot);
        aim.clear(there, &row, unit);
        if gap > 0 {
            let there = kept.at(pivot);
            kept.clear(there, &row, unit);
        }
        let before = row;
        let last = row.at(760);
        row.rise();
        row.clear(last, &aim, ONE);
        if gap > 0 {
            let there = row.at(gap);
            row.clear(there, &kept, ONE);
        }
        taken[pivot] = true;
        if gap > 0 && taken[gap - 1] {
            gap = 0;
        }
        if pivot > 0 && !taken[pivot - 1] {
            kept = before.scaled(unit);
            gap = pivot;
        }
        low = first_free(&taken, low);
    }
    aim.b()
}
