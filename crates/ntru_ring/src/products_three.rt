//! Products in R/3, by 64 moves of a sum by one place.
//!
//! A place is 64 times a number of words, and a remainder. The second factor stands ready times
//! x^0, x^64 and so on. Those of them that the first factor has at places with one remainder are
//! added, from the greatest remainder down, and the sum moves up by a place in between.
ghost use Rattle.std.specs.Prelude.{◌≡◌, ◌≤◌, ◌<◌, ◌+◌, ◌-◌, ◌*◌, ℕ, slice_index_or};
ghost use Rattle.ntru_ring.specs.Reduction.{reduced};
ghost use Rattle.ntru_ring.specs.Ring.{times};
ghost use Rattle.ntru_ring.specs.Planes.{bit_of, element_of};
ghost use Rattle.ntru_ring.specs.Elements.{element};
ghost use Rattle.ntru_ring.specs.Powers.{shifted};
ghost use Rattle.ntru_ring.specs.declared.planes_three.Planes3.{Planes3};

use crate::planes_three::{LAST_WORD, Planes3};

/// The words moved up by one, without what comes after the last place.
fn moved_word(words: &[u64; 12]) -> [u64; 12]
    ensures low { (k : ℕ) → k < 64 → bit_of result k ≡ 0 }
    ensures rest { (k : ℕ) → 64 ≤ k → k < 761 → bit_of result k ≡ bit_of words.now (k - 64) }
    ensures end { (k : ℕ) → 761 ≤ k → bit_of result k ≡ 0 }
{
    let mut moved = [0; 12];
    for k in 1..12 {
        moved[k] = words[k - 1];
    }
    moved[11] = moved[11] & LAST_WORD;
    moved
}

/// The last 64 places as the first ones.
fn come_round(words: &[u64; 12]) -> [u64; 12]
    ensures low { (k : ℕ) → k < 64 → bit_of result k ≡ bit_of words.now (697 + k) }
    ensures rest { (k : ℕ) → 64 ≤ k → bit_of result k ≡ 0 }
{
    let mut places = [0; 12];
    places[0] = words[10] >> 57 | words[11] << 7;
    places
}

/// x^64 times the element, in R/3.
fn shift_word(a: &Planes3) -> Planes3
    ensures { element result ≡ reduced 1 (shifted 64 (element a.now)) }
{
    let moved = Planes3 {
        nonzero: moved_word(&a.nonzero),
        negative: moved_word(&a.negative),
    };
    let round = Planes3 {
        nonzero: come_round(&a.nonzero),
        negative: come_round(&a.negative),
    };
    moved.add(&round.add(&round.shift()))
}

/// x^0, x^64 and so on times the element, in R/3.
fn rows_of(a: &Planes3) -> [Planes3; 12]
    ensures { (k : ℕ) (d : Planes3) → k < 12
        → element (slice_index_or result k d) ≡ reduced 1 (shifted (64 * k) (element a.now)) }
{
    let mut rows = [*a; 12];
    for k in 1..12 {
        rows[k] = shift_word(&rows[k - 1]);
    }
    rows
}

impl Planes3 {
    /// The product in R/3.
    pub fn mul(&self, o: &Planes3) -> Planes3
        ensures { element result ≡ reduced 1 (times (element self.now) (element o.now)) }
    {
        let rows = rows_of(o);
        let mut product = Planes3::zero();
        for k in 0..64 {
            let place = 63 - k;
            product = product.shift();
            for j in 0..(824 - place) / 64 {
                product = product.add_multiple(self.at(64 * j + place), &rows[j]);
            }
        }
        product
    }
}
