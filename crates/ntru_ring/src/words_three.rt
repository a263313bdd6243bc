//! Words of planes: 64 coefficients of R/3 at a time.
ghost use Rattle.std.specs.Prelude.{◌≡◌, ◌+◌, ◌≤◌, ◌<◌, ◌*◌, ◌+ℤ◌, pos, ℕ};
ghost use Rattle.std.specs.Int.{bit_at};
ghost use Rattle.ntru_ring.specs.Reduction.{centred, IsWithin};
ghost use Rattle.ntru_ring.specs.Planes.{from_bits};

/// A word of each plane.
#[derive(Clone, Copy)]
pub struct Word3 {
    pub nonzero: u64,
    pub negative: u64,
    ghost inside: { (j : ℕ) → bit_at negative j ≤ bit_at nonzero j },
}

impl Word3 {
    /// The word whose place 0 has the coefficient `c`, the others 0.
    pub fn of(c: i16) -> Word3
        requires { IsWithin 1 c }
        ensures value { from_bits result.nonzero result.negative ≡ c }
        ensures small { result.nonzero < 2 }
        ensures within { result.negative ≤ result.nonzero }
    {
        Word3 {
            nonzero: (c != 0) as u64,
            negative: (c < 0) as u64,
        }
    }

    /// The word whose places 0 and 1 have the coefficient `c`, the others 0.
    pub fn pair_of(c: i16) -> Word3
        requires { IsWithin 1 c }
        ensures first { from_bits (bit_at result.nonzero 0) (bit_at result.negative 0) ≡ c }
        ensures second { from_bits (bit_at result.nonzero 1) (bit_at result.negative 1) ≡ c }
        ensures above { (j : ℕ) → 2 ≤ j
            → from_bits (bit_at result.nonzero j) (bit_at result.negative j) ≡ pos 0 }
    {
        let one = Word3::of(c);
        Word3 {
            nonzero: 3 * one.nonzero,
            negative: 3 * one.negative,
        }
    }

    /// The sums modulo 3.
    pub fn add(self, o: Word3) -> Word3
        ensures { (j : ℕ) → from_bits (bit_at result.nonzero j) (bit_at result.negative j)
            ≡ centred 1 (from_bits (bit_at self.nonzero j) (bit_at self.negative j) +ℤ from_bits
            (bit_at o.nonzero j) (bit_at o.negative j)) }
    {
        let one = self.nonzero ^ o.negative;
        let other = self.negative ^ o.nonzero;
        Word3 {
            nonzero: (one ^ self.negative) | (other ^ o.negative),
            negative: one & other,
        }
    }
}

/// A word moved up by one place, after the last place of the word `before`.
pub fn moved_up(word: u64, before: u64) -> u64
    ensures first { bit_at result 0 ≡ bit_at before 63 }
    ensures rest { (j : ℕ) → j < 63 → bit_at result (j + 1) ≡ bit_at word j }
{
    word << 1 | before >> 63
}
