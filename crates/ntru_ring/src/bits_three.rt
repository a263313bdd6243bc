//! Rows of the elimination over R/3 in one array of bits.
ghost use Rattle.std.specs.Prelude.{◌<◌, ◌≤◌, ◌*◌};
ghost use Rattle.ntru_ring.specs.Reduction.{IsWithin};

use crate::modulo_three::R3;
use crate::planes_three::Planes3;
use crate::words_three::moved_up;

/// The bits that the last word has a use for: those below 64 + 761.
const LAST_WORD: u64 = 0x01ff_ffff_ffff_ffff;

/// A coefficient, each of whose bits is a word of equal bits.
#[derive(Clone, Copy)]
pub struct Sign {
    pub nonzero: u64,
    pub negative: u64,
}

/// Both parts of a row, as planes.
#[derive(Clone, Copy)]
pub struct Bits {
    pub nonzero: [u64; 13],
    pub negative: [u64; 13],
}

/// A word of bits that equal the lowest one.
fn spread(bit: u64) -> u64 {
    0u64.wrapping_sub(bit & 1)
}

impl Bits {
    /// A row that has `a`, and a b of `first` at x^0.
    pub fn of(a: &Planes3, first: u64) -> Bits {
        let mut nonzero = [0; 13];
        let mut negative = [0; 13];
        for k in 0..12 {
            nonzero[k + 1] = a.nonzero[k];
            negative[k + 1] = a.negative[k];
        }
        nonzero[0] = first;
        Bits { nonzero, negative }
    }

    /// The coefficient of x^place of a.
    pub fn at(&self, place: usize) -> Sign
        requires { place < 761 }
    {
        Sign {
            nonzero: spread(self.nonzero[place / 64 + 1] >> (place % 64)),
            negative: spread(self.negative[place / 64 + 1] >> (place % 64)),
        }
    }

    /// The first place of a from `low` on that isn't zero, or 761.
    pub fn lead(&self, low: usize) -> usize
        requires { low ≤ 761 }
        ensures { result ≤ 761 }
    {
        let first = low / 64;
        for k in first..12 {
            let word = if k == first {
                self.nonzero[k + 1] >> (low % 64) << (low % 64)
            } else {
                self.nonzero[k + 1]
            };
            if word != 0 {
                return 761.min(64 * k + word.trailing_zeros() as usize);
            }
        }
        761
    }

    /// x times the row, without the last coefficient of a.
    pub fn rise(&mut self) {
        let mut nonzero = [0; 13];
        let mut negative = [0; 13];
        nonzero[0] = moved_up(self.nonzero[0], 0);
        negative[0] = moved_up(self.negative[0], 0);
        for k in 1..13 {
            nonzero[k] = moved_up(self.nonzero[k], self.nonzero[k - 1]);
            negative[k] = moved_up(self.negative[k], self.negative[k - 1]);
        }
        nonzero[12] = nonzero[12] & LAST_WORD;
        negative[12] = negative[12] & LAST_WORD;
        self.nonzero = nonzero;
        self.negative = negative;
    }

    /// Adds `other`, or its opposite where `turned` is all ones.
    fn add(&mut self, other: &Bits, turned: u64) {
        for k in 0..13 {
            let nonzero = other.nonzero[k];
            let negative = other.negative[k] ^ (nonzero & turned);
            let one = self.nonzero[k] ^ negative;
            let two = self.negative[k] ^ nonzero;
            self.nonzero[k] = (one ^ self.negative[k]) | (two ^ negative);
            self.negative[k] = one & two;
        }
    }

    /// Subtracts the multiple of `row` that makes a zero at a place where the row has `unit`, 1 or
    /// -1.
    pub fn clear(&mut self, there: Sign, row: &Bits, unit: Sign) {
        if there.nonzero != 0 {
            self.add(row, !(there.negative ^ unit.negative));
        }
    }

    /// The row, or its opposite where `unit` is -1.
    pub fn scaled(&self, unit: Sign) -> Bits {
        let mut negative = [0; 13];
        for k in 0..13 {
            negative[k] = self.negative[k] ^ (self.nonzero[k] & unit.negative);
        }
        Bits {
            nonzero: self.nonzero,
            negative,
        }
    }

    /// The coefficient of x^place of b.
    fn b_at(&self, place: usize) -> i16
        requires { place < 761 }
        ensures { IsWithin 1 result }
    {
        if self.nonzero[place / 64] >> (place % 64) & 1 == 0 {
            0
        } else if self.negative[place / 64] >> (place % 64) & 1 == 0 {
            1
        } else {
            -1
        }
    }

    /// The element b.
    pub fn b(&self) -> R3 {
        let mut coefficients = [0; 761];
        for k in 0..761 {
            coefficients[k] = self.b_at(k);
        }
        R3::new(&coefficients)
    }
}
