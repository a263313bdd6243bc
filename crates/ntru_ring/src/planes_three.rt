//! Elements of R/3 as planes of bits: whether a coefficient isn't zero, and whether it is negative.
ghost use Rattle.std.specs.Prelude.{◌≡◌, ◌≢◌, ◌≤◌, ◌<◌, ◌+◌, ◌*◌, ℕ, pos, slice_index_or, negsuc, ◌/◌, ◌%◌};
ghost use Rattle.std.specs.Int.{bit_at};
ghost use Rattle.ntru_ring.specs.Reduction.{reduced, IsWithin};
ghost use Rattle.ntru_ring.specs.Ring.{plus, scale, shift, zero_of, coefficient};
ghost use Rattle.ntru_ring.specs.Planes.{bit_of, element_of, IsMoved};

use crate::modulo_three::R3;
use crate::words_three::{Word3, moved_up};

/// An element of R/3 by two bits for each coefficient: bit j of word k speaks of x^(64k + j).
#[derive(Clone, Copy, PartialEq, Eq)]
pub struct Planes3 {
    /// Which coefficients aren't zero.
    pub nonzero: [u64; 12],
    /// Which coefficients are -1.
    pub negative: [u64; 12],
    ghost inside: { (k : ℕ) → bit_of negative k ≤ bit_of nonzero k },
    ghost end: { (k : ℕ) → 761 ≤ k → bit_of nonzero k ≡ 0 },
}

/// The last word's places below 761.
pub const LAST_WORD: u64 = 0x01ff_ffff_ffff_ffff;

/// Each bit moved up by one place, without the last one.
fn moved(words: &[u64; 12]) -> [u64; 12]
    ensures { IsMoved words.now result }
{
    let mut moved = [0; 12];
    moved[0] = moved_up(words[0], 0);
    for k in 1..12 {
        moved[k] = moved_up(words[k], words[k - 1]);
    }
    moved[11] = moved[11] & LAST_WORD;
    moved
}

/// Puts a bit at a place that has 0.
fn put(words: &mut [u64; 12], place: usize, bit: u64)
    requires place { place < 768 }
    requires bit { bit < 2 }
    requires empty { bit_of words.old place ≡ 0 }
    ensures there { bit_of words.new place ≡ bit }
    ensures others { (k : ℕ) → k ≢ place → bit_of words.new k ≡ bit_of words.old k }
{
    words[place / 64] = words[place / 64] | bit << (place % 64);
}

/// The planes of an element.
pub fn planes_of(g: &R3) -> Planes3
    ensures { element_of result.nonzero result.negative ≡ g.now.coefficients }
{
    let mut nonzero = [0; 12];
    let mut negative = [0; 12];
    for k in 0..761 {
        let bits = Word3::of(g.coefficients[k]);
        put(&mut nonzero, k, bits.nonzero);
        put(&mut negative, k, bits.negative);
    }
    Planes3 { nonzero, negative }
}

/// The element of two planes.
pub fn r3_of(planes: &Planes3) -> R3
    ensures { result.coefficients ≡ element_of planes.now.nonzero planes.now.negative }
{
    let mut coefficients = R3::zero().coefficients;
    for k in 0..761 {
        coefficients[k] = planes.at(k);
    }
    R3 { coefficients }
}

impl Planes3 {
    /// The element 0.
    pub(crate) fn zero() -> Planes3
        ensures { element_of result.nonzero result.negative ≡ zero_of 761 }
    {
        Planes3 {
            nonzero: [0; 12],
            negative: [0; 12],
        }
    }

    /// The coefficient of x^place.
    pub fn at(&self, place: usize) -> i16
        requires { place < 761 }
        ensures value { result ≡ coefficient (element_of self.now.nonzero self.now.negative) place }
        ensures within { IsWithin 1 result }
    {
        let nonzero = self.nonzero[place / 64] >> (place % 64) & 1;
        let negative = self.negative[place / 64] >> (place % 64) & 1;
        nonzero as i16 - 2 * negative as i16
    }

    fn word(&self, k: usize) -> Word3
        requires { k < 12 }
        ensures nonzero { result.nonzero ≡ slice_index_or self.now.nonzero k 0 }
        ensures negative { result.negative ≡ slice_index_or self.now.negative k 0 }
    {
        Word3 {
            nonzero: self.nonzero[k],
            negative: self.negative[k],
        }
    }

    /// The sum in R/3.
    pub fn add(&self, o: &Planes3) -> Planes3
        ensures { element_of result.nonzero result.negative
            ≡ reduced 1 (plus (element_of self.now.nonzero self.now.negative)
            (element_of o.now.nonzero o.now.negative)) }
    {
        let mut nonzero = [0; 12];
        let mut negative = [0; 12];
        for k in 0..12 {
            let sum = self.word(k).add(o.word(k));
            nonzero[k] = sum.nonzero;
            negative[k] = sum.negative;
        }
        Planes3 { nonzero, negative }
    }

    /// The difference in R/3.
    pub fn sub(&self, o: &Planes3) -> Planes3
        ensures { element_of result.nonzero result.negative
            ≡ reduced 1 (plus (element_of self.now.nonzero self.now.negative)
            (scale (negsuc 0) (element_of o.now.nonzero o.now.negative))) }
    {
        self.add(&o.opposite())
    }

    /// The sum with `by` times another, in R/3.
    pub(crate) fn add_multiple(&self, by: i16, o: &Planes3) -> Planes3
        requires { IsWithin 1 by }
        ensures { element_of result.nonzero result.negative
            ≡ reduced 1 (plus (element_of self.now.nonzero self.now.negative)
            (scale by (element_of o.now.nonzero o.now.negative))) }
    {
        if by == 0 {
            *self
        } else if by == 1 {
            self.add(o)
        } else {
            self.sub(o)
        }
    }

    /// The place of the first coefficient that isn't zero, or 761.
    pub(crate) fn lead(&self) -> usize
        ensures within { result ≤ 761 }
        ensures before { (k : ℕ) → k < result
            → coefficient (element_of self.now.nonzero self.now.negative) k ≡ pos 0 }
        ensures there { result < 761
            → coefficient (element_of self.now.nonzero self.now.negative) result ≢ pos 0 }
    {
        for k in 0..12 {
            if self.nonzero[k] != 0 {
                return 64 * k + self.nonzero[k].trailing_zeros() as usize;
            }
        }
        761
    }

    /// Each coefficient's opposite.
    fn opposite(&self) -> Planes3
        ensures { element_of result.nonzero result.negative ≡ scale (negsuc 0)
            (element_of self.now.nonzero self.now.negative) }
    {
        let mut negative = [0; 12];
        for k in 0..12 {
            negative[k] = self.nonzero[k] ^ self.negative[k];
        }
        Planes3 {
            nonzero: self.nonzero,
            negative,
        }
    }

    /// x times the element, in R/3.
    pub fn shift(&self) -> Planes3
        ensures { element_of result.nonzero result.negative ≡ reduced 1
            (shift (element_of self.now.nonzero self.now.negative)) }
    {
        let mut nonzero = moved(&self.nonzero);
        let mut negative = moved(&self.negative);
        let low = Word3 {
            nonzero: nonzero[0],
            negative: negative[0],
        };
        let first = low.add(Word3::pair_of(self.at(760)));
        nonzero[0] = first.nonzero;
        negative[0] = first.negative;
        Planes3 { nonzero, negative }
    }
}
