//! Elements of R/q.
ghost use Rattle.std.specs.Prelude.{◌≡◌, ◌<◌, ◌↔◌, IsTrue, ℕ, length, All, pos, neg_ℤ, slice_set};
ghost use Rattle.ntru_ring.specs.Reduction.{centred, reduced, IsWithin};
ghost use Rattle.ntru_ring.specs.Ring.{plus, scale, shift, times, zero_of};
ghost use Rattle.ntru_ring.specs.Small.{nearest, rounded};
ghost use Rattle.ntru_ring.specs.Elements.{element};

use crate::lanes_q::subtract_multiple;
use crate::modulo_three::{R3, centred_three};
use crate::planes_three::Planes3;
use crate::powers_q::{Powers, turned_back};
use crate::starts::{Signs, Starts};
use crate::sums_q::{SumsQ, centred_q};

/// An element of R/q, q = 4591: the coefficients of x^0 to x^760, each in -2295..2295.
#[derive(Clone, Copy, PartialEq, Eq)]
pub struct Rq {
    /// The coefficients of x^0 to x^760.
    pub coefficients: [i16; 761],
    ghost length: { length coefficients ≡ 761 },
    ghost within: { All (IsWithin 2295) coefficients },
}

/// The nearest multiple of 3.
fn nearest(z: i16) -> i16
    requires { IsWithin 2295 z }
    ensures value { result ≡ nearest z }
    ensures within { IsWithin 2295 result }
{
    z - centred_three(z)
}

impl Rq {
    /// The element with these coefficients.
    pub fn new(c: &[i16; 761]) -> Rq
        requires { All (IsWithin 2295) c.now }
        ensures { result.coefficients ≡ c.now }
    {
        Rq { coefficients: *c }
    }

    /// The coefficients of x^0 to x^760.
    pub fn coefficients(&self) -> &[i16; 761]
        ensures { result.now ≡ self.now.coefficients }
    {
        &self.coefficients
    }

    /// Whether all coefficients are -1, 0 or 1.
    pub fn is_small(&self) -> bool
        ensures { IsTrue result ↔ All (IsWithin 1) self.now.coefficients }
    {
        for k in 0..761 {
            if self.coefficients[k] < -1 || self.coefficients[k] > 1 {
                return false;
            }
        }
        true
    }

    /// Each coefficient's representative modulo 3.
    pub fn to_r3(&self) -> R3
        ensures { result.coefficients ≡ reduced 1 self.now.coefficients }
    {
        let mut small = [0; 761];
        for k in 0..761 {
            small[k] = centred_three(self.coefficients[k]);
        }
        R3 {
            coefficients: small,
        }
    }

    /// The sum in R/q.
    pub fn add(&self, o: &Rq) -> Rq
        ensures { result.coefficients ≡ reduced 2295
            (plus self.now.coefficients o.now.coefficients) }
    {
        let mut sum = [0; 761];
        for k in 0..761 {
            sum[k] = centred_q(i32::from(self.coefficients[k]) + i32::from(o.coefficients[k]));
        }
        Rq { coefficients: sum }
    }

    /// `by` times each coefficient, in R/q.
    pub fn scale(&self, by: i16) -> Rq
        ensures { result.coefficients ≡ reduced 2295 (scale by self.now.coefficients) }
    {
        let mut scaled = [0; 761];
        for k in 0..761 {
            scaled[k] = centred_q(i32::from(by) * i32::from(self.coefficients[k]));
        }
        Rq {
            coefficients: scaled,
        }
    }

    /// The nearest multiple of 3 of each coefficient.
    pub fn round(&self) -> Rq
        ensures { result.coefficients ≡ rounded self.now.coefficients }
    {
        let mut rounded = [0; 761];
        for k in 0..761 {
            rounded[k] = nearest(self.coefficients[k]);
        }
        Rq {
            coefficients: rounded,
        }
    }

    /// The product in R/q.
    pub fn mul(&self, o: &Rq) -> Rq
        ensures { result.coefficients ≡ reduced 2295
            (times self.now.coefficients o.now.coefficients) }
    {
        let mut product = Rq::zero();
        for k in 0..761 {
            product = product.shift();
            product.subtract_row(o, -self.coefficients[760 - k]);
        }
        product
    }

    /// The product in R/q, by rows that are reduced late.
    pub fn mul_plain(&self, o: &Rq) -> Rq
        ensures { result.coefficients ≡ reduced 2295
            (times self.now.coefficients o.now.coefficients) }
    {
        let mut sums = SumsQ::of(&Rq::zero());
        for k in 0..761 {
            sums.shift();
            sums.add(self.coefficients[760 - k], o, 0, 761);
        }
        sums.settled()
    }

    /// The product in R/q with a small factor, whose planes say whether a power of x is added and
    /// with which sign.
    pub fn mul_small(&self, small: &Planes3) -> Rq
        ensures { result.coefficients ≡ reduced 2295
            (times self.now.coefficients (element small.now)) }
    {
        let powers = Powers::of(self);
        let mut added = Starts::new();
        let mut subtracted = Starts::new();
        for k in 0..761 {
            let signs = Signs::of(small.at(k));
            added.push(760 - k, signs.plus);
            subtracted.push(760 - k, signs.minus);
        }
        let mut sum = powers.sum_of(&added);
        sum.subtract_row(&powers.sum_of(&subtracted), 1);
        turned_back(&sum)
    }

    /// Subtracts `factor` times `other`, in R/q.
    pub fn subtract_row(&mut self, other: &Rq, factor: i16)
        ensures { self.new.coefficients ≡ reduced 2295
            (plus self.old.coefficients (scale (neg_ℤ factor) other.now.coefficients)) }
    {
        subtract_multiple(
            &mut self.coefficients,
            &other.coefficients,
            centred_q(i32::from(factor)),
        );
    }

    /// x times the element.
    pub(crate) fn shift(&self) -> Rq
        ensures { result.coefficients ≡ reduced 2295 (shift self.now.coefficients) }
    {
        let last = self.coefficients[760];
        let mut moved = [0; 761];
        for k in 1..761 {
            moved[k] = self.coefficients[k - 1];
        }
        moved[0] = last;
        moved[1] = centred_q(i32::from(moved[1]) + i32::from(last));
        Rq {
            coefficients: moved,
        }
    }

    /// The element 0.
    pub fn zero() -> Rq
        ensures { result.coefficients ≡ zero_of 761 }
    {
        Rq {
            coefficients: [0; 761],
        }
    }

    /// The element `c` times x^place.
    pub fn monomial(place: usize, c: i16) -> Rq
        requires place { place < 761 }
        requires within { IsWithin 2295 c }
        ensures { result.coefficients ≡ slice_set (zero_of 761) place c }
    {
        let mut coefficients = Rq::zero().coefficients;
        coefficients[place] = c;
        Rq { coefficients }
    }
}
