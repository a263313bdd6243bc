//! Elements of R/3.
ghost use Rattle.std.specs.Prelude.{◌≡◌, ◌<◌, length, All, slice_set};
ghost use Rattle.ntru_ring.specs.Reduction.{centred, reduced, IsWithin};
ghost use Rattle.ntru_ring.specs.Ring.{plus, times, zero_of};
ghost use Rattle.ntru_ring.specs.Small.{weight};

use crate::modulo_q::Rq;
use crate::planes_three::{planes_of, r3_of};

/// An element of R/3: the coefficients of x^0 to x^760, each -1, 0 or 1.
#[derive(Clone, Copy, PartialEq, Eq)]
pub struct R3 {
    /// The coefficients of x^0 to x^760.
    pub coefficients: [i16; 761],
    ghost length: { length coefficients ≡ 761 },
    ghost within: { All (IsWithin 1) coefficients },
}

/// 1 and 10,922 times 3: its sum with a number in -32766..32766 fits `u16`.
const RAISE: i32 = 32_767;

/// The representative of `z` modulo 3.
pub fn centred_three(z: i16) -> i16
    requires { IsWithin 32766 z }
    ensures value { result ≡ centred 1 z }
    ensures within { IsWithin 1 result }
{
    ((i32::from(z) + RAISE) as u16 % 3) as i16 - 1
}

impl R3 {
    /// The element with these coefficients.
    pub fn new(c: &[i16; 761]) -> R3
        requires { All (IsWithin 1) c.now }
        ensures { result.coefficients ≡ c.now }
    {
        R3 { coefficients: *c }
    }

    /// The coefficients of x^0 to x^760.
    pub fn coefficients(&self) -> &[i16; 761]
        ensures { result.now ≡ self.now.coefficients }
    {
        &self.coefficients
    }

    /// The same coefficients in R/q.
    pub fn lift(&self) -> Rq
        ensures { result.coefficients ≡ self.now.coefficients }
    {
        Rq::new(&self.coefficients)
    }

    /// The sum in R/3.
    pub fn add(&self, o: &R3) -> R3
        ensures { result.coefficients ≡ reduced 1 (plus self.now.coefficients o.now.coefficients) }
    {
        let mut sum = [0; 761];
        for k in 0..761 {
            sum[k] = centred_three(self.coefficients[k] + o.coefficients[k]);
        }
        R3 { coefficients: sum }
    }

    /// The product in R/3, on planes.
    pub fn mul(&self, o: &R3) -> R3
        ensures { result.coefficients ≡ reduced 1 (times self.now.coefficients o.now.coefficients) }
    {
        r3_of(&planes_of(self).mul(&planes_of(o)))
    }

    /// The element 0.
    pub fn zero() -> R3
        ensures { result.coefficients ≡ zero_of 761 }
    {
        R3 {
            coefficients: [0; 761],
        }
    }

    /// The element `c` times x^place.
    pub fn monomial(place: usize, c: i16) -> R3
        requires place { place < 761 }
        requires within { IsWithin 1 c }
        ensures { result.coefficients ≡ slice_set (zero_of 761) place c }
    {
        let mut coefficients = R3::zero().coefficients;
        coefficients[place] = c;
        R3 { coefficients }
    }

    /// How many coefficients aren't zero.
    pub fn weight(&self) -> u32
        ensures { result ≡ weight self.now.coefficients }
    {
        let mut weight = 0;
        for c in &self.coefficients {
            if *c != 0 {
                weight += 1;
            }
        }
        weight
    }
}
