//! Multiples of eight places at a time.
ghost use Rattle.ntru_ring.specs.Reduction.{IsWithin};

use crate::lanes_q::quotient_of;
use crate::sums_small::centred_word;
use std::simd::prelude::*;

/// A factor, and 65536 times it divided by 4591.
#[derive(Clone, Copy)]
pub struct Factor {
    pub value: i16,
    quotient: i16,
    ghost within: { IsWithin 2295 value },
}

impl Factor {
    /// The factor that is `z` modulo 4591.
    pub fn of(z: i16) -> Factor {
        let value = centred_word(z);
        Factor {
            value,
            quotient: quotient_of(value),
        }
    }
}

/// The high halves of the products.
pub fn high(x: i16x8, y: i16x8) -> i16x8 {
    ((x.cast::<i32>() * y.cast::<i32>()) >> 16).cast::<i16>()
}

/// first * x - second * y in each lane, reduced.
pub fn mixed(x: i16x8, first: Factor, y: i16x8, second: Factor) -> i16x8 {
    let q = i16x8::splat(4591);
    let none = i16x8::splat(0);
    let times = high(x, i16x8::splat(first.quotient)) - high(y, i16x8::splat(second.quotient));
    let near = x * i16x8::splat(first.value) - y * i16x8::splat(second.value) - times * q;
    let more = near + near.simd_lt(i16x8::splat(-2295)).select(q, none);
    more - more.simd_gt(i16x8::splat(2295)).select(q, none)
}
