//! Both rows, and what a block of steps makes of them.
//!
//! A row is one array: a from its first place that may be other than zero, 31 zeros, b. With each
//! step a loses a place and b gains one, and all else moves down by one.
ghost use Rattle.std.specs.Prelude.{◌≤◌, ◌<◌, ◌+◌};

use crate::blocks_q::block::{Block, STEPS};
use crate::blocks_q::factor::high;
use std::simd::prelude::*;

/// Both rows, a place of `row` before the same of `aim`; what a block does to them, the terms for
/// one place four times; and the sums that are to be the new rows. They stand in one place, so that
/// the compiler reads the terms anew as 16 bits, for whose products and sums processors have an
/// operation.
#[derive(Drop)]
pub struct Rows {
    pub places: [i16; 1744],
    row_terms: [i16; 256],
    aim_terms: [i16; 256],
    row_sums: [i32; 856],
    aim_sums: [i32; 856],
}

/// Four places of both rows in each of four vectors.
#[derive(Clone, Copy)]
struct Places {
    first: i16x8,
    second: i16x8,
    third: i16x8,
    fourth: i16x8,
}

/// The sums for these places.
#[derive(Clone, Copy)]
struct Sums {
    first: i32x4,
    second: i32x4,
    third: i32x4,
    fourth: i32x4,
}

/// The products, each with the one beside it added.
fn pairs(x: i16x8, y: i16x8) -> i32x4 {
    let products = x.cast::<i32>() * y.cast::<i32>();
    products.swizzle([0, 2, 4, 6]) + products.swizzle([1, 3, 5, 7])
}

impl Sums {
    /// No sum yet.
    fn zero() -> Sums {
        let none = i32x4::splat(0);
        Sums {
            first: none,
            second: none,
            third: none,
            fourth: none,
        }
    }

    /// The sums with a term for each row times these places added.
    fn plus(self, terms: i16x8, places: Places) -> Sums {
        Sums {
            first: self.first + pairs(terms, places.first),
            second: self.second + pairs(terms, places.second),
            third: self.third + pairs(terms, places.third),
            fourth: self.fourth + pairs(terms, places.fourth),
        }
    }

    /// Puts the sums from a place on.
    fn store(self, sums: &mut [i32; 856], at: usize)
        requires { at + 16 ≤ 856 }
    {
        self.first.copy_to_slice(&mut sums[at..]);
        self.second.copy_to_slice(&mut sums[at + 4..]);
        self.third.copy_to_slice(&mut sums[at + 8..]);
        self.fourth.copy_to_slice(&mut sums[at + 12..]);
    }
}

/// The terms of two polynomials by whose multiples a row is made, from the place `last` down, each
/// four times.
fn turned(row: &[i16; 48], aim: &[i16; 48], last: usize) -> [i16; 256]
    requires { last ≤ STEPS }
{
    let mut turned = [0; 256];
    for k in 0..32 {
        if k <= last {
            for j in 0..4 {
                turned[8 * k + 2 * j] = row[last - k];
                turned[8 * k + 2 * j + 1] = aim[last - k];
            }
        }
    }
    turned
}

/// The representative of each lane, of whose size is less than 2^30.
fn settled(x: i32x8) -> i16x8 {
    let times = ((x >> 14) * i32x8::splat(29235)) >> 13;
    let z = (((x - times * i32x8::splat(4591)) * i32x8::splat(65536)) >> 16).cast::<i16>();
    let rest = z - high(z, i16x8::splat(14)) * i16x8::splat(4591);
    rest - rest
        .simd_gt(i16x8::splat(2295))
        .select(i16x8::splat(4591), i16x8::splat(0))
}

impl Rows {
    /// The rows with these places.
    pub fn new(places: &[i16; 1744]) -> Rows {
        Rows {
            places: *places,
            row_terms: [0; 256],
            aim_terms: [0; 256],
            row_sums: [0; 856],
            aim_sums: [0; 856],
        }
    }

    /// A block that sees the ends of the rows, of whose a `degree` is the last place.
    pub fn block(&self, degree: usize) -> Block
        requires { degree < 761 }
    {
        let mut block = Block::new();
        for k in 0..32 {
            block.low.row[k] = self.places[2 * k];
            block.low.aim[k] = self.places[2 * k + 1];
            if k <= degree {
                block.top.row[k] = self.places[2 * (degree - k)];
                block.top.aim[k] = self.places[2 * (degree - k) + 1];
            }
        }
        block
    }

    /// Makes the new rows, by what a block's `count` steps did. Their a has `left` places.
    pub fn turn(&mut self, block: &Block, count: usize, left: usize)
        requires count { count ≤ STEPS }
        requires left { left ≤ 761 }
    {
        self.row_terms = turned(&block.of_row.row, &block.of_aim.row, STEPS);
        self.aim_terms = turned(&block.of_row.aim, &block.of_aim.aim, count);
        for k in 0..(left + 15) / 16 {
            self.add_up(16 * k);
        }
        for k in left..left + STEPS {
            self.row_sums[k] = 0;
            self.aim_sums[k] = 0;
        }
        let from = left + STEPS;
        for k in 0..(808 - from + 15) / 16 {
            self.add_up(from + 16 * k);
        }
        self.settle();
    }

    /// Sixteen places of both rows.
    fn places_at(&self, from: usize) -> Places
        requires { from + 32 ≤ 1744 }
    {
        Places {
            first: i16x8::from_slice(&self.places[from..]),
            second: i16x8::from_slice(&self.places[from + 8..]),
            third: i16x8::from_slice(&self.places[from + 16..]),
            fourth: i16x8::from_slice(&self.places[from + 24..]),
        }
    }

    /// Adds up 16 new places of both rows.
    fn add_up(&mut self, at: usize)
        requires { at ≤ 824 }
    {
        let mut row = Sums::zero();
        let mut aim = Sums::zero();
        for k in 0..32 {
            let places = self.places_at(2 * (at + k));
            row = row.plus(i16x8::from_slice(&self.row_terms[8 * k..]), places);
            aim = aim.plus(i16x8::from_slice(&self.aim_terms[8 * k..]), places);
        }
        row.store(&mut self.row_sums, at);
        aim.store(&mut self.aim_sums, at);
    }

    /// Puts the representatives of the sums in the place of the rows, 824 of each.
    fn settle(&mut self) {
        for k in 0..103 {
            let row = settled(i32x8::from_slice(&self.row_sums[8 * k..]));
            let aim = settled(i32x8::from_slice(&self.aim_sums[8 * k..]));
            let (first, second) = row.interleave(aim);
            first.copy_to_slice(&mut self.places[16 * k..]);
            second.copy_to_slice(&mut self.places[16 * k + 8..]);
        }
    }
}
