//! The steps of a block, on the ends of the rows.
ghost use Rattle.std.specs.Prelude.{◌≤◌, ◌<◌, ◌+◌, ◌*◌};

use crate::blocks_q::factor::{Factor, mixed};
use crate::sums_q::product;
use std::simd::prelude::*;

/// How many steps a block has.
pub const STEPS: usize = 31;

/// A part of both rows, or a multiple for each of them.
#[derive(Drop)]
pub struct Sides {
    pub row: [i16; 48],
    pub aim: [i16; 48],
}

/// What a block's steps look at and what they do.
#[derive(Drop)]
pub struct Block {
    /// The first places of a.
    pub low: Sides,
    /// The last places of a, from the last one on.
    pub top: Sides,
    /// Which multiples of the old `row` are in the new rows. Those of the new `row` end at the
    /// place 31, those of `aim` begin at 0.
    pub of_row: Sides,
    /// Which multiples of the old `aim` are in them.
    pub of_aim: Sides,
}

/// The factors of a step: `aim` becomes `unit` times itself less `there` times `row`, and then
/// `row` becomes `scale` times itself less `last` times `aim`.
#[derive(Clone, Copy)]
struct Step {
    unit: Factor,
    there: Factor,
    scale: Factor,
    last: Factor,
}

/// Puts first * a - second * b in the place of a, eight places at a time.
fn mix(
    a: &mut [i16; 48],
    at: usize,
    first: Factor,
    b: &[i16; 48],
    from: usize,
    second: Factor,
    blocks: usize,
)
    requires a { at + 8 * blocks ≤ 48 }
    requires b { from + 8 * blocks ≤ 48 }
{
    for k in 0..blocks {
        let x = i16x8::from_slice(&a[at + 8 * k..]);
        let y = i16x8::from_slice(&b[from + 8 * k..]);
        mixed(x, first, y, second).copy_to_slice(&mut a[at + 8 * k..]);
    }
}

impl Sides {
    /// Nothing.
    fn zero() -> Sides {
        Sides {
            row: [0; 48],
            aim: [0; 48],
        }
    }

    /// Clears `aim` from a place on, by `row` from a place on.
    fn clear(&mut self, aim: usize, row: usize, by: Step, blocks: usize)
        requires aim { aim + 8 * blocks ≤ 48 }
        requires row { row + 8 * blocks ≤ 48 }
    {
        mix(
            &mut self.aim,
            aim,
            by.unit,
            &self.row,
            row,
            by.there,
            blocks,
        );
    }

    /// Makes the next row from a place on, by `aim` from a place on.
    fn go_on(&mut self, row: usize, aim: usize, by: Step, blocks: usize)
        requires row { row + 8 * blocks ≤ 48 }
        requires aim { aim + 8 * blocks ≤ 48 }
    {
        mix(
            &mut self.row,
            row,
            by.scale,
            &self.aim,
            aim,
            by.last,
            blocks,
        );
    }
}

impl Block {
    /// A block that has done nothing, and has seen nothing of the rows.
    pub fn new() -> Block {
        let mut block = Block {
            low: Sides::zero(),
            top: Sides::zero(),
            of_row: Sides::zero(),
            of_aim: Sides::zero(),
        };
        block.of_row.row[STEPS] = 1;
        block.of_aim.aim[0] = 1;
        block
    }

    /// A step, before which there were `done` of `count`. Gives the factor that `aim` has after it.
    fn step(&mut self, done: usize, count: usize, scale: Factor, unit: Factor) -> Factor
        requires done { done < count }
        requires count { count ≤ STEPS }
    {
        let by = Step {
            unit,
            there: Factor::of(self.low.aim[done]),
            scale: Factor::of(product(scale.value, unit.value)),
            last: Factor::of(self.top.row[done]),
        };
        let left = (count - done + 7) / 8;
        self.low.clear(done, 0, by, left);
        self.low.go_on(0, done + 1, by, left);
        self.top.clear(0, done, by, left);
        self.top.go_on(done + 1, 0, by, left);
        let start = STEPS - done;
        let terms = done / 8 + 1;
        let more = (done + 1) / 8 + 1;
        self.of_row.clear(0, start, by, terms);
        self.of_row.go_on(start - 1, 0, by, more);
        self.of_aim.clear(0, start, by, terms);
        self.of_aim.go_on(start - 1, 0, by, more);
        by.scale
    }

    /// The steps of the block, before which `aim` has the factor `scale`. Gives the factor that it
    /// has then, unless a gap comes.
    pub fn steps(&mut self, count: usize, scale: Factor) -> Option<Factor>
        requires { count ≤ STEPS }
    {
        let mut scale = scale;
        for done in 0..count {
            let unit = Factor::of(self.low.row[0]);
            if unit.value == 0 {
                return None;
            }
            scale = self.step(done, count, scale, unit);
        }
        Some(scale)
    }
}
