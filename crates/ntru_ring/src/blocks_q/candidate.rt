//! The beginning of the rows, their blocks, and the end.
ghost use Rattle.std.specs.Prelude.{◌≤◌, All};
ghost use Rattle.ntru_ring.specs.Reduction.{IsWithin};

use crate::blocks_q::block::STEPS;
use crate::blocks_q::factor::Factor;
use crate::blocks_q::rows::Rows;
use crate::modulo_q::Rq;
use crate::sums_q::{centred_q, product};
use crate::sums_small::centred_word;
use crate::units_q::inverse_of;

/// How many terms the factor has that the rows begin with.
const TERMS: usize = 16;

/// Where b begins before the first block.
const B: usize = 761 + STEPS;

/// The next state of a generator of numbers without a pattern.
fn next(state: u32) -> u32 {
    state.wrapping_mul(1664525).wrapping_add(1013904223)
}

/// The coefficient that is drawn by a state.
fn drawn(state: u32) -> i16
    ensures { IsWithin 2295 result }
{
    centred_q(((state >> 16) % 4591) as i32)
}

/// An element without a pattern.
pub fn element_without_pattern() -> Rq {
    let mut state = 0;
    let mut coefficients = [0; 761];
    for k in 0..761 {
        state = next(state);
        coefficients[k] = drawn(state);
    }
    Rq::new(&coefficients)
}

/// The rows before the first block: `row` is `g` times 1 + x and a factor without a pattern, which
/// is its b, and `aim` is -1 - x with the b zero.
fn begun(g: &Rq, trial: u32) -> Rows {
    let mut places = [0; 1744];
    let mut state = trial;
    let mut multiple = Rq::zero();
    for k in 0..TERMS {
        state = next(state);
        let term = drawn(state);
        places[2 * (B + TERMS - 1 - k)] = term;
        multiple = multiple.shift();
        multiple.subtract_row(g, -term);
    }
    let a = multiple.add(&multiple.shift());
    for k in 0..761 {
        places[2 * k] = a.coefficients[k];
    }
    places[1] = -1;
    places[3] = -1;
    Rows::new(&places)
}

/// 761 terms of b of `aim` from the term `first` on, or as many as there are, by `unit`, after the
/// last block.
fn terms(rows: &Rows, first: usize, unit: i16) -> Rq
    requires first { first ≤ 761 }
    requires unit { IsWithin 2295 unit }
{
    let mut terms = [0; 761];
    for k in 0..761.min(761 + TERMS - first) {
        terms[k] = product(centred_word(rows.places[2 * (STEPS + first + k) + 1]), unit);
    }
    Rq::new(&terms)
}

/// What is the inverse of `g`, unless the caller's trial shows that it isn't; none where a gap
/// comes. Each `trial` begins with another factor.
pub fn candidate_by_blocks(g: &Rq, trial: u32) -> Option<Rq> {
    let mut rows = begun(g, trial);
    let mut scale = Factor::of(1);
    for k in 0..25 {
        let before = 761 - STEPS * k;
        let count = STEPS.min(before);
        let mut block = rows.block(before - 1);
        scale = block.steps(count, scale)?;
        rows.turn(&block, count, before - count);
    }
    if scale.value == 0 {
        return None;
    }
    let unit = inverse_of(scale.value);
    let more = terms(&rows, 761, unit);
    Some(terms(&rows, 0, unit).add(&more.add(&more.shift())))
}
