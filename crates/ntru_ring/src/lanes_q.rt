//! A row over R/q that is subtracted from another, eight coefficients at a time.
ghost use Rattle.std.specs.Prelude.{◌≡◌, ◌+ℤ◌, ◌-ℤ◌, ◌*ℤ◌, ◌≤ℤ◌, ◌+◌, ◌≤◌, neg_ℤ, pos, length, All};
ghost use Rattle.ntru_ring.specs.Reduction.{centred, reduced, IsWithin, IsNear};
ghost use Rattle.ntru_ring.specs.Ring.{plus, scale};
ghost use lib.Lanes.{chunk, put_chunk};

use crate::sums_q::centred_q;
use std::simd::prelude::*;

/// x - factor * y, reduced.
fn difference(x: i16, factor: i16, y: i16) -> i16
    requires x_within { IsWithin 2295 x }
    requires factor_within { IsWithin 2295 factor }
    requires y_within { IsWithin 2295 y }
    ensures value { result ≡ centred 2295 (x +ℤ neg_ℤ factor *ℤ y) }
    ensures within { IsWithin 2295 result }
{
    centred_q(i32::from(x) - i32::from(factor) * i32::from(y))
}

/// 65536 * factor / 4591, to the nearest number.
pub fn quotient_of(factor: i16) -> i16
    requires { IsWithin 2295 factor }
    ensures { IsWithin 2295 (pos 4591 *ℤ result -ℤ pos 65536 *ℤ factor) }
{
    let raised = (i32::from(factor) + 4591) as u32;
    (((raised * 65536 + 2295) / 4591) as i32 - 65536) as i16
}

/// x - factor * y in each lane, up to a small multiple of 4591.
fn estimated(x: i16x8, y: i16x8, factor: i16, quotient: i16) -> i16x8
    requires x_length { length x ≡ 8 }
    requires y_length { length y ≡ 8 }
    requires x_within { All (IsWithin 2295) x }
    requires y_within { All (IsWithin 2295) y }
    requires factor_within { IsWithin 2295 factor }
    requires quotient { IsWithin 2295 (pos 4591 *ℤ quotient -ℤ pos 65536 *ℤ factor) }
    ensures same { reduced 2295 result ≡ reduced 2295 (plus x (scale (neg_ℤ factor) y)) }
    ensures near { All IsNear result }
{
    let times = (y.cast::<i32>() * i16x8::splat(quotient).cast::<i32>()) >> 16;
    x - y * i16x8::splat(factor) + times.cast::<i16>() * i16x8::splat(4591)
}

/// The representative of each lane.
fn centred_lanes(z: i16x8) -> i16x8
    requires length { length z ≡ 8 }
    requires near { All IsNear z }
    ensures { result ≡ reduced 2295 z }
{
    let low = i16x8::splat(-2295);
    let high = i16x8::splat(2295);
    let none = i16x8::splat(0);
    let q = i16x8::splat(4591);
    let once = z + z.simd_lt(low).select(q, none);
    let twice = once + once.simd_lt(low).select(q, none);
    twice - twice.simd_gt(high).select(q, none)
}

/// The eight coefficients from a place on.
fn load(row: &[i16], at: usize) -> i16x8
    requires place { at + 8 ≤ length row.now }
    requires within { All (IsWithin 2295) row.now }
    ensures { result ≡ chunk at 8 row.now }
{
    i16x8::from_slice(&row[at..])
}

/// Puts eight coefficients from a place on.
fn store(row: &mut [i16], at: usize, lanes: i16x8)
    requires place { at + 8 ≤ length row.old }
    requires within { All (IsWithin 2295) lanes }
    ensures { row.new ≡ put_chunk at row.old lanes }
{
    lanes.copy_to_slice(&mut row[at..]);
}

/// Subtracts `factor` times the eight places of `b` from `at` on from those of `a`.
fn subtract_block(a: &mut [i16], b: &[i16], at: usize, factor: i16, quotient: i16)
    requires a_place { at + 8 ≤ length a.old }
    requires b_place { at + 8 ≤ length b.now }
    requires a_within { All (IsWithin 2295) a.old }
    requires b_within { All (IsWithin 2295) b.now }
    requires factor_within { IsWithin 2295 factor }
    requires quotient { IsWithin 2295 (pos 4591 *ℤ quotient -ℤ pos 65536 *ℤ factor) }
    ensures { a.new ≡ put_chunk at a.old
        (reduced 2295 (plus (chunk at 8 a.old) (scale (neg_ℤ factor) (chunk at 8 b.now)))) }
{
    let lanes = estimated(load(a, at), load(b, at), factor, quotient);
    store(a, at, centred_lanes(lanes));
}

/// Subtracts `factor` times `b` from `a`: in blocks of eight places, and the last place.
pub fn subtract_multiple(a: &mut [i16; 761], b: &[i16; 761], factor: i16)
    requires factor_within { IsWithin 2295 factor }
    requires a_within { All (IsWithin 2295) a.old }
    requires b_within { All (IsWithin 2295) b.now }
    ensures { a.new ≡ reduced 2295 (plus a.old (scale (neg_ℤ factor) b.now)) }
{
    let quotient = quotient_of(factor);
    for block in 0..95 {
        subtract_block(a, b, 8 * block, factor, quotient);
    }
    a[760] = difference(a[760], factor, b[760]);
}
