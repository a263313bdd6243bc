//! Inverses in R/3 by linear elimination.
//!
//! Row k is a multiple a = g * b, where b begins as x^k. It is cleared at the pivots of the rows
//! before it, in order. Where a is zero then, b shows that g has no inverse. Else a's first
//! coefficient is the row's pivot, and the row is scaled so that it is 1 there. The 761 pivots
//! differ, so they are all the places, and the rows clear -1 too: what was added up on the way is
//! the inverse.
ghost use Rattle.std.specs.Prelude.{◌≡◌, ◌≢◌, ◌≤◌, ◌<◌, ℕ, ℤ, List, length, pos, slice_index_or, MatchResult};
ghost use Rattle.ntru_ring.specs.Ring.{coefficient};
ghost use Rattle.ntru_ring.specs.Reduction.{IsInverse, Annihilates};
ghost use Rattle.ntru_ring.specs.Elimination.{IsMultiple, IsCombined};
ghost use Rattle.ntru_ring.specs.Elements.{element};
ghost use Rattle.ntru_ring.specs.Rows3.{IsEchelon3, AreMultiples3};
ghost use Rattle.ntru_ring.specs.declared.rows_three.Row3.{Row3};

use crate::modulo_three::R3;
use crate::planes_three::{Planes3, planes_of, r3_of};
use crate::rows_three::{Pair3, Row3};
use crate::working::Workspace;

/// An element without an inverse: its product with `z`, which isn't zero, is zero.
#[derive(Clone, Copy, PartialEq, Eq)]
pub struct Annihilated3 {
    /// The annihilator.
    pub z: R3,
}

/// Clears `a` at the pivots of the first `count` rows, and does to `b` what it does to `a`.
fn clear(rows: &[Row3], count: usize, a: &Planes3, b: &Planes3) -> Pair3
    requires long { count ≤ length rows.now }
    requires echelon { IsEchelon3 rows.now count }
    ensures combined { (g t : List ℤ) → AreMultiples3 g rows.now count
        → IsCombined 1 g t (element a.now) (element b.now)
        → IsCombined 1 g t (element result.a) (element result.b) }
    ensures cleared { (i : ℕ) (d : Row3) → i < count
        → coefficient (element result.a) (slice_index_or rows.now i d).pivot ≡ pos 0 }
    ensures kept { (k : ℕ) → count ≤ k
        → coefficient (element result.b) k ≡ coefficient (element b.now) k }
{
    let mut pair = Pair3 { a: *a, b: *b };
    for j in 0..count {
        let row = &rows[j];
        let by = -pair.a.at(row.pivot);
        pair = Pair3 {
            a: pair.a.add_multiple(by, &row.a),
            b: pair.b.add_multiple(by, &row.b),
        };
    }
    pair
}

/// The pair scaled so that `a` begins with 1 at `pivot`.
fn row_of(pair: &Pair3, pivot: usize, top: usize) -> Row3
    requires pivot { pivot < 761 }
    requires nonzero { coefficient (element pair.now.a) pivot ≢ pos 0 }
    requires leading { (k : ℕ) → k < pivot → coefficient (element pair.now.a) k ≡ pos 0 }
    requires top { top ≤ 761 }
    requires trailing { (k : ℕ) → top ≤ k → coefficient (element pair.now.b) k ≡ pos 0 }
    ensures pivot { result.pivot ≡ pivot }
    ensures top { result.top ≡ top }
    ensures multiple { (g : List ℤ) → IsMultiple 1 g (element pair.now.a) (element pair.now.b)
        → IsMultiple 1 g (element result.a) (element result.b) }
    ensures zeros { (k : ℕ) → coefficient (element pair.now.a) k ≡ pos 0
        → coefficient (element result.a) k ≡ pos 0 }
{
    let by = pair.a.at(pivot);
    let none = Planes3::zero();
    Row3 {
        a: none.add_multiple(by, &pair.a),
        b: none.add_multiple(by, &pair.b),
        pivot,
        top,
    }
}

/// The inverse of `g`, or an annihilator, by all rows.
pub fn inverse3_by_rows(work: &mut Workspace, g: &R3) -> Result<R3, Annihilated3>
    ensures { MatchResult result (λ v. IsInverse 1 g.now.coefficients v.coefficients)
        (λ e. Annihilates 1 g.now.coefficients e.z.coefficients) }
{
    work.fill_three();
    let mut power = planes_of(g);
    for k in 0..761 {
        let unit = planes_of(&R3::monomial(k, 1));
        let pair = clear(&work.rows_three, k, &power, &unit);
        let pivot = pair.a.lead();
        if pivot == 761 {
            return Err(Annihilated3 { z: r3_of(&pair.b) });
        }
        work.rows_three[k] = row_of(&pair, pivot, k + 1);
        power = power.shift();
    }
    let minus_one = planes_of(&R3::monomial(0, -1));
    Ok(r3_of(&clear(&work.rows_three, 761, &minus_one, &Planes3::zero()).b))
}
