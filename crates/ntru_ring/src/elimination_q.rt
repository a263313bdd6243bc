//! Inverses in R/q by linear elimination.
//!
//! Row k is a multiple a = f * b, where b begins as x^k. It is cleared at the pivots of the rows
//! before it, in order. Where a is zero then, b shows that f has no inverse. Else a's first
//! coefficient is the row's pivot, and the row is scaled so that it is 1 there. The 761 pivots
//! differ, so they are all the places, and the rows clear -1 too: what was added up on the way is
//! the inverse.
ghost use Rattle.std.specs.Prelude.{◌≡◌, ◌≢◌, ◌≤◌, ◌<◌, ℕ, ℤ, List, length, pos, slice_index_or, MatchResult};
ghost use Rattle.ntru_ring.specs.Ring.{coefficient};
ghost use Rattle.ntru_ring.specs.Reduction.{IsInverse, Annihilates};
ghost use Rattle.ntru_ring.specs.Elimination.{IsMultiple, IsCombined};
ghost use Rattle.ntru_ring.specs.RowsQ.{IsEchelonQ, AreMultiplesQ};
ghost use Rattle.ntru_ring.specs.declared.rows_q.RowQ.{RowQ};
ghost use Rattle.ntru_ring.specs.Limits.{HasLimits};

use crate::blocks_q::candidate::{candidate_by_blocks, element_without_pattern};
use crate::groups::{group_end, group_start};
use crate::modulo_q::Rq;
use crate::rows_q::{PairQ, RowQ};
use crate::sums_q::SumsQ;
use crate::units_q::inverse_of;
use crate::working::Workspace;

/// How many trials a candidate has: of each six one meets a gap.
const TRIALS: u32 = 8;

/// An element without an inverse: its product with `z`, which isn't zero, is zero.
#[derive(Clone, Copy, PartialEq, Eq)]
pub struct AnnihilatedQ {
    /// The annihilator.
    pub z: Rq,
}

/// Clears `a` at the pivots of the first `count` rows, and does to `b` what it does to `a`.
fn clear(rows: &[RowQ], count: usize, a: &Rq, b: &Rq) -> PairQ
    requires long { count ≤ length rows.now }
    requires echelon { IsEchelonQ rows.now count }
    ensures combined { (g t : List ℤ) → AreMultiplesQ g rows.now count
        → IsCombined 2295 g t a.now.coefficients b.now.coefficients
        → IsCombined 2295 g t result.a.coefficients result.b.coefficients }
    ensures cleared { (i : ℕ) (d : RowQ) → i < count
        → coefficient result.a.coefficients (slice_index_or rows.now i d).pivot ≡ pos 0 }
    ensures kept { (k : ℕ) → count ≤ k
        → coefficient result.b.coefficients k ≡ coefficient b.now.coefficients k }
{
    let mut sums_a = SumsQ::of(a);
    let mut sums_b = SumsQ::of(b);
    for j in 0..count {
        let row = &rows[j];
        let by = -sums_a.at(row.pivot);
        sums_a.add(by, &row.a, group_start(row.pivot), 761);
        sums_b.add(by, &row.b, 0, group_end(row.top));
    }
    PairQ {
        a: sums_a.settled(),
        b: sums_b.settled(),
    }
}

/// The place of the first coefficient that isn't zero, or 761.
fn lead(a: &Rq) -> usize
    ensures within { result ≤ 761 }
    ensures before { (k : ℕ) → k < result → coefficient a.now.coefficients k ≡ pos 0 }
    ensures there { result < 761 → coefficient a.now.coefficients result ≢ pos 0 }
{
    for k in 0..761 {
        if a.coefficients[k] != 0 {
            return k;
        }
    }
    761
}

/// The pair scaled so that `a` begins with 1 at `pivot`.
fn row_of(pair: &PairQ, pivot: usize, top: usize) -> RowQ
    requires pivot { pivot < 761 }
    requires nonzero { coefficient pair.now.a.coefficients pivot ≢ pos 0 }
    requires leading { (k : ℕ) → k < pivot → coefficient pair.now.a.coefficients k ≡ pos 0 }
    requires top { top ≤ 761 }
    requires trailing { (k : ℕ) → top ≤ k → coefficient pair.now.b.coefficients k ≡ pos 0 }
    ensures pivot { result.pivot ≡ pivot }
    ensures top { result.top ≡ top }
    ensures multiple { (g : List ℤ)
        → IsMultiple 2295 g pair.now.a.coefficients pair.now.b.coefficients
        → IsMultiple 2295 g result.a.coefficients result.b.coefficients }
    ensures zeros { (k : ℕ) → coefficient pair.now.a.coefficients k ≡ pos 0
        → coefficient result.a.coefficients k ≡ pos 0 }
{
    let by = inverse_of(pair.a.coefficients[pivot]);
    RowQ {
        a: pair.a.scale(by),
        b: pair.b.scale(by),
        pivot,
        top,
    }
}

/// The inverse of `f`, or an annihilator, by all rows.
pub fn inverse_q_by_rows(work: &mut Workspace, f: &Rq) -> Result<Rq, AnnihilatedQ>
    ensures { MatchResult result (λ v. IsInverse 2295 f.now.coefficients v.coefficients)
        (λ e. Annihilates 2295 f.now.coefficients e.z.coefficients) }
{
    work.fill_q();
    let mut power = *f;
    for k in 0..761 {
        let pair = clear(&work.rows_q, k, &power, &Rq::monomial(k, 1));
        let pivot = lead(&pair.a);
        if pivot == 761 {
            return Err(AnnihilatedQ { z: pair.b });
        }
        work.rows_q[k] = row_of(&pair, pivot, k + 1);
        power = power.shift();
    }
    Ok(clear(&work.rows_q, 761, &Rq::monomial(0, -1), &Rq::zero()).b)
}

/// A candidate for the inverse of `f` by blocks of steps, of the first trial that meets no gap.
pub fn candidate_q(f: &Rq) -> Option<Rq> {
    for trial in 0..TRIALS {
        if let Some(candidate) = candidate_by_blocks(f, trial) {
            return Some(candidate);
        }
    }
    None
}

/// A candidate for the inverse of a sparse `f`, whose rows meet gaps: that of its product with an
/// element without a pattern.
pub fn candidate_of_sparse(f: &Rq) -> Option<Rq> {
    let factor = element_without_pattern();
    let candidate = candidate_q(&f.mul(&factor))?;
    Some(candidate.mul(&factor))
}

/// The limits of this crate as numbers. The function has no code.
pub fn limits_in_numbers()
    ensures { HasLimits }
{}
