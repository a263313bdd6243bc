//! Rows of the elimination over R/q.
ghost use Rattle.std.specs.Prelude.{◌≡◌, ◌<◌, ◌≤◌, ℕ, pos};
ghost use Rattle.ntru_ring.specs.Ring.{coefficient};

use crate::modulo_q::Rq;

/// Two elements, a and b, with a = g * b + t for the g that is inverted and some t.
#[derive(Clone, Copy)]
pub struct PairQ {
    pub a: Rq,
    pub b: Rq,
}

/// A multiple a = g * b whose first coefficient that isn't zero is 1.
#[derive(Clone, Copy)]
pub struct RowQ {
    pub a: Rq,
    pub b: Rq,
    /// The place of the first coefficient of `a`.
    pub pivot: usize,
    /// How many coefficients of `b` come before its zeros.
    pub top: usize,
    ghost pivot_in: { pivot < 761 },
    ghost top_in: { top ≤ 761 },
    ghost one: { coefficient a.coefficients pivot ≡ pos 1 },
    ghost leading: { (k : ℕ) → k < pivot → coefficient a.coefficients k ≡ pos 0 },
    ghost trailing: { (k : ℕ) → top ≤ k → coefficient b.coefficients k ≡ pos 0 },
}
