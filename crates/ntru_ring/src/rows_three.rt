//! Rows of the elimination over R/3, as planes.
ghost use Rattle.std.specs.Prelude.{◌≡◌, ◌<◌, ◌≤◌, ℕ, pos};
ghost use Rattle.ntru_ring.specs.Ring.{coefficient};
ghost use Rattle.ntru_ring.specs.Elements.{element};

use crate::planes_three::Planes3;

/// Two elements, a and b, with a = g * b + t for the g that is inverted and some t.
#[derive(Clone, Copy)]
pub struct Pair3 {
    pub a: Planes3,
    pub b: Planes3,
}

/// A multiple a = g * b whose first coefficient that isn't zero is 1.
#[derive(Clone, Copy)]
pub struct Row3 {
    pub a: Planes3,
    pub b: Planes3,
    /// The place of the first coefficient of `a`.
    pub pivot: usize,
    /// How many coefficients of `b` come before its zeros.
    pub top: usize,
    ghost pivot_in: { pivot < 761 },
    ghost top_in: { top ≤ 761 },
    ghost one: { coefficient (element a) pivot ≡ pos 1 },
    ghost leading: { (k : ℕ) → k < pivot → coefficient (element a) k ≡ pos 0 },
    ghost trailing: { (k : ℕ) → top ≤ k → coefficient (element b) k ≡ pos 0 },
}
