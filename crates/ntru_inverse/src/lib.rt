//! Inverses in the rings R/3 and R/q of NTRU Prime (round 3 specification, sntrup761).
//!
//! [`inverse3`] and [`inverse_q`] answer with the inverse, or with an element that shows that there
//! is none. [`quick_inverse3`] and [`quick_inverse_q`] are the short way to it, which they take
//! first: a candidate of `ntru_ring` that one product tries.
#![tactic(auto)]

pub use inverses_q::{inverse_q, quick_inverse_q};
pub use inverses_three::{inverse3, quick_inverse3};

mod inverses_q;
mod inverses_three;
