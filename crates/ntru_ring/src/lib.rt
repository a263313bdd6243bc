//! Arithmetic of NTRU Prime (round 3 specification, sntrup761): the rings R/3 and R/q, which are
//! Z[x]/(x^761 - x - 1) modulo 3 and modulo 4591.
//!
//! An element is its 761 coefficients, that of x^0 first, each by its representative next to zero.
//! [`R3`] and [`Rq`] keep the range in their types, so sums, products and inverses ask for nothing
//! more. [`inverse3_by_rows`] and [`inverse_q_by_rows`] work in a [`Workspace`] that is taken once:
//! they answer with the inverse, or with an element that shows that there is none.
//! [`candidate_three`] and [`candidate_q`] say at once what it may be; the crate `ntru_inverse`
//! tries that first. [`Planes3`] holds an element of R/3 as two bits for each coefficient, for sums
//! of 64 coefficients at a time. [`laws`] states the algebra that a caller's proofs stand on.
#![tactic(auto)]

mod bits_three;
mod blocks_q;
mod candidates_three;
mod elimination_q;
mod elimination_three;
mod groups;
mod lanes_q;
mod modulo_q;
mod modulo_three;
mod planes_three;
mod powers_q;
mod products_three;
mod rows_q;
mod rows_three;
mod starts;
mod sums_q;
mod sums_small;
mod theory;
mod units_q;
mod words_three;
mod working;

pub use candidates_three::candidate_three;
pub use elimination_q::{
    AnnihilatedQ, candidate_of_sparse, candidate_q, inverse_q_by_rows, limits_in_numbers,
};
pub use elimination_three::{Annihilated3, inverse3_by_rows};
pub use modulo_q::Rq;
pub use modulo_three::R3;
pub use planes_three::{Planes3, planes_of, r3_of};
pub use theory::laws;
pub use working::Workspace;
