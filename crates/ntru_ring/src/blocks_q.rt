//! A candidate for the inverse in R/q, by shift elimination in blocks of steps.
//!
//! Row k is a multiple a = g * b, where b has degree k, and a is zero at the pivots of the rows
//! before it, which are the places 0 to k - 1. x times this row is the next one but for its last
//! coefficient, which comes round as a multiple of 1 + x: `aim`, a multiple less 1 + x that is zero
//! at every pivot, clears it. At the end `aim` is zero everywhere. Since the rows begin with g * (1
//! + x) in place of g, its b is the inverse of g.
//!
//! So a step takes a multiple of `row` from `aim`, which is zero at the row's first place then, and
//! makes x times the row, less a multiple of `aim`, the next row. Both factors are read off at the
//! ends of a. So 31 steps need 32 places of a from the first on and 32 before the last, and what
//! they do to whole rows is four polynomials of 32 terms, which are found by the same steps
//! ([`block`]). A whole row takes all of them at once: 64 products of 16 bits are added up in 32
//! bits and reduced then ([`rows`]).
//!
//! Steps divide by nothing: `aim` stands for a multiple of itself, whose factor is divided by at
//! the end.
//!
//! A row whose first place is zero is a gap, where there is no candidate. A row begins with g * (1
//! + x) times a factor of 16 terms without a pattern, so that a gap is as rare for a small g as for
//! another: one try of six meets one.
//!
//! No clause says what the candidate is: whoever asks for it tries it by a product. Nor does one
//! say that no sum overflows: 64 products of numbers in -2295..2295 are less than 2^29.
pub mod block;
pub mod candidate;
pub mod factor;
pub mod rows;
