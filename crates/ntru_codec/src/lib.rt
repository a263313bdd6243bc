//! The byte encodings of NTRU Prime (round 3 specification, sntrup761).
//!
//! [`encode`] and [`decode`] write a list of numbers, each below its own limit, as few bytes, and
//! read it again. On them stand [`rq_encode`] and [`rounded_encode`], for the elements of R/q and
//! for those whose coefficients are multiples of 3. [`small_encode`] puts four coefficients of R/3
//! into a byte. [`laws`] states that decoding undoes encoding.
#![tactic(auto)]

mod decoder;
mod elements;
mod encoder;
mod levels;
mod numbers;
mod small;
mod theory;

pub use decoder::decode;
pub use elements::{rounded_decode, rounded_encode, rq_decode, rq_encode};
pub use encoder::encode;
pub use small::{BadSmall, small_decode, small_encode};
pub use theory::laws;
