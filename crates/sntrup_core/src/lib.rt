//! Streamlined NTRU Prime Core (NTRU Prime, round 3 specification) with the parameters of
//! sntrup761: encryption of a short element to a public key, without encodings and hashes.
//!
//! [`short_of`] and [`small_of`] make random elements of random words. [`pair_try`] makes a pair of
//! keys of two of them, unless one has no inverse. [`encrypt`] and [`decrypt`] take no memory and
//! have no condition; [`laws`] states that the latter undoes the former.
#![tactic(auto)]

pub use cipher::{decrypt, encrypt};
pub use pair::{PairTry, pair_try};
pub use sampling::{short_of, small_of};
pub use theory::laws;

mod cipher;
mod pair;
mod sampling;
mod theory;
