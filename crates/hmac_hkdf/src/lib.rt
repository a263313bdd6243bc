//! Keyed hashing and key derivation with SHA-256: HMAC (RFC 2104) and HKDF (RFC 5869).
//!
//! `hmac` takes a whole message, `Mac` takes one piece by piece, and `KeyedMac` begins many
//! messages under one key. `extract` and `expand_into` are the two steps of HKDF.
//!
//! ```rust
//! use hmac_hkdf::{KeyedMac, expand_into, extract, hmac};
//!
//! let tag: [u8; 32] = hmac(b"Jefe", b"what do ya want for nothing?");
//! let keyed = KeyedMac::new(b"Jefe");
//! let (first, second) = (keyed.hmac(b"what do ya"), keyed.hmac(b"want for nothing?"));
//! let prk: [u8; 32] = extract(b"salt", b"input keying material");
//! let mut okm = [0u8; 42];
//! expand_into(&prk, b"info", &mut okm);
//! ```
#![tactic(auto)]

pub use hkdf::{expand_into, extract};
pub use keyed::KeyedMac;
pub use mac::{Mac, hmac};

mod hkdf;
mod keyed;
mod mac;
