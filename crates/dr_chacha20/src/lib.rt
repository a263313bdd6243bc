//! The stream cipher ChaCha20, after RFC 8439, sections 2.1 to 2.4.
//!
//! A key has 32 bytes, a nonce 12, and a key stream 2^32 blocks of 64 bytes. No block of a key
//! stream may serve twice: two texts that are xored with the same bytes give each other away.
#![tactic(auto)]

mod cipher;
mod laws;
mod rows;

pub use cipher::{block, xor_in_place};
pub use laws::encryption_undoes_itself;
