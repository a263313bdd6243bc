//! Streamlined NTRU Prime with the parameters of sntrup761 (NTRU Prime, round 3 specification): a
//! key encapsulation mechanism from lattices, of which every honest ciphertext decapsulates to its
//! key.
//!
//! Randomness is an argument, a seed of 32 bytes, which ChaCha20 expands. A ciphertext that isn't
//! honest decapsulates to a key that only the secret gives; there is no error.
//!
//! ```rust
//! use dr_base::Key32;
//! use kem_laws::Kem;
//! use sntrup761::Sntrup761;
//!
//! let mut work = Sntrup761::work(rt.alloc())?;
//! let mut public = [0u8; 1158];
//! let mut secret = [0u8; 1763];
//! let mut ciphertext = [0u8; 1039];
//! let seed = Key32 { bytes: [1; 32] };
//! let other = Key32 { bytes: [2; 32] };
//! if Sntrup761::pair(&mut work, &seed, &mut public, &mut secret).is_ok() {
//!     let key = Sntrup761::encap(&mut work, &public, &other, &mut ciphertext);
//!     let same = Sntrup761::decap(&mut work, &secret, &ciphertext);
//! }
//! ```
#![tactic(auto)]

pub use mechanism::Sntrup761;

mod draws;
mod hashes;
mod hiding;
mod keys;
mod mechanism;
