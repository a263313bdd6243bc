//! Key encapsulation mechanisms as a trait, with the law that each of them meets: a secret
//! decapsulates what was encapsulated to the public key of its pair. Randomness is an argument, a
//! seed of 32 bytes.
//!
//! `OpenKem` is a stand-in without any secrecy, for tests and scripts.
//!
//! ```rust
//! use dr_base::Key32;
//! use kem_laws::{Kem, OpenKem};
//!
//! let mut public = [0u8; 32];
//! let mut secret = [0u8; 32];
//! let mut ciphertext = [0u8; 32];
//! let seed = Key32 { bytes: [1; 32] };
//! let other = Key32 { bytes: [2; 32] };
//! if OpenKem::pair(&mut (), &seed, &mut public, &mut secret).is_ok() {
//!     let key = OpenKem::encap(&mut (), &public, &other, &mut ciphertext);
//!     let same = OpenKem::decap(&mut (), &secret, &ciphertext);
//! }
//! ```
#![tactic(auto)]

pub use kem::{BadSecret, Kem, NoPair};
pub use open_kem::OpenKem;
pub use theory::laws;

mod kem;
mod open_kem;
mod theory;
