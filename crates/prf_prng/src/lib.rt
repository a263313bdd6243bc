//! The root of the double ratchet: a PRF-PRNG (Alwen, Coretti, Dodis, "The Double Ratchet",
//! Eurocrypt 2019) by HKDF with SHA-256 (RFC 5869).
//!
//! A root is a state of 32 bytes. It takes an input in, such as the secret of a key encapsulation,
//! and gives the next state and a key that is fresh as long as the state or the input is secret.
//! The state that was there is gone then. A `Root` can't be copied, and whoever holds one has to
//! spend it.
//!
//! ```rust
//! use dr_base::Key32;
//! use prf_prng::Root;
//!
//! let root = Root::resume(Key32 { bytes: [7; 32] });
//! let (root, first_key) = root.up(&Key32 { bytes: [1; 32] });
//! let (root, second_key) = root.up(&Key32 { bytes: [2; 32] });
//! let state: Key32 = root.rest();
//! ```
#![tactic(auto)]

pub use laws::outputs_have_32_bytes;
pub use root::Root;

mod laws;
mod root;
