//! Continuous key agreement from any key encapsulation mechanism (Alwen, Coretti, Dodis, "The
//! Double Ratchet", Eurocrypt 2019).
//!
//! The two sides take turns. The caller holds the other side's public key, and its turn makes a
//! key, a message for the other side, and a holder of the secret that waits for the answer. The
//! holder answers a message with the same key, and is the caller of the next turn. Neither can be
//! copied, and each has to be spent.
//!
//! ```rust
//! use cka::{Caller, Holder};
//! use dr_base::Key32;
//! use kem_laws::OpenKem;
//!
//! let seed = Key32 { bytes: [2; 32] };
//! match Caller::<OpenKem>::resume(&public).turn(&mut (), &seed) {
//!     Ok((waiting, agreement, key)) => {
//!         let (caller, same) = Holder::<OpenKem>::resume(&secret).answer(&mut (), agreement.as_slice());
//!     }
//!     Err(caller) => {}
//! }
//! ```
#![tactic(auto)]

pub use caller::Caller;
pub use holder::Holder;
pub use texts::{Agreement, PublicText, SecretText};
pub use theory::{agreement_holds, agreement_length};

mod caller;
mod holder;
mod texts;
mod theory;
