//! Sealing of one message under one key: encryption with ChaCha20 (RFC 8439), and then HMAC with
//! SHA-256 (RFC 2104) over what goes along in the clear and the ciphertext.
//!
//! A message key serves one message. A `SealKey` and an `OpenKey` can't be copied, and whoever
//! holds one has to spend it: `seal` and `open` take the key, and no second call can have it.
//!
//! ```rust
//! use dr_base::Key32;
//! use etm_aead::{OpenKey, SealKey};
//!
//! let mut message = *b"hi";
//! let tag: [u8; 32] = SealKey::from_message(Key32 { bytes: [7; 32] }).seal(b"to you", &mut message);
//! let opened = OpenKey::from_message(Key32 { bytes: [7; 32] }).open(b"to you", &mut message, &tag);
//! assert!(rt; opened.is_ok());
//! assert!(rt; message == *b"hi");
//! ```
#![tactic(auto)]

pub use aead::{Aead, EncryptThenMac};
pub use laws::open_undoes_seal;
pub use opening::{BadTag, OpenKey};
pub use sealing::SealKey;

mod aead;
mod laws;
mod message_keys;
mod opening;
mod sealing;
mod tag;
