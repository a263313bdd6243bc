//! Bytes, against those of a row.

use hex::decode;
use sha2::{Digest, Sha256};
use std::alloc::Global;

/// Whether bytes are these, in hex.
pub(crate) fn are(alloc: Global, bytes: &[u8], row: &str) -> bool {
    match decode(alloc, row) {
        Ok(wanted) => wanted.as_slice() == bytes,
        Err(_) => false,
    }
}

/// Whether bytes have this SHA-256, in hex.
pub(crate) fn have_digest(alloc: Global, bytes: &[u8], row: &str) -> bool {
    are(alloc, Sha256::digest(bytes).as_slice(), row)
}
