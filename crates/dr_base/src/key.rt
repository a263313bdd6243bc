//! Keys as plain bytes.

use crate::position::Position;

/// 32 bytes of key material. It can't be copied by accident, and nothing prints it.
#[derive(Default, Drop)]
pub struct Key32 {
    pub bytes: [u8; 32],
}

/// A message key that was kept for a text which is still to come.
#[derive(Default, Drop)]
pub struct Kept {
    pub position: Position,
    pub key: Key32,
}
