//! What a side begins with.

use bodies::Format;
use dr_base::{Key32, Side};

/// What a side begins with: which side of its conversation it is, the format in which it seals its
/// texts, and the key that both sides share.
#[derive(Drop)]
pub struct Begin {
    /// Which side of the conversation it is.
    pub side: Side,
    /// The format in which it seals its texts.
    pub format: Format,
    /// The key that both sides share.
    pub key: Key32,
}
