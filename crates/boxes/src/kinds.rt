//! The kinds of contents, and which contents each of them has.

ghost use Rattle.std.specs.Prelude.{◌≡◌};
ghost use Rattle.boxes.specs.Parts.{is_content};

use crate::part::is_part;
use dr_base::TEXT_LIMIT;

/// The kind of a content that is a text.
pub const TEXT_KIND: u8 = 0;

/// The kind of a content that is a part of a long text.
pub const PART_KIND: u8 = 1;

/// Whether bytes are a content of a kind: a text that is no longer than the longest one, or a
/// lawful part. There is no other kind.
pub fn is_content(kind: u8, bytes: &[u8]) -> bool
    ensures { result ≡ is_content kind bytes.now }
{
    if kind == TEXT_KIND {
        return bytes.len() <= TEXT_LIMIT;
    }
    kind == PART_KIND && is_part(bytes)
}
