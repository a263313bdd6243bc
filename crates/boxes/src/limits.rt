//! The limits of parts.

ghost use Rattle.boxes.specs.Limits.{HasLimits};

use dr_base::TEXT_LIMIT;

/// What stands before the bytes of a part: an id, its number and the count of parts.
pub const PART_HEAD: usize = 4 + 1 + 1;

/// The most parts of a long text.
pub const PARTS_LIMIT: usize = 64;

/// The most bytes of a part: with its head it is no longer than a text.
pub const PART_LIMIT: usize = TEXT_LIMIT - PART_HEAD;

/// The kinds and limits of this crate as numbers. The function has no code.
pub fn limits_in_numbers()
    ensures { HasLimits }
{}
