//! The limits of long texts.

ghost use Rattle.long_text.specs.Limits.{HasLimits};

use boxes::{PART_LIMIT, PARTS_LIMIT};

/// The most bytes of a long text.
pub const LONG_LIMIT: usize = PART_LIMIT * PARTS_LIMIT;

/// The limit of this crate as a number. The function has no code.
pub fn limits_in_numbers()
    ensures { HasLimits }
{}
