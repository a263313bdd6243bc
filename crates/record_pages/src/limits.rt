//! The limits of tables. Each is said once, here.

ghost use Rattle.record_pages.specs.Limits.{HasLimits};

use dr_base::PAGE;

/// All numbers of pages are below this one: each has two bytes. A table is shorter, too.
pub const NUMBER_LIMIT: u32 = 1 << 16;

/// The most pages that a table names. It is one page, and has two bytes for each number after its
/// gate, its turn and a length of four bytes.
pub const NAMED_LIMIT: u32 = (PAGE as u32 - (1 + 1 + 4)) / 2;

/// The limits of this crate as numbers. The function has no code.
pub fn limits_in_numbers()
    ensures { HasLimits }
{}
