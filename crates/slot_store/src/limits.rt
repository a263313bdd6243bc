//! The limits of stores. Each is said once, here.

ghost use Rattle.slot_store.specs.Limits.{HasLimits};

use record_pages::{NAMED_LIMIT, NUMBER_LIMIT};

/// The most writes and syncs of an opening. The first sync, and twice the tidying of a table: its
/// gate is closed with a sync, zeros are written after it, each page is wiped, and that is synced.
pub const OPENING_CALLS: u32 = 1 + 2 * (2 + 1 + (NUMBER_LIMIT - 2) + 1);

/// The most reads of a look. Both tables, each gate by itself, and the record's pages; how far the
/// disk has to be looked at; and each page once.
pub const LOOK_READS: u32 = 4 + NAMED_LIMIT + (1 + (NUMBER_LIMIT - 2));

/// The most reads of an opening. What a look reads, and once more to tidy a second table.
pub const OPENING_READS: u32 = LOOK_READS + (1 + (NUMBER_LIMIT - 2));

/// The limits of this crate as numbers. The function has no code.
pub fn limits_in_numbers()
    ensures { HasLimits }
{}
