//! The size and the place of a box's area.

ghost use Rattle.relay_server.specs.Limits.{HasLimits};

use dr_base::PAGE;
use relay_core::RELAY_LIMIT;
use slot_store::LOWER_PAGES;

/// How many pages each half of a box's area has.
pub(crate) const HALF_PAGES: u32 = LOWER_PAGES;

/// How many pages the area of a box has.
pub(crate) const BOX_PAGES: u32 = 2 * HALF_PAGES;

/// The most pages of a box's record.
pub(crate) const RECORD_PAGES: u32 = 126;

/// How many bytes each half of a box's area has. The lower halves of all boxes follow one another,
/// and behind them the upper ones.
pub const HALF_SIZE: u64 = PAGE as u64 * HALF_PAGES as u64;

/// Where the upper halves begin.
pub const UPPER_START: u64 = HALF_SIZE * RELAY_LIMIT as u64;

/// The limits of this crate as numbers. The function has no code.
pub fn limits_in_numbers()
    ensures { HasLimits }
{}
