//! The limits of bodies.

ghost use Rattle.bodies.specs.Limits.{HasLimits};

use dr_base::{RECEIPT_LIMIT, TEXT_LIMIT};

/// A position's bytes: its epoch and its index.
pub(crate) const POSITION_LEN: usize = 4 + 4;

/// A receipt's bytes, where it lists no position: that there is one, its bound, and a count.
pub(crate) const BOUND_LEN: usize = 1 + POSITION_LEN + 1;

/// The longest body: a receipt that lists as many positions as it may, a kind and a text.
pub const BODY_LIMIT: usize = BOUND_LEN + POSITION_LEN * RECEIPT_LIMIT + 1 + TEXT_LIMIT;

/// The limits of this crate as numbers. The function has no code.
pub fn limits_in_numbers()
    ensures { HasLimits }
{}
