//! The limits of a connection.

ghost use Rattle.relay_link.specs.Limits.{HasLimits};

use relay_wire::FRAME_LIMIT;

/// How many replies come on one connection at most: two for each packet that a sync acknowledges,
/// one where its box is empty, and one for each packet of an outbox.
pub const REPLY_LIMIT: usize = 545;

/// How many bytes a connection takes at most: more than the requests of these replies, and one
/// more, can have.
pub const SENT_LIMIT: usize = (REPLY_LIMIT + 2) * FRAME_LIMIT;

/// The limits of this crate as numbers. The function has no code.
pub fn limits_in_numbers()
    ensures { HasLimits }
{}
