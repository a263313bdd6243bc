//! The greatest numbers that a command takes.

ghost use Rattle.command_words.specs.Limits.{HasLimits};

/// The greatest port.
pub const PORT_LIMIT: u32 = 65_535;

/// The most connections that a relay serves.
pub const CONNECTION_LIMIT: u32 = 1_000_000;

/// The most rounds of a script that is made.
pub const ROUND_LIMIT: u32 = 1_000;

/// The greatest id of a long text.
pub const ID_LIMIT: usize = u32::MAX as usize;

/// The most people of a fan that is played.
pub const PEER_LIMIT: u32 = 8;

/// The most writes and syncs that pass before a disk stops.
pub const CALL_LIMIT: usize = u32::MAX as usize;

/// The limits of this crate as numbers. The function has no code.
pub fn limits_in_numbers()
    ensures { HasLimits }
{}
