//! The limits of commands. The function has no code.

ghost use Rattle.command_lines.specs.Limits.{HasLimits};

/// The limits of this crate as numbers.
pub fn limits_in_numbers()
    ensures { HasLimits }
{}
