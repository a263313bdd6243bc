//! The limits of the program. The function has no code.

ghost use Rattle.messenger_cli.specs.Limits.{HasLimits};

/// Every limit that the program's contracts name, as a number: each stands in the law
/// `limits_in_numbers` of the crate that sets it, and those of this crate here.
pub fn limits()
    ensures { HasLimits }
{}
