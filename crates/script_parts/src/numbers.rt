//! Numbers that follow one another without a pattern.

ghost use Rattle.std.specs.Prelude.{◌≡◌};
ghost use Rattle.script_parts.specs.Parts.{next_number};

/// What a number is multiplied by for the next one.
const MULTIPLIER: u64 = 6_364_136_223_846_793_005;

/// What is added then.
const INCREMENT: u64 = 1_442_695_040_888_963_407;

/// The number after a number.
#[tactic(auto, unfolding(crate::specs::Parts::next_number))]
pub fn next_number(number: u64) -> u64
    ensures { result ≡ next_number number }
{
    number.wrapping_mul(MULTIPLIER).wrapping_add(INCREMENT)
}
