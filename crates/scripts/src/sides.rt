//! How a line names a side.

ghost use Rattle.std.specs.Prelude.{◌≡◌, ◌≤◌, length, option_map};
ghost use Rattle.scripts.specs.Sides.{side_text};
ghost use Rattle.scripts.specs.Words.{side_named};

use dr_base::Side;
use script_parts::after_prefix;

/// A side, and a space.
#[tactic(auto, unfolding(crate::specs::Sides::side_text))]
pub fn side_prefix(side: Side) -> &'static str
    ensures name { result.now ≡ side_text side }
    ensures short { length result.now ≤ 7 }
{
    match side {
        Side::First => "first ",
        Side::Second => "second ",
    }
}

/// The same in bytes.
pub fn side_name(side: Side) -> &'static [u8]
    ensures name { result.now ≡ side_text side }
    ensures short { length result.now ≤ 7 }
{
    side_prefix(side).as_bytes()
}

/// The side that a line names, and what stands after it.
#[tactic(auto, unfolding(crate::specs::Words::side_named))]
pub fn named_side(line: &[u8]) -> Option<(Side, &[u8])>
    ensures { option_map (λ named. (named.0, named.1.now)) result ≡ side_named line.entry.now }
{
    if let Some(words) = after_prefix(line, b"first ") {
        return Some((Side::First, words));
    }
    match after_prefix(line, b"second ") {
        Some(words) => Some((Side::Second, words)),
        None => None,
    }
}
