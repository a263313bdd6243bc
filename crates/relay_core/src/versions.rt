//! The versions of a box's record.

ghost use Rattle.std.specs.Prelude.{◌≡◌};
ghost use Rattle.grammar.specs.Standing.{Reads};
ghost use Rattle.relay_core.specs.Record.{EndsWithin};
ghost use Rattle.relay_core.specs.Versions.{has_guards, version_code, version_field};

use grammar::Cursor;

/// A version, which a record begins with.
#[derive(Clone, Copy)]
pub(crate) enum Version {
    One,
    Two,
}

/// The version that is written.
pub(crate) const NEWEST: Version = Version::Two;

impl Version {
    /// Its byte.
    pub(crate) fn code(self) -> u8
        ensures { result ≡ version_code self }
    {
        match self {
            Version::One => 1,
            Version::Two => 2,
        }
    }

    /// Whether a box may have a guard.
    pub(crate) fn has_guards(self) -> bool
        ensures { result ≡ has_guards self }
    {
        match self {
            Version::One => false,
            Version::Two => true,
        }
    }
}

/// The version.
#[tactic(auto, unfolding(crate::specs::Versions::version_field))]
pub(crate) fn read_version(cursor: &mut Cursor<'_>) -> Result<Version, usize>
    ensures reads { Reads (λ v. v) version_field cursor.old cursor.new result }
    ensures within { EndsWithin 1 cursor.old cursor.new result }
{
    let at = cursor.at();
    match cursor.number8()? {
        1 => Ok(Version::One),
        2 => Ok(Version::Two),
        _ => Err(at),
    }
}
