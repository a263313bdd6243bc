//! The numbers of a padding.

ghost use Rattle.std.specs.Prelude.{◌≡◌, ◌<◌, ◌≤◌};
ghost use Rattle.bodies.specs.Padding.{filling, padded_len};

use crate::limits::BODY_LIMIT;

/// How many bytes the length of what is padded has.
pub(crate) const LENGTH: usize = 2;

/// What is padded has a multiple of so many bytes.
pub(crate) const STEP: usize = 256;

/// How many bytes so many have, padded.
pub(crate) fn padded_len(len: usize) -> usize
    requires { len ≤ BODY_LIMIT }
    ensures { result ≡ padded_len len }
{
    (LENGTH + len).next_multiple_of(STEP)
}

/// How many zeros follow so many bytes.
#[tactic(auto, unfolding(crate::specs::Padding::filling))]
pub(crate) fn filling(len: usize) -> usize
    requires { len ≤ BODY_LIMIT }
    ensures value { result ≡ filling len }
    ensures few { result < STEP }
{
    padded_len(len) - (LENGTH + len)
}
