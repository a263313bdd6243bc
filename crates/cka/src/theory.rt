//! How long an agreement message is, and the law of an agreement, for callers that reason about it.

ghost use Rattle.std.specs.Prelude.{◌≡◌, ◌≤◌};
ghost use Rattle.cka.specs.Agreement.{Agrees, agreement_size};
ghost use Rattle.dr_base.specs.declared.limits.TheConstants.{AGREEMENT_LIMIT};

use kem_laws::{Kem, laws};

/// How long an agreement message is, in bytes: a ciphertext and a public key.
pub fn agreement_length<K: Kem>() -> usize
    ensures value { result ≡ agreement_size K.mechanism }
    ensures fits { result ≤ AGREEMENT_LIMIT }
{
    laws::<K>();
    K::CIPHERTEXT + K::PUBLIC
}

/// Both sides get one key, whatever the mechanism is. Does nothing: a caller that needs the fact
/// calls it.
pub fn agreement_holds<K: Kem>()
    ensures { Agrees K.mechanism }
{}
