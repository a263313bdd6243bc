//! The law of a mechanism, for callers that reason about any of them.

ghost use Rattle.kem_laws.specs.Mechanism.{IsLawfulMechanism, HasSizes};

use crate::kem::Kem;

/// Does nothing: its clauses are the law of the mechanism, and that the constants are its sizes.
/// Call it first in a function that takes any mechanism.
pub fn laws<K: Kem>()
    ensures law { IsLawfulMechanism K.mechanism }
    ensures sizes { HasSizes K.mechanism K.PUBLIC K.SECRET K.CIPHERTEXT }
{}
