//! The law of decryption, for callers that reason about it.

ghost use Rattle.std.specs.Prelude.{◌≡◌, List, ℤ};
ghost use Rattle.sntrup_core.specs.Core.{IsSmall, IsShort, IsPair, encrypted, decrypted};

/// Does nothing: its clause is the law that decryption undoes encryption, always. Coefficients of a
/// sum g*r + 3*f*d, where d is what rounding adds, have size at most 8 * 286 = 2288, and R/q has
/// room for 2295.
pub fn laws()
    ensures { (g f h v r : List ℤ) → IsPair g f h v → IsSmall g → IsShort f → IsShort r
        → decrypted f v (encrypted r h) ≡ r }
{}
