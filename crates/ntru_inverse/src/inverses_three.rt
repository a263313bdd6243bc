//! Inverses in R/3: the candidate where the trial shows that it is one, else by all rows.
ghost use Rattle.std.specs.Prelude.{IfSome, MatchResult};
ghost use Rattle.ntru_ring.specs.Reduction.{IsInverse, Annihilates};

use ntru_ring::{Annihilated3, R3, Workspace, candidate_three, inverse3_by_rows, planes_of};

/// The inverse of `g` in R/3 by its candidate, where the trial shows that it is one. Where `g` has
/// an inverse, it was found whenever it was tried; the clause promises nothing of that.
pub fn quick_inverse3(g: &R3) -> Option<R3>
    ensures { IfSome result (λ v. IsInverse 1 g.now.coefficients v.coefficients) }
{
    let small = planes_of(g);
    let candidate = candidate_three(&small);
    let planes = planes_of(&candidate);
    if small.mul(&planes) == planes_of(&R3::monomial(0, 1)) {
        return Some(candidate);
    }
    None
}

/// The inverse of `g` in R/3, or an element that shows that there is none.
pub fn inverse3(work: &mut Workspace, g: &R3) -> Result<R3, Annihilated3>
    ensures { MatchResult result (λ v. IsInverse 1 g.now.coefficients v.coefficients)
        (λ e. Annihilates 1 g.now.coefficients e.z.coefficients) }
{
    match quick_inverse3(g) {
        Some(inverse) => Ok(inverse),
        None => inverse3_by_rows(work, g),
    }
}
