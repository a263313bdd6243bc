//! Inverses in R/q: a candidate where the trial shows that it is one, else by all rows.
ghost use Rattle.std.specs.Prelude.{◌≡◌, IfSome, MatchResult};
ghost use Rattle.ntru_ring.specs.Ring.{times};
ghost use Rattle.ntru_ring.specs.Reduction.{reduced, IsInverse, Annihilates};

use ntru_ring::{
    AnnihilatedQ, R3, Rq, Workspace, candidate_of_sparse, candidate_q, inverse_q_by_rows, planes_of,
};

/// The product in R/q of `f` and a candidate, by planes where `f` is small.
fn trial(f: &Rq, candidate: &Rq) -> Rq
    ensures { result.coefficients ≡ reduced 2295
        (times f.now.coefficients candidate.now.coefficients) }
{
    if f.is_small() {
        candidate.mul_small(&planes_of(&R3::new(&f.coefficients)))
    } else {
        f.mul(candidate)
    }
}

/// A candidate, where the trial shows that it is the inverse of `f`.
fn certified(f: &Rq, candidate: &Rq) -> Option<Rq>
    ensures { IfSome result (λ v. IsInverse 2295 f.now.coefficients v.coefficients) }
{
    if trial(f, candidate) == Rq::monomial(0, 1) {
        return Some(*candidate);
    }
    None
}

/// The inverse of `f` in R/q by a candidate, where the trial shows that it is one. Where `f` has an
/// inverse, it was found whenever it was tried; the clause promises nothing of that.
pub fn quick_inverse_q(f: &Rq) -> Option<Rq>
    ensures { IfSome result (λ v. IsInverse 2295 f.now.coefficients v.coefficients) }
{
    match candidate_q(f) {
        Some(candidate) => certified(f, &candidate),
        None => certified(f, &candidate_of_sparse(f)?),
    }
}

/// The inverse of `f` in R/q, or an element that shows that there is none.
pub fn inverse_q(work: &mut Workspace, f: &Rq) -> Result<Rq, AnnihilatedQ>
    ensures { MatchResult result (λ v. IsInverse 2295 f.now.coefficients v.coefficients)
        (λ e. Annihilates 2295 f.now.coefficients e.z.coefficients) }
{
    match quick_inverse_q(f) {
        Some(inverse) => Ok(inverse),
        None => inverse_q_by_rows(work, f),
    }
}
