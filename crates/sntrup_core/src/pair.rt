//! A try of key generation.

ghost use Rattle.sntrup_core.specs.Tries.{IsTry};

use ntru_inverse::{inverse_q, inverse3};
use ntru_ring::{Annihilated3, AnnihilatedQ, R3, Rq, Workspace, planes_of};

/// What a try of key generation gives.
#[derive(Clone, Copy)]
pub enum PairTry {
    /// The public key h = g/(3f), and the inverse v of g in R/3, which belongs to the secret.
    Pair { h: Rq, v: R3 },
    /// g has no inverse in R/3: its product with this element, which isn't zero, is zero.
    NoInverseG(R3),
    /// g has an inverse, but f has none in R/q: its product with this element, which isn't zero, is
    /// zero.
    NoInverseF(Rq),
}

/// 1/3 in R/q.
const THIRD: i16 = 3061;

/// The pair of keys of a small g and a short f, or which of them has no inverse.
pub fn pair_try(work: &mut Workspace, g: &R3, f: &R3) -> PairTry
    ensures { IsTry g.now.coefficients f.now.coefficients result }
{
    let v = match inverse3(work, g) {
        Ok(v) => v,
        Err(Annihilated3 { z }) => return PairTry::NoInverseG(z),
    };
    match inverse_q(work, &f.lift()) {
        Ok(inverse) => PairTry::Pair {
            h: inverse.mul_small(&planes_of(g)).scale(THIRD),
            v,
        },
        Err(AnnihilatedQ { z }) => PairTry::NoInverseF(z),
    }
}
