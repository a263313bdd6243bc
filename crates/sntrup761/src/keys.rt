//! The keys of a seed.

ghost use Rattle.std.specs.Prelude.{◌≡◌, Some, None, length, MatchOption};
ghost use Rattle.ntru_codec.specs.Elements.{rq_encoded};
ghost use Rattle.sntrup761.specs.Draws.{drawn_rho};
ghost use Rattle.sntrup761.specs.Mechanism.{pair, secret_of};

use crate::draws::{draw_f, draw_g, draw_rho};
use crate::hashes::hash;
use dr_base::put;
use ntru_codec::small_encode;
use ntru_ring::{R3, Rq, Workspace};
use sntrup_core::{PairTry, pair_try};

/// How many tries there are for g.
const TRIES_FOR_G: u32 = 16;

/// How many tries there are for f.
const TRIES_FOR_F: u32 = 4;

/// What keys are made of: f, the inverse v of g in R/3, and the public key h = g/(3f).
#[derive(Clone, Copy)]
pub(crate) struct Keys {
    pub f: R3,
    pub v: R3,
    pub h: Rq,
}

/// The keys of the first try of each element that has an inverse.
pub(crate) fn keys_of(work: &mut Workspace, seed: &[u8; 32]) -> Option<Keys>
    ensures { MatchOption result (pair seed.now ≡ None) (λ keys. pair seed.now ≡ Some (
      rq_encoded keys.h.coefficients,
      secret_of keys.f.coefficients keys.v.coefficients (rq_encoded keys.h.coefficients)
          (drawn_rho seed.now),
    )) }
{
    let mut for_g = 0;
    let mut for_f = 0;
    while for_g < TRIES_FOR_G && for_f < TRIES_FOR_F {
        let g = draw_g(seed, for_g);
        let f = draw_f(seed, for_f);
        match pair_try(work, &g, &f) {
            PairTry::Pair { h, v } => return Some(Keys { f, v, h }),
            PairTry::NoInverseG(_) => for_g += 1,
            PairTry::NoInverseF(_) => for_f += 1,
        }
    }
    None
}

/// Writes a secret.
pub(crate) fn write_secret(keys: &Keys, public: &[u8], seed: &[u8; 32], secret: &mut [u8])
    requires public_size { length public.now ≡ 1158 }
    requires secret_size { length secret.old ≡ 1763 }
    ensures { secret.new ≡ secret_of keys.now.f.coefficients keys.now.v.coefficients public.now
        (drawn_rho seed.now) }
{
    let at = put(secret, 0, &small_encode(&keys.f));
    let at = put(secret, at, &small_encode(&keys.v));
    let at = put(secret, at, public);
    let at = put(secret, at, &draw_rho(seed));
    put(secret, at, &hash(4, public));
}
