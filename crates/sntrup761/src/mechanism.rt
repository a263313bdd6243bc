//! The mechanism.

ghost use Rattle.std.specs.Prelude.{◌≡◌, refl};
ghost use Rattle.sntrup761.specs.Mechanism.{sntrup761_kem};
ghost use Rattle.sntrup761.specs.MechanismLaw.{sntrup761_law};

use crate::draws::draw_r;
use crate::hashes::{hash, session};
use crate::hiding::{hide, is_same, open};
use crate::keys::{keys_of, write_secret};
use dr_base::{Key32, array_at};
use kem_laws::{BadSecret, Kem, NoPair};
use ntru_codec::{rq_encode, small_decode, small_encode};
use ntru_ring::Workspace;
use std::alloc::{AllocError, Global};

/// Streamlined NTRU Prime with the parameters of sntrup761.
#[derive(Clone, Copy)]
pub struct Sntrup761;

impl Kem for Sntrup761 {
    const PUBLIC: usize = 1158;

    const SECRET: usize = 1763;

    const CIPHERTEXT: usize = 1039;

    type Work = Workspace;

    ghost PUBLIC = { 1158 };

    ghost SECRET = { 1763 };

    ghost CIPHERTEXT = { 1039 };

    ghost mechanism = { sntrup761_kem };

    ghost law = { sntrup761_law };

    ghost sizes = { record { public_is = refl; secret_is = refl; ciphertext_is = refl } };

    fn work(alloc: Global) -> Result<Workspace, AllocError> {
        Workspace::new(alloc)
    }

    fn pair(
        work: &mut Workspace,
        seed: &Key32,
        public: &mut [u8],
        secret: &mut [u8],
    ) -> Result<(), NoPair> {
        let Some(keys) = keys_of(work, &seed.bytes) else {
            return Err(NoPair);
        };
        public.copy_from_slice(&rq_encode(&keys.h));
        write_secret(&keys, public, &seed.bytes, secret);
        Ok(())
    }

    fn encap(_: &mut Workspace, public: &[u8], seed: &Key32, ciphertext: &mut [u8]) -> Key32 {
        let r = draw_r(&seed.bytes);
        hide(&r, &array_at(public, 0), &hash(4, public), ciphertext);
        Key32 {
            bytes: session(1, &small_encode(&r), ciphertext),
        }
    }

    #[tactic(auto, unfolding(crate::specs::Mechanism::bad_byte))]
    fn is_secret(bytes: &[u8]) -> Result<(), BadSecret> {
        if let Err(bad) = small_decode(&array_at(bytes, 0)) {
            return Err(BadSecret { at: bad.at });
        }
        match small_decode(&array_at(bytes, 191)) {
            Ok(_) => Ok(()),
            Err(bad) => Err(BadSecret { at: 191 + bad.at }),
        }
    }

    fn decap(_: &mut Workspace, secret: &[u8], ciphertext: &[u8]) -> Key32 {
        let r = open(secret, ciphertext);
        let mut again = [0; 1039];
        hide(
            &r,
            &array_at(secret, 382),
            &array_at::<32>(secret, 1731),
            &mut again,
        );
        let bytes = if is_same(&again, ciphertext) {
            session(1, &small_encode(&r), ciphertext)
        } else {
            session(0, &array_at::<191>(secret, 1540), ciphertext)
        };
        Key32 { bytes }
    }
}
