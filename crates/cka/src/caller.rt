//! The side whose turn it is.

ghost use Rattle.std.specs.Prelude.{◌≡◌, ◌++◌, length, Some, None, IfOk, IfErr};
ghost use Rattle.kem_laws.specs.Mechanism.{IsLawful};
ghost use Rattle.cka.specs.Agreement.{agreement_size, turn_of};

use crate::holder::Holder;
use crate::texts::{Agreement, PublicText, message_of};
use dr_base::{CIPHERTEXT_LIMIT, Key32, PUBLIC_LIMIT, SECRET_LIMIT, in_room};
use kem_laws::{Kem, NoPair, laws};
use std::marker::{Model, PhantomData};

/// The side that holds the other side's public key, and may turn. A contract sees it as that key.
///
/// It can't be copied, and it has to be spent: by `turn`, or by `rest`.
pub struct Caller<K: Kem> {
    public: PublicText,
    mechanism: PhantomData<K>,
}

impl<K: Kem> Model for Caller<K> {
    ghost use Rattle.std.specs.Prelude.{◌≡◌, ℕ, List, length};

    ghost Value = { List ℕ };

    ghost view = { λ c. c.public.items };

    ghost invariant = { λ c. length c.public.items ≡ K.mechanism.public };
}

impl<K: Kem> Caller<K> {
    /// The side with this public key.
    pub fn resume(public: &[u8]) -> Caller<K>
        requires { length public.now ≡ K.mechanism.public }
        ensures { result ≡ public.now }
    {
        laws::<K>();
        Caller {
            public: in_room(public),
            mechanism: PhantomData,
        }
    }

    /// Encapsulates to the held public key, and makes the pair whose secret waits for the answer,
    /// both from one seed. The message for the other side is the ciphertext and the new public key.
    ///
    /// Where the seed has no pair, the caller comes back as it was.
    pub fn turn(
        self,
        work: &mut K::Work,
        seed: &Key32,
    ) -> Result<(Holder<K>, Agreement, Key32), Caller<K>>
        ensures turned { IfOk result (λ t.
            turn_of K.mechanism self seed.now.bytes ≡ Some (t.0, t.1.items, t.2.bytes)) }
        ensures long { IfOk result (λ t. length t.1.items ≡ agreement_size K.mechanism) }
        ensures same { IfErr result (λ c. c ≡ self) }
        ensures without_pair { IfErr result
            (λ _. K.mechanism.meaning.pair_of seed.now.bytes ≡ None) }
    {
        laws::<K>();
        // The proof takes the length of the seed from this.
        let _bytes = &seed.bytes;
        let Caller {
            public: held,
            mechanism,
        } = self;
        let mut public = [0; PUBLIC_LIMIT];
        let mut secret = [0; SECRET_LIMIT];
        match K::pair(
            work,
            seed,
            &mut public[..K::PUBLIC],
            &mut secret[..K::SECRET],
        ) {
            Ok(()) => {
                let mut ciphertext = [0; CIPHERTEXT_LIMIT];
                let key = K::encap(
                    work,
                    held.as_slice(),
                    seed,
                    &mut ciphertext[..K::CIPHERTEXT],
                );
                let message = message_of(&ciphertext[..K::CIPHERTEXT], &public[..K::PUBLIC]);
                Ok((Holder::resume(&secret[..K::SECRET]), message, key))
            }
            Err(NoPair) => Err(Caller {
                public: held,
                mechanism,
            }),
        }
    }

    /// Gives the public key back, to be kept until it is resumed.
    pub fn rest(self) -> PublicText
        ensures value { result.items ≡ self }
        ensures long { length self ≡ K.mechanism.public }
    {
        let Caller {
            public,
            mechanism: _,
        } = self;
        public
    }
}
