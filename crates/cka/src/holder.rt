//! The side that waits for a message.

ghost use Rattle.std.specs.Prelude.{◌≡◌, length, take, drop};
ghost use Rattle.kem_laws.specs.Mechanism.{IsLawful};
ghost use Rattle.cka.specs.Agreement.{agreement_size};

use crate::caller::Caller;
use crate::texts::SecretText;
use dr_base::{Key32, in_room};
use kem_laws::{Kem, laws};
use std::marker::{Model, PhantomData};

/// The side that holds a secret, and waits for a message to its public key. A contract sees it as
/// that secret.
///
/// It can't be copied, and it has to be spent: by `answer`, or by `rest`.
pub struct Holder<K: Kem> {
    secret: SecretText,
    mechanism: PhantomData<K>,
}

impl<K: Kem> Model for Holder<K> {
    ghost use Rattle.std.specs.Prelude.{◌≡◌, ℕ, List, length};
    ghost use Rattle.kem_laws.specs.Mechanism.{IsLawful};

    ghost Value = { List ℕ };

    ghost view = { λ h. h.secret.items };

    ghost invariant = { λ h. (length h.secret.items ≡ K.mechanism.secret) × IsLawful K.mechanism.meaning h.secret.items };
}

impl<K: Kem> Holder<K> {
    /// The side with this secret.
    pub fn resume(secret: &[u8]) -> Holder<K>
        requires long { length secret.now ≡ K.mechanism.secret }
        requires lawful { IsLawful K.mechanism.meaning secret.now }
        ensures { result ≡ secret.now }
    {
        laws::<K>();
        Holder {
            secret: in_room(secret),
            mechanism: PhantomData,
        }
    }

    /// Takes a message: the key that it carries, and the caller with the public key in it, whose
    /// turn it is.
    pub fn answer(self, work: &mut K::Work, agreement: &[u8]) -> (Caller<K>, Key32)
        requires { length agreement.now ≡ agreement_size K.mechanism }
        ensures caller { result.0 ≡ drop K.mechanism.ciphertext agreement.now }
        ensures key { result.1.bytes ≡ K.mechanism.meaning.decap_of self
            (take K.mechanism.ciphertext agreement.now) }
    {
        laws::<K>();
        let Holder {
            secret,
            mechanism: _,
        } = self;
        let (ciphertext, public) = agreement.split_at(K::CIPHERTEXT);
        let key = K::decap(work, secret.as_slice(), ciphertext);
        (Caller::resume(public), key)
    }

    /// Gives the secret back, to be kept until it is resumed.
    pub fn rest(self) -> SecretText
        ensures value { result.items ≡ self }
        ensures long { length self ≡ K.mechanism.secret }
        ensures lawful { IsLawful K.mechanism.meaning self }
    {
        let Holder {
            secret,
            mechanism: _,
        } = self;
        secret
    }
}
