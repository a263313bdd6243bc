//! The parts of a session.

ghost use Rattle.std.specs.Prelude.{◌≡◌};

use crate::awaiting::Awaiting;
use bodies::Format;
use cka::{Agreement, PublicText, SecretText};
use dr_base::{Key32, Side};
use fs_aead::Skipped;
use kem_laws::Kem;
use std::marker::{Model, PhantomData};

/// In an own epoch: the secret that waits for the answer, the epoch's agreement message, and the
/// stream's chain key with the number of keys that it gave.
#[derive(Drop)]
pub struct Own {
    pub secret: SecretText,
    pub agreement: Agreement,
    pub chain: Key32,
    pub sent: u32,
}

/// Whose epoch the reached one is.
#[derive(Drop)]
pub enum Phase {
    /// The side's own.
    Own(Own),
    /// The peer's, whose public key this is.
    Peers(PublicText),
}

/// The stream of the latest peer's epoch: the chain key after the greatest index that was opened,
/// and this index.
#[derive(Drop)]
pub struct Reception {
    pub chain: Key32,
    pub reach: u32,
}

/// What a session keeps but for the kept keys, as plain data.
#[derive(Drop)]
pub struct Head<K: Kem> {
    pub side: Side,
    /// How it seals its texts.
    pub format: Format,
    pub session: [u8; 16],
    pub root: Key32,
    /// The greatest epoch that the side has reached.
    pub epoch: u32,
    pub phase: Phase,
    /// How many texts the side said in its last epoch before the own one that stands or comes next.
    pub previous: u32,
    /// None before the first peer's epoch.
    pub receiving: Option<Reception>,
    /// The own texts that wait for a receipt.
    pub awaiting: Awaiting,
    pub mechanism: PhantomData<K>,
}

/// What a session keeps, as plain data. A contract sees the state that it is, which is a lawful
/// one: whoever makes a part proves that. It owns no memory but its own room.
#[derive(Drop)]
pub struct SessionPart<K: Kem> {
    pub head: Head<K>,
    /// The keys that were passed.
    pub kept: Skipped,
}

impl<K: Kem> Model for SessionPart<K> {
    ghost use Rattle.session_model.specs.States.{State};

    ghost Value = { State };

    ghost use Rattle.session_model.specs.LawfulStates.{IsLawfulState};
    ghost use Rattle.session_model.specs.Seen.{seen};

    ghost view = { λ p. seen p.head p.kept };

    ghost invariant = { λ p. IsLawfulState K.mechanism (seen p.head p.kept) };
}

impl<K: Kem> SessionPart<K> {
    /// The part, lent.
    pub fn lent(&self) -> LentPart<'_, K>
        ensures { result ≡ self.now }
    {
        LentPart {
            head: &self.head,
            kept: &self.kept,
        }
    }
}

/// A part of which the head and the kept keys are lent, each from where it stands. A contract sees
/// the state that they are together, which is a lawful one.
#[derive(Drop)]
pub struct LentPart<'a, K: Kem> {
    pub head: &'a Head<K>,
    pub kept: &'a Skipped,
}

impl<'a, K: Kem> Model for LentPart<'a, K> {
    ghost use Rattle.session_model.specs.States.{State};

    ghost Value = { State };

    ghost use Rattle.session_model.specs.LawfulStates.{IsLawfulState};
    ghost use Rattle.session_model.specs.Seen.{seen};

    ghost view = { λ p. seen p.head.now p.kept.now };

    ghost invariant = { λ p. IsLawfulState K.mechanism (seen p.head.now p.kept.now) };
}

/// A second copy of a key.
pub fn copy_of_key(key: &Key32) -> Key32
    ensures { result ≡ key.now }
{
    Key32 { bytes: key.bytes }
}
