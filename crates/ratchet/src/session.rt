//! A session: what one side keeps of a conversation.

ghost use Rattle.std.specs.Prelude.{◌≡◌, ◌↔◌, ◌≤◌, length, IsSome, IsOk, IfOk};
ghost use Rattle.session_model.specs.Contents.{content_with};
ghost use Rattle.session_model.specs.Refusals.{refused_as, send_refusal};
ghost use Rattle.session_model.specs.Saying.{send_check};
ghost use Rattle.session_model.specs.States.{opening_state};
ghost use Rattle.session_model.specs.Schedule.{agreement_seed};

use crate::beginning::begin;
use bodies::Format;
use cka::Agreement;
use dr_base::{INDEX_LIMIT, Key32, LAST_EPOCH, PUBLIC_LIMIT, SECRET_LIMIT, Side, in_room};
use fs_aead::Skipped;
use kem_laws::{Kem, NoPair, laws};
use session_model::{
    Awaiting, Head, LentPart, Own, Phase, Reception, SendRefusal, SessionPart, content_check,
};
use std::marker::{Model, PhantomData};

/// One side of a conversation. A contract sees its state.
#[derive(Drop)]
pub struct Session<K: Kem> {
    pub(crate) part: SessionPart<K>,
}

impl<K: Kem> Model for Session<K> {
    ghost use Rattle.session_model.specs.States.{State};

    ghost Value = { State };

    ghost view = { λ s. s.part };
}

impl<K: Kem> Session<K> {
    /// A side's session at the beginning of a conversation, which seals its texts in this format.
    /// `NoPair` where the agreement seed that
    /// follows from the shared key has no pair.
    pub fn begin(
        work: &mut K::Work,
        side: Side,
        format: Format,
        key: &Key32,
    ) -> Result<Session<K>, NoPair>
        ensures ok { IfOk result (λ s.
            s ≡ opening_state K.mechanism key.now.bytes side format) }
        ensures variant { IsOk result
            ↔ IsSome (K.mechanism.meaning.pair_of (agreement_seed key.now.bytes)) }
    {
        laws::<K>();
        let beginning = begin(key);
        let mut public = [0; PUBLIC_LIMIT];
        let mut secret = [0; SECRET_LIMIT];
        match K::pair(
            work,
            &beginning.seed,
            &mut public[..K::PUBLIC],
            &mut secret[..K::SECRET],
        ) {
            Err(NoPair) => Err(NoPair),
            Ok(()) => {
                let (phase, receiving) = match side {
                    Side::First => (
                        Phase::Peers(in_room(&public[..K::PUBLIC])),
                        Some(Reception {
                            chain: beginning.stream,
                            reach: 0,
                        }),
                    ),
                    Side::Second => (
                        Phase::Own(Own {
                            secret: in_room(&secret[..K::SECRET]),
                            agreement: Agreement::new(),
                            chain: beginning.stream,
                            sent: 0,
                        }),
                        None,
                    ),
                };
                Ok(Session {
                    part: SessionPart {
                        head: Head {
                            side,
                            format,
                            session: beginning.session,
                            root: beginning.root,
                            epoch: 0,
                            phase,
                            previous: 0,
                            receiving,
                            awaiting: Awaiting::new(),
                            mechanism: PhantomData,
                        },
                        kept: Skipped::new(),
                    },
                })
            }
        }
    }

    /// The session of these parts.
    pub fn resume(part: SessionPart<K>) -> Session<K>
        ensures { result ≡ part }
    {
        Session { part }
    }

    /// The session's parts, lent.
    pub fn part(&self) -> LentPart<'_, K>
        ensures { result ≡ self.now }
    {
        self.part.lent()
    }

    /// Whether bytes of a kind may be said, a text or a part of a long one, and then whether that
    /// needs a seed.
    pub fn send_check(&self, kind: u8, text: &[u8]) -> Result<bool, SendRefusal>
        ensures { refused_as send_refusal result
            ≡ send_check self.now (content_with kind text.now) }
    {
        let part = &self.part;
        match content_check(part.head.format, kind, text) {
            Err(refusal) => return Err(refusal),
            Ok(()) => {}
        }
        match &part.head.phase {
            Phase::Own(own) => {
                if own.sent >= INDEX_LIMIT {
                    return Err(SendRefusal::EpochFull);
                }
                Ok(false)
            }
            Phase::Peers(_) => {
                if part.head.epoch >= LAST_EPOCH {
                    return Err(SendRefusal::LastEpoch);
                }
                Ok(true)
            }
        }
    }
}
