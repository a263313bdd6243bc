//! A core is read from a record, in memory that was taken before.

ghost use Rattle.std.specs.Prelude.{◌≡◌, ℕ, List, None, Ok, Some, IfOk, is_some, true};
ghost use Rattle.session_model.specs.States.{State};
ghost use Rattle.session_record.specs.Lawful.{IsLawfulClient};
ghost use Rattle.session_record.specs.Record.{client_of, record_read};
ghost use Rattle.client.specs.Opening.{client_record_fault};
ghost use Rattle.client.specs.Reading.{HasReadClient, HasReadNothing};

use super::showing::Core;
use super::starting::CoreRoom;
use kem_laws::Kem;
use ratchet::Session;
use session_model::{RelayKeys, SessionPart};
use session_record::decode;
use slot_store::Grammar;
use std::alloc::{AllocError, Global};

/// A reader of a client's record: the memory of a core, whose boxes are filled, and the session
/// once one was read, with the keys of its boxes at a relay.
#[derive(Drop)]
pub struct RecordReader<K: Kem> {
    pub(crate) room: CoreRoom<K>,
    pub(crate) session: Option<Session<K>>,
    pub(crate) keys: Option<RelayKeys>,
}

/// Keeps the session of a part. A function of its own, so that its room isn't set while a record is
/// read.
#[inline(never)]
fn keep_part<K: Kem>(session: &mut Option<Session<K>>, part: SessionPart<K>)
    ensures { session.new ≡ Some part }
{
    *session = Some(Session::resume(part));
}

impl<K: Kem> Grammar for RecordReader<K> {
    ghost fault_at = { λ text. client_record_fault K.mechanism text };

    ghost is_new = { λ r. HasReadNothing r.session r.room.inbox r.room.outbox };

    ghost has_read = { λ r text. HasReadClient K.mechanism
        r.session r.room.inbox r.room.outbox r.keys text };

    fn read(&mut self, text: &[u8]) -> Result<(), u32> {
        match decode::<K>(text, &mut self.room.inbox, &mut self.room.outbox) {
            Ok((part, keys)) => {
                keep_part(&mut self.session, part);
                self.keys = keys;
                Ok(())
            }
            Err(damaged) => Err(damaged.at as u32),
        }
    }
}

impl<K: Kem> RecordReader<K> {
    /// Takes its memory. It has read nothing.
    pub fn new(alloc: Global) -> Result<RecordReader<K>, AllocError>
        ensures { IfOk result (λ r. HasReadNothing r.session r.room.inbox r.room.outbox) }
    {
        let room = CoreRoom::new(alloc)?;
        Ok(RecordReader {
            room,
            session: None,
            keys: None,
        })
    }

    /// The core that was read.
    pub fn into_core(self) -> Core<K>
        requires some { is_some self.session ≡ true }
        requires lawful { (s : State) → self.session ≡ Some s
            → IsLawfulClient K.mechanism (client_of s self.room.inbox self.room.outbox self.keys) }
        ensures { (s : State) → self.session ≡ Some s
            → result ≡ client_of s self.room.inbox self.room.outbox self.keys }
    {
        let RecordReader {
            room: CoreRoom {
                inbox,
                outbox,
                work,
            },
            session,
            keys,
        } = self;
        match session {
            Some(session) => Core {
                session,
                inbox,
                outbox,
                keys,
                work,
            },
            None => unreachable!(),
        }
    }
}

impl<K: Kem> Core<K> {
    /// Reads the core that a text is the record of, in whatever version.
    pub fn read(alloc: Global, text: &[u8]) -> Result<Core<K>, AllocError>
        requires { client_record_fault K.mechanism text.now ≡ None }
        ensures { IfOk result (λ core. record_read K.mechanism text.now ≡ Ok core) }
    {
        let mut reader = RecordReader::<K>::new(alloc)?;
        match reader.read(text) {
            Ok(()) => Ok(reader.into_core()),
            Err(_) => unreachable!(),
        }
    }
}
