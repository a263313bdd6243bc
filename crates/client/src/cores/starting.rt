//! A core is begun, in memory that was taken before.

ghost use Rattle.std.specs.Prelude.{◌≡◌, ◌↔◌, [], IfOk, IsOk};
ghost use Rattle.client.specs.Beginning.{HasPair, begin_of, begun_client};
ghost use Rattle.client.specs.Cores.{BeginsCore};

use super::drafting::lawful_part;
use super::showing::Core;
use crate::refusals::CoreBeginError;
use bodies::Format;
use boxes::{Inbox, Outbox};
use dr_base::{Key32, Side};
use kem_laws::{Kem, NoPair, laws};
use ratchet::Session;
use session_model::{RelayKeys, are_long};
use std::alloc::{AllocError, Global};

/// The memory of a core: its boxes, which are empty, and its mechanism's room.
#[derive(Drop)]
pub(crate) struct CoreRoom<K: Kem> {
    pub(crate) inbox: Inbox,
    pub(crate) outbox: Outbox,
    pub(crate) work: K::Work,
}

impl<K: Kem> CoreRoom<K> {
    /// Takes it.
    pub(crate) fn new(alloc: Global) -> Result<CoreRoom<K>, AllocError>
        ensures inbox { IfOk result (λ room. room.inbox ≡ []) }
        ensures outbox { IfOk result (λ room. room.outbox ≡ []) }
    {
        let inbox = Inbox::new(alloc)?;
        let outbox = Outbox::new(alloc)?;
        let work = K::work(alloc)?;
        Ok(CoreRoom {
            inbox,
            outbox,
            work,
        })
    }

    /// The core of a side at the beginning of a conversation.
    pub(crate) fn begin(self, side: Side, format: Format, key: &Key32) -> Result<Core<K>, NoPair>
        requires inbox { self.inbox ≡ [] }
        requires outbox { self.outbox ≡ [] }
        ensures ok { IfOk result (λ core.
            core ≡ begun_client K.mechanism (begin_of side format key.now)) }
        ensures variant { IsOk result ↔ HasPair K.mechanism (begin_of side format key.now) }
    {
        let CoreRoom {
            inbox,
            outbox,
            mut work,
        } = self;
        match Session::<K>::begin(&mut work, side, format, key) {
            Err(NoPair) => Err(NoPair),
            Ok(session) => {
                lawful_part(&session.part());
                let keys = RelayKeys::of(key);
                are_long(&keys);
                Ok(Core {
                    session,
                    inbox,
                    outbox,
                    keys: Some(keys),
                    work,
                })
            }
        }
    }
}

impl<K: Kem> Core<K> {
    /// Begins the session of a side, which seals its texts in this format. `NoPair` exactly where
    /// the agreement seed of the key has none, unless memory was wanting.
    pub fn begin(
        alloc: Global,
        side: Side,
        format: Format,
        key: &Key32,
    ) -> Result<Core<K>, CoreBeginError>
        ensures { BeginsCore K.mechanism (begin_of side format key.now) result }
    {
        laws::<K>();
        let Ok(room) = CoreRoom::<K>::new(alloc) else {
            return Err(CoreBeginError::Memory);
        };
        match room.begin(side, format, key) {
            Err(NoPair) => Err(CoreBeginError::NoPair),
            Ok(core) => Ok(core),
        }
    }
}
