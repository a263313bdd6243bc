//! The record of a core, as it stands and as a draft leaves it.

ghost use Rattle.client.specs.Cores.{HasRoomToWrite, PutsRecord};
ghost use Rattle.client.specs.Drafting.{IsDraftOf, drafted_client};

use super::drafts::Draft;
use super::showing::Core;
use kem_laws::Kem;
use session_record::{Change, encode};

impl<K: Kem> Core<K> {
    /// Writes the record of what it keeps, and answers its length.
    pub fn encode_now(&self, out: &mut [u8]) -> usize
        requires room { HasRoomToWrite self.now out.old }
        ensures { PutsRecord self.now out.old out.new result }
    {
        let part = self.session.part();
        let keys = self.keys.as_ref();
        encode(&part, &self.inbox, &self.outbox, &Change::Same, keys, out)
    }

    /// Writes the record of what it will keep once a draft is accepted, and answers its length.
    pub fn encode(&self, draft: &Draft<'_, K>, out: &mut [u8]) -> usize
        requires draft { IsDraftOf K.mechanism self.now draft.now }
        requires room { HasRoomToWrite (drafted_client self.now draft.now) out.old }
        ensures { PutsRecord (drafted_client self.now draft.now) out.old out.new result }
    {
        let written = self.written(draft);
        let keys = self.keys.as_ref();
        encode(
            &written.part,
            &self.inbox,
            &self.outbox,
            &written.change,
            keys,
            out,
        )
    }
}
