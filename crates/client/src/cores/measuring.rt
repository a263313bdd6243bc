//! How long the record of a core is, as it stands and as a draft leaves it.

ghost use Rattle.client.specs.Cores.{HasRecordLength};
ghost use Rattle.client.specs.Drafting.{IsDraftOf, drafted_client};

use super::drafts::Draft;
use super::showing::Core;
use kem_laws::Kem;
use session_record::{Change, encoded_len};

impl<K: Kem> Core<K> {
    /// How many bytes the record of what it keeps has.
    pub fn encoded_len_now(&self) -> usize
        ensures { HasRecordLength self.now result }
    {
        let part = self.session.part();
        let keys = self.keys.as_ref();
        encoded_len(&part, &self.inbox, &self.outbox, &Change::Same, keys)
    }

    /// How many bytes the record has of what it will keep once a draft is accepted.
    pub fn encoded_len(&self, draft: &Draft<'_, K>) -> usize
        requires { IsDraftOf K.mechanism self.now draft.now }
        ensures { HasRecordLength (drafted_client self.now draft.now) result }
    {
        let written = self.written(draft);
        let keys = self.keys.as_ref();
        encoded_len(
            &written.part,
            &self.inbox,
            &self.outbox,
            &written.change,
            keys,
        )
    }
}
