//! What a draft's record is written from: the session as it will be, and a change of the boxes.

ghost use Rattle.client.specs.Drafting.{IsDraftOf, IsWrittenFrom, drafted_client};

use super::drafts::Draft;
use super::showing::Core;
use kem_laws::Kem;
use session_model::LentPart;
use session_record::Change;

/// The session as it will be, and what changes of the boxes.
#[derive(Drop)]
pub(super) struct Written<'a, K: Kem> {
    pub(super) part: LentPart<'a, K>,
    pub(super) change: Change<'a>,
}

impl<K: Kem> Core<K> {
    /// What the record is written from once a draft is accepted.
    pub(super) fn written<'a>(&'a self, draft: &'a Draft<'_, K>) -> Written<'a, K>
        requires { IsDraftOf K.mechanism self.now draft.now }
        ensures { IsWrittenFrom K.mechanism self.now (drafted_client self.now draft.now)
            result.part result.change }
    {
        match draft {
            Draft::Said(said) => Written {
                part: said.part(&self.session),
                change: Change::Said {
                    packet: said.packet(),
                },
            },
            Draft::Received(received) => Written {
                part: received.part(&self.session),
                change: Change::Received {
                    position: received.position(),
                    kind: received.kind(),
                    text: received.text(),
                },
            },
            Draft::Dropped(which) => Written {
                part: self.session.part(),
                change: Change::Dropped(*which),
            },
        }
    }
}
