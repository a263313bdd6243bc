//! What would change of a core, before it does.

use kem_laws::Kem;
use ratchet::{ReceiveDraft, SendDraft};
use session_model::Which;

/// What would change of a core. It changes nothing until it is accepted.
///
/// It can't be copied, and it has to be spent: by `Core::accept`, or by `discard`.
pub enum Draft<'a, K: Kem> {
    /// A text is said, and its packet waits in the outbox.
    Said(SendDraft<'a, K>),
    /// A packet is taken, and its text stands in the inbox.
    Received(ReceiveDraft<'a, K>),
    /// Items leave a box, which has them.
    Dropped(Which),
}

impl<K: Kem> Draft<'_, K> {
    /// Gives it up: the core stays as it is.
    pub fn discard(self) {
        match self {
            Draft::Said(draft) => draft.discard(),
            Draft::Received(draft) => draft.discard(),
            Draft::Dropped(_) => {}
        }
    }
}
