//! A draft is accepted: the core changes as it says.

ghost use Rattle.std.specs.Prelude.{◌≡◌, ◌≤◌, true};
ghost use Rattle.std.specs.List.{list_any};
ghost use Rattle.boxes.specs.Entries.{is_of};
ghost use Rattle.dr_model.specs.Machines.Acts.{dropped_client, standing_with};
ghost use Rattle.session_model.specs.declared.answer.Which.TheVariants.{OfId, Oldest};
ghost use Rattle.client.specs.Drafting.{HasToDrop, IsDraftOf, IsReceivedOf, IsSaidOf, drafted_client, received_client, said_client};

use super::drafts::Draft;
use super::showing::Core;
use kem_laws::Kem;
use ratchet::{ReceiveDraft, SendDraft};
use session_model::{Items, Which};

impl<K: Kem> Core<K> {
    /// Accepts a draft of what it keeps.
    // Inlined, as each part of it, so that the draft stays where it is.
    #[inline(always)]
    pub fn accept(&mut self, draft: Draft<'_, K>)
        requires { IsDraftOf K.mechanism self.old draft }
        ensures { self.new ≡ drafted_client self.old draft.entry }
    {
        match draft {
            Draft::Said(said) => self.accept_said(said),
            Draft::Received(received) => self.accept_received(received),
            Draft::Dropped(which) => self.accept_dropped(which),
        }
    }

    #[inline(always)]
    fn accept_said(&mut self, draft: SendDraft<'_, K>)
        requires { IsSaidOf K.mechanism self.old draft }
        ensures { self.new ≡ said_client self.old draft.entry }
    {
        self.outbox.push(draft.position(), draft.packet()).unwrap();
        draft.accept(&mut self.session);
    }

    #[inline(always)]
    fn accept_received(&mut self, draft: ReceiveDraft<'_, K>)
        requires { IsReceivedOf K.mechanism self.old draft }
        ensures { self.new ≡ received_client self.old draft.entry }
    {
        self.inbox
            .push(draft.position(), draft.kind(), draft.text())
            .unwrap();
        draft.accept(&mut self.session);
    }

    #[tactic(auto, using(session_model::proofs::Leaving::enough_held, session_model::proofs::Leaving::any_stand))]
    fn accept_dropped(&mut self, which: Which)
        requires { HasToDrop self.old which }
        ensures { self.new ≡ dropped_client self.old which }
    {
        match which {
            Which::Oldest(items, n) => self.drop_first(items, n),
            Which::OfId(id) => self.drop_long(id),
        }
    }

    /// Drops the parts of a long text.
    fn drop_long(&mut self, id: u32)
        requires { list_any (is_of id) self.old.inbox ≡ true }
        ensures { self.new ≡ dropped_client self.old (OfId id) }
    {
        self.inbox.drop_long(id).unwrap();
    }

    /// Drops the `n` oldest items of a box.
    fn drop_first(&mut self, items: Items, n: u32)
        requires { n ≤ standing_with self.old items }
        ensures { self.new ≡ dropped_client self.old (Oldest items n) }
    {
        match items {
            Items::Texts => self.inbox.drop_first(n).unwrap(),
            Items::Packets => self.outbox.drop_first(n).unwrap(),
        }
    }
}
