//! The one step of every call that changes something: a record replaces the one on the disk, and
//! then the client changes.

ghost use Rattle.std.specs.Prelude.{◌≡◌, Ok, IfSome, true};
ghost use Rattle.dr_model.specs.Machines.Steps.{has_effect};
ghost use Rattle.client.specs.Acting.{IsAct, IsKeeperAct};
ghost use Rattle.client.specs.Clients.{IsOpenOn};
ghost use Rattle.client.specs.Drafting.{IsDraftOf, drafted_answer, drafted_step};
ghost use Rattle.client.specs.Keepings.{HoldsKept, IsKeeperOpen, client_keeping};
ghost use Rattle.client.specs.Outcomes.{kept_as};

use crate::client::{AREA, Client};
use crate::cores::{Core, Draft};
use crate::keepers::Keeper;
use dr_base::Key32;
use dr_disk::{Call, Disk};
use kem_laws::Kem;
use ratchet::{NoPairFor, OpeningRoom, PacketRoom, ReceiveDraft, SendDraft};
use session_model::Refusal;
use slot_store::{lengthen, resting};
use std::mem::replace;

impl<K: Kem> Client<K> {
    /// Keeps what was drafted: the record that it leads to replaces the one on the disk, and then
    /// it is accepted. A call on the disk that fails closes the client, which keeps what it kept.
    // Inlined, so that the draft stays where it is.
    #[inline(always)]
    fn keep<D: Disk>(&mut self, disk: &mut D, draft: Draft<'_, K>) -> Result<(), Call>
        requires draft { IsDraftOf K.mechanism self.old.kept draft }
        requires effect { has_effect (drafted_answer draft) ≡ true }
        requires open { IsOpenOn self.old (D.state disk.old) }
        ensures { IsAct D.state (Ok (drafted_step self.old.kept draft.entry))
            self.old self.new disk.old disk.new (kept_as (drafted_answer draft.entry) result) }
    {
        let long = self.core.encoded_len(&draft);
        lengthen(AREA, &mut self.text, long);
        let len = self.core.encode(&draft, &mut self.text);
        match self.store.replace(disk, &mut self.text, len) {
            Ok(()) => {
                self.core.accept(draft);
                Ok(())
            }
            Err(fault) => {
                draft.discard();
                self.closed = Some(fault.call);
                Err(fault.call)
            }
        }
    }
}

impl<K: Kem> Keeper<K> for Client<K> {
    ghost keeping = { client_keeping };

    fn core(&self) -> &Core<K> {
        &self.core
    }

    fn closed(&self) -> Option<Call> {
        self.closed
    }

    // Inlined, so that the draft is built where the caller keeps it.
    #[inline(always)]
    fn draft_say<'a>(
        &mut self,
        kind: u8,
        text: &[u8],
        seed: Option<Key32>,
        room: &'a mut PacketRoom,
    ) -> Result<SendDraft<'a, K>, NoPairFor> {
        self.core.draft_say(kind, text, seed, room)
    }

    #[inline(always)]
    fn draft_take<'a>(
        &mut self,
        packet: &[u8],
        room: &'a mut OpeningRoom,
    ) -> Result<ReceiveDraft<'a, K>, Refusal> {
        self.core.draft_take(packet, room)
    }

    #[inline(always)]
    fn keep_drafted<D: Disk>(
        &mut self,
        disk: &mut D,
        draft: &mut Option<Draft<'_, K>>,
    ) -> Result<(), Call>
        requires draft { IfSome draft.old (IsDraftOf K.mechanism self.old.kept) }
        requires effect { IfSome draft.old (λ d. has_effect (drafted_answer d) ≡ true) }
        requires open { IsKeeperOpen client_keeping self.old (D.state disk.old) }
        ensures { IfSome draft.old (λ d.
            IsKeeperAct client_keeping D.state (Ok (drafted_step self.old.kept d))
            self.old self.new disk.old disk.new (kept_as (drafted_answer d) result)) }
    {
        match replace(draft, None) {
            Some(draft) => self.keep(disk, draft),
            None => Ok(()),
        }
    }

    fn is_there<D: Disk>(&self, disk: &D)
        requires { client_keeping.ready self.now (D.state disk.now) }
        ensures { client_keeping.there self.now }
    {}

    fn holds<D: Disk>()
        ensures { (disk : D) → HoldsKept client_keeping (D.state disk) }
    {
        resting();
    }
}
