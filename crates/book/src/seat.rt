//! A session on the heap, in room that may be taken long before there is one.

ghost use Rattle.std.specs.Prelude.{◌≡◌, None, Ok, IfErr, IfOk, Some, is_some, true};
ghost use Rattle.ratchet.specs.Seen.{seed_bytes};
ghost use Rattle.session_model.specs.Clients.{accept_send, say_check, say_on};
ghost use Rattle.session_model.specs.Contents.{content_with};
ghost use Rattle.client.specs.Drafting.{DraftsFor, IsDraftOf, IsReceivedOf, IsSaidOf, drafted_client, said_if};

use client::{Core, Draft};
use dr_base::Key32;
use kem_laws::Kem;
use ratchet::{NoPairFor, OpeningRoom, PacketRoom, ReceiveDraft, SendDraft};
use session_model::Refusal;
use std::alloc::{AllocError, Global};
use std::marker::Model;

/// Room on the heap for a session, with none in it.
#[derive(Drop)]
pub(crate) struct Seat<K: Kem> {
    place: Box<Option<Core<K>>>,
}

impl<K: Kem> Seat<K> {
    /// Takes it.
    // A function of its own, so that its room isn't set where there is no session.
    #[inline(never)]
    pub(crate) fn take(alloc: Global) -> Result<Seat<K>, AllocError> {
        Ok(Seat {
            place: Box::new(alloc, None)?,
        })
    }

    /// Puts a session into it.
    pub(crate) fn fill(self, core: Core<K>) -> Seated<K>
        ensures { result ≡ core }
    {
        let Seat { mut place } = self;
        *place = Some(core);
        Seated { place }
    }
}

/// A session on the heap: a row in memory is short, though what it keeps is long. A contract sees
/// what it keeps.
#[derive(Drop)]
pub(crate) struct Seated<K: Kem> {
    place: Box<Option<Core<K>>>,
}

impl<K: Kem> Model for Seated<K> {
    ghost use Rattle.std.specs.Prelude.{◌≡◌, is_some, true, unwrap_or};
    ghost use Rattle.session_model.specs.Clients.{Client};
    ghost use Rattle.book.specs.RowKeepings.{no_client};

    ghost Value = { Client };

    ghost view = { λ s. unwrap_or s.place.value no_client };

    ghost invariant = { λ s. is_some s.place.value ≡ true };
}

impl<K: Kem> Seated<K> {
    /// The session.
    pub(crate) fn core(&self) -> &Core<K>
        ensures { result.now ≡ self.now }
    {
        match &*self.place {
            Some(core) => core,
            None => unreachable!(),
        }
    }

    /// Drafts bytes of a kind, as `Core::draft_say` does.
    // Inlined, so that the draft is built where the caller keeps it.
    #[inline(always)]
    pub(crate) fn draft_say<'a>(
        &mut self,
        kind: u8,
        text: &[u8],
        seed: Option<Key32>,
        room: &'a mut PacketRoom,
    ) -> Result<SendDraft<'a, K>, NoPairFor>
        requires { say_check self.old (content_with kind text.now) ≡ Ok (is_some seed) }
        ensures exact { say_on K.mechanism self.old (content_with kind text.now) (seed_bytes seed)
            ≡ accept_send self.old (said_if self.old.state result) }
        ensures draft { IfOk result (IsSaidOf K.mechanism self.old) }
        ensures seed { IfErr result (λ e. seed ≡ Some e.seed) }
        ensures same { self.new ≡ self.old }
    {
        match &mut *self.place {
            Some(core) => core.draft_say(kind, text, seed, room),
            None => unreachable!(),
        }
    }

    /// Drafts the taking of a packet, as `Core::draft_take` does.
    #[inline(always)]
    pub(crate) fn draft_take<'a>(
        &mut self,
        packet: &[u8],
        room: &'a mut OpeningRoom,
    ) -> Result<ReceiveDraft<'a, K>, Refusal>
        ensures exact { DraftsFor K.mechanism self.old packet.now result }
        ensures draft { IfOk result (IsReceivedOf K.mechanism self.old) }
        ensures same { self.new ≡ self.old }
    {
        match &mut *self.place {
            Some(core) => core.draft_take(packet, room),
            None => unreachable!(),
        }
    }

    /// Accepts a draft, as `Core::accept` does.
    #[inline(always)]
    pub(crate) fn accept(&mut self, draft: Draft<'_, K>)
        requires { IsDraftOf K.mechanism self.old draft }
        ensures { self.new ≡ drafted_client self.old draft.entry }
    {
        match &mut *self.place {
            Some(core) => core.accept(draft),
            None => {
                draft.discard();
                unreachable!()
            }
        }
    }
}
