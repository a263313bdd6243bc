//! The steps of a core are drafted: a text that is said, a packet that is taken, and items that are
//! dropped.

ghost use Rattle.std.specs.Prelude.{◌≡◌, Ok, IfOk, IfErr, is_some};
ghost use Rattle.dr_model.specs.Machines.Acts.{act_on, dropped_client, dropping, standing_with};
ghost use Rattle.dr_model.specs.Machines.Steps.{leaving};
ghost use Rattle.ratchet.specs.Seen.{received_of, said_of, seed_bytes};
ghost use Rattle.session_model.specs.Clients.{accept_send, say_check, say_on};
ghost use Rattle.session_model.specs.Contents.{content_with};
ghost use Rattle.session_model.specs.Drafts.{IsReceiveDraft, IsSendDraft};
ghost use Rattle.session_model.specs.LawfulStates.{IsLawfulState};
ghost use Rattle.session_model.specs.Leaving.{any_of, drop_check, enough};
ghost use Rattle.client.specs.Drafting.{DraftsFor, IsReceivedOf, IsSaidOf, said_if};

use super::showing::Core;
use boxes::Inbox;
use dr_base::{INBOX_LIMIT, Key32, OUTBOX_LIMIT};
use kem_laws::{Kem, laws};
use packet::parse;
use ratchet::{NoPairFor, OpeningRoom, PacketRoom, ReceiveDraft, SendDraft, Session};
use session_model::{Items, LentPart, Refusal, Which, content_check};

/// A part is a lawful state: a caller that needs this calls it.
pub(super) fn lawful_part<K: Kem>(part: &LentPart<'_, K>)
    ensures { IsLawfulState K.mechanism part.now }
{
    let _head = part.head;
}

/// What a session would keep once a text is said is lawful: a caller that needs this calls it.
fn lawful_said<K: Kem>(draft: &SendDraft<'_, K>, session: &Session<K>)
    requires { IsSendDraft K.mechanism session.now (said_of session.now draft.now) }
    ensures { IsLawfulState K.mechanism (said_of session.now draft.now).next }
{
    lawful_part(&draft.part(session));
}

/// What a session would keep once a packet is taken is lawful: a caller that needs this calls it.
fn lawful_taken<K: Kem>(draft: &ReceiveDraft<'_, K>, session: &Session<K>)
    requires { IsReceiveDraft K.mechanism session.now (received_of session.now draft.now) }
    ensures { IsLawfulState K.mechanism (received_of session.now draft.now).next }
{
    lawful_part(&draft.part(session));
}

/// Whether so many can leave where this many are held.
fn enough(n: u32, held: u32) -> Result<(), Refusal>
    ensures { result ≡ enough n held }
{
    if n <= held {
        return Ok(());
    }
    Err(Refusal::Fewer(held))
}

/// Whether a part of the long text stands.
fn any_of(inbox: &Inbox, id: u32) -> Result<(), Refusal>
    ensures { result ≡ any_of id inbox.now }
{
    if inbox.has_long(id) {
        return Ok(());
    }
    Err(Refusal::NoLong)
}

impl<K: Kem> Core<K> {
    /// Whether bytes of a kind may be said, a text or a part of a long one, and then whether that
    /// needs a seed: `NoParts` comes first, exactly where this is a lawful part and the session's
    /// format isn't `Receipts`.
    pub fn say_check(&self, kind: u8, text: &[u8]) -> Result<bool, Refusal>
        ensures { result ≡ say_check self.now (content_with kind text.now) }
    {
        let part = self.session.part();
        match content_check(part.head.format, kind, text) {
            Err(refusal) => return Err(refusal.into()),
            Ok(()) => {}
        }
        if self.outbox.len() as usize >= OUTBOX_LIMIT {
            return Err(Refusal::OutboxFull);
        }
        match self.session.send_check(kind, text) {
            Ok(needs_seed) => Ok(needs_seed),
            Err(refusal) => Err(refusal.into()),
        }
    }

    /// Drafts bytes of a kind that `say_check` allows, with a seed exactly where it asks for one.
    /// Their packet stands in the room.
    // Inlined, the draft is built where the caller keeps it.
    #[inline(always)]
    pub fn draft_say<'a>(
        &mut self,
        kind: u8,
        text: &[u8],
        seed: Option<Key32>,
        room: &'a mut PacketRoom,
    ) -> Result<SendDraft<'a, K>, NoPairFor>
        requires { say_check self.old (content_with kind text.now) ≡ Ok (is_some seed) }
        ensures exact { say_on K.mechanism self.old (content_with kind text.now) (seed_bytes seed)
            ≡ accept_send self.old (said_if self.old.state result) }
        ensures draft { IfOk result (IsSaidOf K.mechanism self.old) }
        ensures seed { IfErr result (λ e. seed ≡ Some e.seed) }
        ensures same { self.new ≡ self.old }
    {
        laws::<K>();
        match self
            .session
            .draft_send(&mut self.work, kind, text, seed, room)
        {
            Err(none) => Err(none),
            Ok(draft) => {
                lawful_said(&draft, &self.session);
                Ok(draft)
            }
        }
    }

    /// Drafts the taking of the packet that the bytes are, or answers the first reason against it,
    /// of which a full inbox is the last. The text stands in the room, and so do the kept keys,
    /// where the packet changes them.
    // Inlined, the draft is built where the caller keeps it.
    #[inline(always)]
    #[tactic(auto, unfolding(session_model::specs::Clients::take_on))]
    pub fn draft_take<'a>(
        &mut self,
        packet: &[u8],
        room: &'a mut OpeningRoom,
    ) -> Result<ReceiveDraft<'a, K>, Refusal>
        ensures exact { DraftsFor K.mechanism self.old packet.now result }
        ensures draft { IfOk result (IsReceivedOf K.mechanism self.old) }
        ensures same { self.new ≡ self.old }
    {
        match parse(packet, K::CIPHERTEXT + K::PUBLIC) {
            Err(fault) => Err(Refusal::Malformed(fault)),
            Ok(view) => match self.session.draft_receive(&mut self.work, &view, room) {
                Err(refusal) => Err(refusal.into()),
                Ok(draft) => {
                    if self.inbox.len() as usize >= INBOX_LIMIT {
                        draft.discard();
                        return Err(Refusal::InboxFull);
                    }
                    lawful_taken(&draft, &self.session);
                    Ok(draft)
                }
            },
        }
    }

    /// How many of these items stand in their box.
    pub fn standing(&self, items: Items) -> u32
        ensures { result ≡ standing_with self.now items }
    {
        match items {
            Items::Texts => self.inbox.len(),
            Items::Packets => self.outbox.len(),
        }
    }

    /// Whether a box has what is to leave it: `Fewer` exactly where fewer stand, `NoLong` exactly
    /// where no part of the long text does.
    pub fn drop_check(&self, which: Which) -> Result<(), Refusal>
        ensures value { result ≡ drop_check which self.now.inbox self.now.outbox }
        ensures exact { act_on K.mechanism self.now (dropping which)
            ≡ leaving which result (dropped_client self.now which) }
    {
        match which {
            Which::Oldest(items, n) => enough(n, self.standing(items)),
            Which::OfId(id) => any_of(&self.inbox, id),
        }
    }
}
