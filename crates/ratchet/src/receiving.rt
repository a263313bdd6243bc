//! Drafts of packets that are taken.

ghost use Rattle.std.specs.Prelude.{◌≡◌, ◌≤◌, length, IfOk};
ghost use Rattle.cka.specs.Agreement.{agreement_size};
ghost use Rattle.dr_base.specs.declared.limits.TheConstants.{TEXT_LIMIT};
ghost use Rattle.packet.specs.Packet.{IsLawful};
ghost use Rattle.session_model.specs.Drafts.{IsReceiveDraft};
ghost use Rattle.session_model.specs.Taking.{draft_receive, opening_on};
ghost use Rattle.session_model.specs.States.{State};
ghost use Rattle.ratchet.specs.Seen.{on_way, opened, received_as, received_of};

use crate::rooms::{Message, OpeningRoom, open};
use crate::session::Session;
use crate::table::{kept_in, settle};
use crate::way::find_key;
use bodies::{Body, TEXT_KIND, open_body};
use dr_base::{Position, Side};
use etm_aead::OpenKey;
use fs_aead::Skipped;
use kem_laws::Kem;
use packet::View;
use session_model::{Head, LentPart, ReceiveRefusal};
use std::marker::Model;

/// A packet that opens: its text, its kind, and the head that the session would keep, with kept
/// keys only where the packet changes them. The text and these keys stand in room that the caller
/// lends. It changes nothing until it is accepted.
///
/// It can't be copied, and it has to be spent: by `accept`, or by `discard`.
pub struct ReceiveDraft<'a, K: Kem> {
    position: Position,
    kind: u8,
    text: &'a [u8],
    head: Head<K>,
    /// None where the session's kept keys stay.
    table: Option<&'a Skipped>,
}

impl<'a, K: Kem> Model for ReceiveDraft<'a, K> {
    ghost use Rattle.std.specs.Prelude.{◌≤◌, [], length, option_map};
    ghost use Rattle.dr_base.specs.declared.limits.TheConstants.{TEXT_LIMIT};
    ghost use Rattle.session_model.specs.LawfulStates.{IsLawfulState};
    ghost use Rattle.session_model.specs.Seen.{seen};
    ghost use Rattle.ratchet.specs.Seen.{Received, kept_in};

    ghost Value = { Received };

    ghost view = { λ d. record {
      position = d.position;
      kind = d.kind;
      text = d.text.now;
      head = seen d.head [];
      table = option_map (λ t. t.now) d.table;
    } };

    ghost invariant = { λ d. (length d.text.now ≤ TEXT_LIMIT)
        × IsLawfulState K.mechanism
        (seen d.head (kept_in [] (option_map (λ t. t.now) d.table))) };
}

impl<K: Kem> ReceiveDraft<'_, K> {
    /// Where the text stands.
    pub fn position(&self) -> Position
        ensures { result ≡ self.now.position }
    {
        self.position
    }

    /// The kind of the text.
    pub fn kind(&self) -> u8
        ensures { result ≡ self.now.kind }
    {
        self.kind
    }

    /// The text.
    pub fn text(&self) -> &[u8]
        ensures value { result.now ≡ self.now.text }
        ensures fits { length result.now ≤ TEXT_LIMIT }
    {
        self.text
    }

    /// What the session that it was drafted from would keep.
    pub fn part<'a>(&'a self, session: &'a Session<K>) -> LentPart<'a, K>
        requires { IsReceiveDraft K.mechanism session.now (received_of session.now self.now) }
        ensures { result ≡ (received_of session.now self.now).next }
    {
        let part = &session.part;
        LentPart {
            head: &self.head,
            kept: kept_in(&part.kept, self.table),
        }
    }

    /// Makes it the session's, which still has the state that it was drafted from.
    #[inline(always)]
    pub fn accept(self, session: &mut Session<K>)
        requires { IsReceiveDraft K.mechanism session.old (received_of session.old self) }
        ensures { session.new ≡ (received_of session.old self.entry).next }
    {
        let part = &mut session.part;
        part.head.copy_from(&self.head);
        settle(&mut part.kept, self.table);
        let ReceiveDraft {
            position: _,
            kind: _,
            text: _,
            head: _,
            table: _,
        } = self;
    }

    /// Gives it up: the session stays as it is.
    pub fn discard(self) {
        let ReceiveDraft {
            position: _,
            kind: _,
            text: _,
            head: _,
            table: _,
        } = self;
    }
}

/// Opens the ciphertext of a packet in room for it, with the key that was found for the packet, if
/// its tag is the one under that key. Answers the body, if the opened bytes are one of the packet's
/// version.
fn open_text<'a>(
    key: OpenKey,
    view: &View<'_>,
    message: &'a mut Message,
) -> Result<Body<'a>, ReceiveRefusal>
    ensures exact { (next : State) → opened result view.now next
        ≡ opening_on view.now (on_way key next) }
    ensures fits { IfOk result (λ body. length body.content ≤ TEXT_LIMIT) }
{
    match open(key, view.ad(), view.ciphertext(), view.tag(), message) {
        Err(_) => return Err(ReceiveRefusal::BadTag),
        Ok(()) => {}
    }
    let side = Side::of_epoch(view.epoch()).peer();
    match open_body(view.version(), side, message.as_slice()) {
        Some(body) => Ok(body),
        None => Err(ReceiveRefusal::BadPadding),
    }
}

impl<K: Kem> Session<K> {
    /// Drafts the taking of a packet, or answers why it is refused. The text stands in the room,
    /// and so do the kept keys, where the packet changes them. What the packet's receipt covers
    /// doesn't wait any more in the draft's head.
    // Inlined, the draft is built where the caller keeps it.
    #[inline(always)]
    #[tactic(auto, unfolding(session_model::specs::Taking::draft_receive))]
    pub fn draft_receive<'a>(
        &self,
        work: &mut K::Work,
        view: &View<'_>,
        room: &'a mut OpeningRoom,
    ) -> Result<ReceiveDraft<'a, K>, ReceiveRefusal>
        requires { IsLawful (agreement_size K.mechanism) view.now }
        ensures exact { received_as self.now result ≡ draft_receive K.mechanism self.now view.now }
        ensures draft { IfOk result (λ draft.
            IsReceiveDraft K.mechanism self.now (received_of self.now draft)) }
    {
        room.kept.clear();
        let part = &self.part;
        let mut draft = ReceiveDraft {
            position: Position {
                epoch: view.epoch(),
                index: view.index(),
            },
            kind: TEXT_KIND,
            text: &[],
            head: part.head.copied(),
            table: None,
        };
        let key = match find_key(part, &mut draft.head, &mut room.kept, work, view) {
            Ok(key) => key,
            Err(refusal) => {
                draft.discard();
                return Err(refusal);
            }
        };
        match open_text(key, view, &mut room.message) {
            Ok(body) => {
                draft.head.awaiting.obey(&body.receipt);
                draft.kind = body.kind;
                draft.text = body.content;
                draft.table = room.kept.changed();
                Ok(draft)
            }
            Err(refusal) => {
                draft.discard();
                Err(refusal)
            }
        }
    }
}
