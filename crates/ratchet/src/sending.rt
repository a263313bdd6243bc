//! A text that would be said.

ghost use Rattle.std.specs.Prelude.{◌≡◌, ◌≤◌, length};
ghost use Rattle.dr_base.specs.declared.limits.TheConstants.{PACKET_LIMIT};
ghost use Rattle.session_model.specs.Drafts.{IsSendDraft};
ghost use Rattle.ratchet.specs.Seen.{said_of};

use crate::session::Session;
use dr_base::{Key32, Position};
use kem_laws::Kem;
use session_model::{Head, LentPart};
use std::marker::Model;

/// This seed gives no pair of keys: no turn was made.
#[derive(Drop)]
pub struct NoPairFor {
    /// The seed, which was drawn for nothing.
    pub seed: Key32,
}

/// A text that would be said: its packet, in room that the caller lends, and the head that the
/// session would keep; a text changes no kept key. It changes nothing until it is accepted.
///
/// It can't be copied, and it has to be spent: by `accept`, or by `discard`.
pub struct SendDraft<'a, K: Kem> {
    pub(crate) position: Position,
    pub(crate) packet: &'a [u8],
    pub(crate) head: Head<K>,
}

impl<'a, K: Kem> Model for SendDraft<'a, K> {
    ghost use Rattle.std.specs.Prelude.{◌≤◌, [], length};
    ghost use Rattle.boxes.specs.Posts.{post_under};
    ghost use Rattle.dr_base.specs.declared.limits.TheConstants.{PACKET_LIMIT};
    ghost use Rattle.session_model.specs.LawfulStates.{IsLawfulState};
    ghost use Rattle.session_model.specs.Seen.{seen};
    ghost use Rattle.ratchet.specs.Seen.{Said};

    ghost Value = { Said };

    ghost view = { λ d. record {
      post = post_under d.position d.packet.now;
      head = seen d.head [];
    } };

    ghost invariant = { λ d. (length d.packet.now ≤ PACKET_LIMIT)
        × IsLawfulState K.mechanism (seen d.head []) };
}

impl<K: Kem> SendDraft<'_, K> {
    /// Where the text would stand.
    pub fn position(&self) -> Position
        ensures { result ≡ self.now.post.position }
    {
        self.position
    }

    /// The bytes of its packet.
    pub fn packet(&self) -> &[u8]
        ensures value { result.now ≡ self.now.post.packet }
        ensures fits { length result.now ≤ PACKET_LIMIT }
    {
        self.packet
    }

    /// What the session that it was drafted from would keep.
    pub fn part<'a>(&'a self, session: &'a Session<K>) -> LentPart<'a, K>
        requires { IsSendDraft K.mechanism session.now (said_of session.now self.now) }
        ensures { result ≡ (said_of session.now self.now).next }
    {
        let part = &session.part;
        LentPart {
            head: &self.head,
            kept: &part.kept,
        }
    }

    /// Makes it the session's, which still has the state that it was drafted from.
    #[inline(always)]
    pub fn accept(self, session: &mut Session<K>)
        requires { IsSendDraft K.mechanism session.old (said_of session.old self) }
        ensures { session.new ≡ (said_of session.old self.entry).next }
    {
        let part = &mut session.part;
        part.head.copy_from(&self.head);
        let SendDraft {
            position: _,
            packet: _,
            head: _,
        } = self;
    }

    /// Gives it up: the session stays as it is.
    pub fn discard(self) {
        let SendDraft {
            position: _,
            packet: _,
            head: _,
        } = self;
    }
}
