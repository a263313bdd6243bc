//! The core, and what it shows.

ghost use Rattle.std.specs.Prelude.{◌≡◌, ◌↔◌, ◌<◌, ◌≤◌, All, length, option_map, slice_get, IfSome, IsSome};
ghost use Rattle.dr_base.specs.declared.limits.TheConstants.{PACKET_LIMIT, TEXT_LIMIT};
ghost use Rattle.client.specs.LastSaid.{last_of, last_said};

use boxes::{Entry, Inbox, Outbox};
use dr_base::{Position, Side};
use kem_laws::Kem;
use long_text::{LONG_LIMIT, LongRefusal, long};
use ratchet::Session;
use session_model::{Phase, RelayKeys, Summary};
use std::marker::Model;

/// The last of so many texts of an epoch.
fn last_of(epoch: u32, count: u32) -> Option<Position>
    ensures { result ≡ last_of epoch count }
{
    if count == 0 {
        return None;
    }
    Some(Position {
        epoch,
        index: count,
    })
}

/// A side of a conversation in memory: its session and its boxes, without a store. A contract sees
/// what it keeps, which is lawful.
///
/// A step is drafted first. The draft can be written as the record of what the core will keep, and
/// changes nothing until it is accepted. All memory is taken when a core is begun or read.
#[derive(Drop)]
pub struct Core<K: Kem> {
    pub(crate) session: Session<K>,
    pub(crate) inbox: Inbox,
    pub(crate) outbox: Outbox,
    /// The keys of its boxes at a relay.
    pub(crate) keys: Option<RelayKeys>,
    pub(crate) work: K::Work,
}

impl<K: Kem> Model for Core<K> {
    ghost use Rattle.session_model.specs.Clients.{Client};

    ghost Value = { Client };

    ghost use Rattle.session_record.specs.Lawful.{IsLawfulClient};
    ghost use Rattle.session_record.specs.Record.{client_of};

    ghost view = { λ c. client_of c.session c.inbox c.outbox c.keys };

    ghost invariant = { λ c. IsLawfulClient K.mechanism
        (client_of c.session c.inbox c.outbox c.keys) };
}

impl<K: Kem> Core<K> {
    ghost use Rattle.boxes.specs.Posts.{post_under};
    ghost use Rattle.boxes.specs.Seen.{entry_seen};
    ghost use Rattle.long_text.specs.Longs.{long_of};
    ghost use Rattle.long_text.specs.Seen.{Fills};
    ghost use Rattle.session_model.specs.Clients.{summary_of};
    ghost use Rattle.session_record.specs.Lawful.{IsLawfulClient};

    /// Which side of the conversation it is.
    pub fn side(&self) -> Side
        ensures { result ≡ self.now.state.side }
    {
        let part = self.session.part();
        part.head.side
    }

    /// The name of the conversation's session.
    pub fn session(&self) -> &[u8; 16]
        ensures { result.now ≡ self.now.state.session }
    {
        let part = self.session.part();
        &part.head.session
    }

    /// The text of the inbox at a place, from 0, the oldest first.
    pub fn inbox(&self, at: usize) -> Option<Entry<'_>>
        ensures variant { IsSome result ↔ (at < length self.now.inbox) }
        ensures entry { option_map entry_seen result ≡ slice_get self.now.inbox at }
        ensures fits { IfSome result (λ entry. length entry.text.now ≤ TEXT_LIMIT) }
    {
        self.inbox.at(at)
    }

    /// Joins the parts of a long text that stand in the inbox, as `long_text::long` does.
    pub fn long(&self, id: u32, into: &mut [u8; LONG_LIMIT]) -> Result<usize, LongRefusal>
        ensures { Fills into.old into.new result (long_of id self.now.inbox) }
    {
        long(&self.inbox, id, into)
    }

    /// The packet of the outbox at a place, from 0, the oldest first.
    pub fn outbox(&self, at: usize) -> Option<(Position, &[u8])>
        ensures variant { IsSome result ↔ (at < length self.now.outbox) }
        ensures packet { option_map (λ pair. post_under pair.0 pair.1.now) result
            ≡ slice_get self.now.outbox at }
        ensures fits { IfSome result (λ pair. length pair.1.now ≤ PACKET_LIMIT) }
        ensures some { IfSome result (λ pair. 1 ≤ length pair.1.now) }
    {
        self.outbox.at(at)
    }

    /// How many own texts wait for a receipt.
    pub fn waiting(&self) -> u32
        ensures { result ≡ length self.now.state.awaiting }
    {
        let part = self.session.part();
        part.head.awaiting.positions().len() as u32
    }

    /// Where the own text stands that waits for a receipt at a place, from 0, the oldest first.
    pub fn awaiting(&self, at: usize) -> Option<Position>
        ensures { result ≡ slice_get self.now.state.awaiting at }
    {
        let part = self.session.part();
        part.head.awaiting.positions().get(at).copied()
    }

    /// Where its latest own text, or part of a long one, stands; none exactly where it never said
    /// anything.
    pub fn last_said(&self) -> Option<Position>
        ensures { result ≡ last_said self.now.state }
    {
        let part = self.session.part();
        match &part.head.phase {
            Phase::Own(own) => last_of(part.head.epoch, own.sent),
            Phase::Peers(_) if part.head.epoch == 0 => None,
            Phase::Peers(_) => last_of(part.head.epoch - 1, part.head.previous),
        }
    }

    /// The keys of its session's boxes at a relay: the owner's and the poster's of box 1, then those
    /// of box 2. None where the session was begun before there were any.
    pub fn relay_keys(&self) -> Option<RelayKeys>
        ensures { result ≡ self.now.relay }
    {
        match &self.keys {
            Some(keys) => Some(keys.copied()),
            None => None,
        }
    }

    /// What the core keeps is lawful, so its record is read as just that, and no packet of the
    /// outbox is longer than one may be. It has no code: a caller that needs this calls it.
    pub fn lawful(&self)
        ensures kept { IsLawfulClient K.mechanism self.now }
        ensures packets { All (λ item. length item.packet ≤ PACKET_LIMIT) self.now.outbox }
    {
        let _count = self.outbox.len();
    }

    /// What the core holds, in numbers.
    pub fn state(&self) -> Summary
        ensures { result ≡ summary_of self.now }
    {
        let part = self.session.part();
        Summary {
            epoch: part.head.epoch,
            missing: part.kept.len() as u32,
            inbox: self.inbox.len(),
            outbox: self.outbox.len(),
        }
    }
}
