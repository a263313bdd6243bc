//! The client, and what it shows.

ghost use Rattle.std.specs.Prelude.{◌≡◌, ◌↔◌, ◌<◌, ◌≤◌, length, option_map, slice_get, IfSome, IsSome};
ghost use Rattle.dr_base.specs.declared.limits.TheConstants.{PACKET_LIMIT, TEXT_LIMIT};
ghost use Rattle.dr_model.specs.Machines.Acts.{standing_with};
ghost use Rattle.client.specs.Limits.{HasLimits};

use crate::cores::Core;
use boxes::Entry;
use dr_base::{PAGE, Position, Side};
use dr_disk::Call;
use kem_laws::Kem;
use relay_wire::FrameReader;
use session_model::{Items, RelayKeys, Summary};
use slot_store::{Area, LOWER_PAGES, SlotStore};
use std::marker::Model;

/// How many pages the area of a client has, which begins at 0.
pub(crate) const AREA_PAGES: u32 = 384;

/// The most pages of a client's record.
pub(crate) const RECORD_PAGES: u32 = 190;

/// Where its upper pages begin: they follow the lower ones.
pub(crate) const AREA_UPPER: u64 = PAGE as u64 * LOWER_PAGES as u64;

/// The area, as a store is told.
pub(crate) const AREA: Area = Area {
    start: 0,
    upper: AREA_UPPER,
    pages: AREA_PAGES,
    most: RECORD_PAGES,
};

/// How many bytes the area has.
pub const AREA_SIZE: u64 = PAGE as u64 * AREA_PAGES as u64;

/// A side of a conversation on a disk, which each call is lent as the last one left it: its core,
/// and the store that keeps the core's record. A contract sees what it keeps, its store, and the
/// call on the disk that closed it. It takes all its memory when it is begun or opened.
#[derive(Drop)]
pub struct Client<K: Kem> {
    pub(crate) core: Core<K>,
    pub(crate) store: SlotStore,
    /// The room in which a record is put together. It is made long before one is.
    pub(crate) text: Vec<u8>,
    /// What has come of a relay's reply.
    pub(crate) reader: FrameReader,
    pub(crate) closed: Option<Call>,
}

impl<K: Kem> Model for Client<K> {
    ghost use Rattle.client.specs.Clients.{ClientNow, client_area};
    ghost use Rattle.slot_store.specs.Areas.{HasRecordMemory};

    ghost Value = { ClientNow };

    ghost view = { λ c. record { kept = c.core; store = c.store; closed = c.closed } };

    ghost invariant = { λ c. HasRecordMemory client_area c.text };
}

impl<K: Kem> Client<K> {
    ghost use Rattle.boxes.specs.Posts.{post_under};
    ghost use Rattle.boxes.specs.Seen.{entry_seen};
    ghost use Rattle.session_model.specs.Clients.{summary_of};
    ghost use Rattle.session_record.specs.Lawful.{IsLawfulClient};

    /// Which side of the conversation it is.
    pub fn side(&self) -> Side
        ensures { result ≡ self.now.kept.state.side }
    {
        self.core.side()
    }

    /// The name of the conversation's session.
    pub fn session(&self) -> &[u8; 16]
        ensures { result.now ≡ self.now.kept.state.session }
    {
        self.core.session()
    }

    /// The text of the inbox at a place, from 0, the oldest first.
    pub fn inbox(&self, at: usize) -> Option<Entry<'_>>
        ensures variant { IsSome result ↔ (at < length self.now.kept.inbox) }
        ensures entry { option_map entry_seen result ≡ slice_get self.now.kept.inbox at }
        ensures fits { IfSome result (λ entry. length entry.text.now ≤ TEXT_LIMIT) }
    {
        self.core.inbox(at)
    }

    /// The packet of the outbox at a place, from 0, the oldest first. No other call hands a packet
    /// out.
    pub fn outbox(&self, at: usize) -> Option<(Position, &[u8])>
        ensures variant { IsSome result ↔ (at < length self.now.kept.outbox) }
        ensures packet { option_map (λ pair. post_under pair.0 pair.1.now) result
            ≡ slice_get self.now.kept.outbox at }
        ensures fits { IfSome result (λ pair. length pair.1.now ≤ PACKET_LIMIT) }
        ensures some { IfSome result (λ pair. 1 ≤ length pair.1.now) }
    {
        self.core.outbox(at)
    }

    /// How many of these items stand in their box.
    pub fn standing(&self, items: Items) -> u32
        ensures { result ≡ standing_with self.now.kept items }
    {
        self.core.standing(items)
    }

    /// How many own texts wait for a receipt.
    pub fn waiting(&self) -> u32
        ensures { result ≡ length self.now.kept.state.awaiting }
    {
        self.core.waiting()
    }

    /// Where the own text stands that waits for a receipt at a place, from 0, the oldest first. A
    /// text that is awaited no more was opened by the other side, or is one of more than 64 that
    /// wait, where the oldest is given up.
    pub fn awaiting(&self, at: usize) -> Option<Position>
        ensures { result ≡ slice_get self.now.kept.state.awaiting at }
    {
        self.core.awaiting(at)
    }

    /// The keys of its session's boxes at a relay: the owner's and the poster's of box 1, then those
    /// of box 2. None exactly where the session was begun before there were any.
    pub fn relay_keys(&self) -> Option<RelayKeys>
        ensures { result ≡ self.now.kept.relay }
    {
        self.core.relay_keys()
    }

    /// What the client keeps is lawful, so its record is read as just that. It has no code: a
    /// caller that needs this calls it.
    pub fn lawful(&self)
        ensures { IsLawfulClient K.mechanism self.now.kept }
    {
        self.core.lawful();
    }

    /// What the client holds, in numbers.
    pub fn state(&self) -> Summary
        ensures { result ≡ summary_of self.now.kept }
    {
        self.core.state()
    }
}

/// The limits of this crate as numbers. The function has no code.
pub fn limits_in_numbers()
    ensures { HasLimits }
{}
