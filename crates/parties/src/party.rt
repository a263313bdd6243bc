//! One side: a client, and the disk that it is kept on.

ghost use Rattle.std.specs.Prelude.{◌≡◌, ◌≤◌, ◌↔◌, ◌<◌, ◌-◌, length, None, Some, IfOk, IfSome, IsNone, IsSome, IsErrOf, option_map, slice_get};
ghost use Rattle.boxes.specs.Seen.{entry_seen};
ghost use Rattle.session_model.specs.Clients.{say_check, summary_of};
ghost use Rattle.long_text.specs.Longs.{long_of};
ghost use Rattle.long_text.specs.Seen.{Fills};
ghost use Rattle.scripts.specs.Seen.{content_said};
ghost use Rattle.dr_model.specs.Machines.Acts.{act_on, standing_with};
ghost use Rattle.dr_model.specs.Machines.Steps.{settled, step};
ghost use Rattle.session_model.specs.Schedule.{agreement_seed};
ghost use Rattle.parties.specs.Acts.{IsChecked, act_of_call};
ghost use Rattle.parties.specs.Parties.{IsFirstRefusal};
ghost use Rattle.parties.specs.Shuts.{open_party};
ghost use Rattle.client.specs.Beginning.{HasPair, begun_client};
ghost use Rattle.client.specs.Syncing.Lines.{own_box, peers_box};
ghost use Rattle.client.specs.declared.refusals.BeginRefusal.TheVariants.{NoPair as NoFirstPair};

use crate::acts::{ClientCall, Ended, perform};
use crate::parts::part_check;
use crate::post::Post;
use boxes::{Entry, TEXT_KIND};
use client::{AREA_SIZE, Begin, BeginRefusal, Client, Names};
use dr_base::{Position, TEXT_LIMIT};
use dr_disk::{Call, MemoryDisk};
use kem_laws::Kem;
use long_text::{LONG_LIMIT, LongRefusal};
use scripts::Said;
use session_model::{Answer, Items, Refusal, Summary};
use std::alloc::Global;
use std::marker::Model;

/// The size of a side's disk, in bytes: the area of a client.
const DISK_SIZE: u64 = AREA_SIZE;

/// A side of a conversation: a client on a disk in memory whose calls all pass. It is open, or was
/// closed by a call that failed. A contract sees what the client keeps, and what that call left.
#[derive(Drop)]
pub struct Party<K: Kem> {
    pub(crate) client: Client<K>,
    pub(crate) disk: MemoryDisk,
    /// The kind of the call that closed the client.
    pub(crate) shut: Option<Call>,
}

impl<K: Kem> Model for Party<K> {
    ghost use Rattle.parties.specs.Parties.{IsParty, shut_by};
    ghost use Rattle.parties.specs.Shuts.{PartyNow};

    ghost Value = { PartyNow };

    ghost view = { λ p. record {
      kept = p.client.kept;
      shut = shut_by K.mechanism p.client.kept p.disk p.shut;
    } };

    ghost invariant = { λ p. IsParty K.mechanism p.client p.disk p.shut };
}

/// Why a side couldn't begin.
#[derive(Clone, Copy)]
pub enum BeginError {
    /// There was no memory for the client or its disk.
    Memory,
    /// The agreement seed that follows from the shared key has no pair.
    NoPair,
}

/// Why no client is begun on a new disk.
fn begin_error(refusal: BeginRefusal) -> BeginError
    requires { IsFirstRefusal refusal }
    ensures { result ≡ BeginError.NoPair → refusal ≡ NoFirstPair }
{
    match refusal {
        BeginRefusal::Memory => BeginError::Memory,
        BeginRefusal::NoPair => BeginError::NoPair,
        _ => unreachable!(),
    }
}

impl<K: Kem> Party<K> {
    /// A side at the beginning of a conversation, on a disk of its own. It takes all its memory
    /// here.
    pub fn begin(alloc: Global, begin: &Begin) -> Result<Self, BeginError>
        ensures ok { let kept = begun_client K.mechanism begin.now in
            IfOk result (λ p. p ≡ open_party kept) }
        ensures pair { IfOk result (λ _. HasPair K.mechanism begin.now) }
        ensures none { IsErrOf result BeginError.NoPair
            → IsNone (K.mechanism.meaning.pair_of (agreement_seed begin.now.key.bytes)) }
    {
        let Ok(mut disk) = MemoryDisk::new(alloc, DISK_SIZE) else {
            return Err(BeginError::Memory);
        };
        match Client::begin(alloc, &mut disk, begin.side, begin.format, &begin.key) {
            Ok(client) => Ok(Party {
                client,
                disk,
                shut: None,
            }),
            Err(refusal) => Err(begin_error(refusal)),
        }
    }

    /// The names of its boxes at a relay.
    pub fn names(&self) -> Names
        ensures own { result.own ≡ own_box self.now.kept }
        ensures peers { result.peers ≡ peers_box self.now.kept }
    {
        self.client.names()
    }

    /// How many of these items stand in their box.
    pub fn standing(&self, items: Items) -> u32
        ensures { result ≡ standing_with self.now.kept items }
    {
        self.client.standing(items)
    }

    /// The text at a place, from 0, the oldest first.
    pub fn inbox_at(&self, at: usize) -> Option<Entry<'_>>
        ensures variant { IsSome result ↔ (at < length self.now.kept.inbox) }
        ensures entry { option_map entry_seen result ≡ slice_get self.now.kept.inbox at }
        ensures fits { IfSome result (λ entry. length entry.text.now ≤ TEXT_LIMIT) }
    {
        self.client.inbox(at)
    }

    /// How many of its own texts wait for a receipt.
    pub fn waiting(&self) -> u32
        ensures { result ≡ length self.now.kept.state.awaiting }
    {
        self.client.waiting()
    }

    /// Where the own text stands that waits at a place, from 0, the oldest first.
    pub fn awaiting_at(&self, at: usize) -> Option<Position>
        ensures { result ≡ slice_get self.now.kept.state.awaiting at }
    {
        self.client.awaiting(at)
    }

    /// The packet that was put into the outbox last.
    pub fn newest(&self) -> Post
        requires { 0 < length self.now.kept.outbox }
        ensures { slice_get self.now.kept.outbox (length self.now.kept.outbox - 1) ≡ Some result }
    {
        let last = self.client.state().outbox as usize - 1;
        match self.client.outbox(last) {
            Some((position, packet)) => Post::new(position, packet),
            None => unreachable!(),
        }
    }

    /// What the side holds, in numbers.
    pub fn summary(&self) -> Summary
        ensures { result ≡ summary_of self.now.kept }
    {
        self.client.state()
    }

    /// Whether a text or a part of a long one may be said, and then whether that needs a seed.
    pub fn say_check(&self, said: Said<'_>) -> Result<bool, Refusal>
        ensures { result ≡ say_check self.now.kept (content_said said.entry) }
    {
        match said {
            Said::Text(text) => self.client.say_check(TEXT_KIND, text),
            Said::Part(part) => part_check(&self.client, &part.part()),
        }
    }

    /// Joins the parts of the long text of an id that stand in its inbox, as its client does.
    pub fn long(&self, id: u32, into: &mut [u8; LONG_LIMIT]) -> Result<usize, LongRefusal>
        ensures { Fills into.old into.new result (long_of id self.now.kept.inbox) }
    {
        self.client.long(id, into)
    }

    /// The kind of the call that closed its client, if it is closed.
    #[tactic(auto, using(crate::proofs::Closed::call_left))]
    pub fn closed_by(&self) -> Option<Call>
        ensures { result ≡ option_map (λ shut. shut.call) self.now.shut }
    {
        self.shut
    }

    /// Does an act on its client, which is open. A refusal leaves all as it was.
    pub fn act(&mut self, call: ClientCall<'_>) -> Answer
        requires open { self.old.shut ≡ None }
        requires checked { IsChecked self.old.kept (act_of_call call) }
        ensures made { let act = act_of_call call.entry in step result self.new.kept
            ≡ settled self.old.kept (act_on K.mechanism self.old.kept act) }
        ensures open { self.new.shut ≡ None }
    {
        match perform(&mut self.client, &mut self.disk, call) {
            Ended::Acknowledged(answer) => answer,
            Ended::Refused(refusal) => Answer::Refused(refusal),
            Ended::Faulted(_) => unreachable!(),
        }
    }
}
