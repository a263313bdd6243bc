//! A fetch: the oldest packet of the own box is taken.

ghost use Rattle.std.specs.Prelude.{◌≡◌, ◌≤◌, ℕ, IfOk, List, Option};
ghost use Rattle.relay_pipe.specs.Asking.{LeavesLink};
ghost use Rattle.relay_wire.specs.Replies.{item};
ghost use Rattle.relay_wire.specs.Requests.{bare_request, fetches};
ghost use Rattle.sync_model.specs.Moves.{acking, fetching, move};
ghost use Rattle.sync_model.specs.Tokens.{SyncKeys};
ghost use Rattle.client.specs.Clients.{ClientNow, IsOpenOn};
ghost use Rattle.client.specs.Drafting.{DraftsFor, IsReceivedOf};
ghost use Rattle.client.specs.Syncing.InOrder.{InOrder, Leaves, spot};
ghost use Rattle.client.specs.Syncing.Moments.{moment};
ghost use Rattle.client.specs.Syncing.Parties.{party_at, party_of, waiting};
ghost use Rattle.client.specs.Syncing.Rounds.{FetchesOnce, IsRound, MovesTo, fetched_as, fetched_on, round_turn};

use super::faults::{SyncFault, SyncRefusal, WRONG};
use super::keys::Boxes;
use super::lines::answered;
use super::steps::{Fetched, ask_for};
use super::tokens::Tokens;
use crate::client::Client;
use dr_disk::Disk;
use dr_ports::{Pipe, Sink};
use kem_laws::Kem;
use ratchet::{OpeningRoom, ReceiveDraft};
use relay_wire::{Reply, Request};
use session_model::Refusal;

impl<K: Kem> Client<K> {
    /// Takes what was drafted for a packet that came under a number.
    // Inlined, so that the draft stays where it is.
    #[inline(always)]
    fn collect<D: Disk, O: Sink>(
        &mut self,
        disk: &mut D,
        out: &mut O,
        prefix: &str,
        number: u64,
        drafted: Result<ReceiveDraft<'_, K>, Refusal>,
    ) -> Result<(), SyncFault>
        requires drafted { IfOk drafted (IsReceivedOf K.mechanism self.old.kept) }
        requires open { IsOpenOn self.old (D.state disk.old) }
        ensures turns { (own peers : List ℕ) (keys : Option SyncKeys) (n : ℕ) (packet : List ℕ)
            → DraftsFor K.mechanism self.old.kept packet drafted.entry
            → MovesTo (move (party_of K.mechanism prefix.now own peers keys) self.old.kept
            (fetching n) (item number packet))
            (moment self.old (D.state disk.old) (O.at out.old))
            (moment self.new (D.state disk.new) (O.at out.new))
            (round_turn (acking n number) result) }
        ensures later { (O.at out.old).faults ≤ (O.at out.new).faults }
    {
        match self.take_packet(disk, drafted) {
            Err(call) => Err(SyncFault::Store { call }),
            Ok(answer) => answered(out, prefix, answer),
        }
    }

    /// Asks for the oldest packet of the own box, and takes it. It is drafted while it stands in the
    /// reader.
    fn fetch<D: Disk, L: Pipe, O: Sink>(
        &mut self,
        disk: &mut D,
        link: &mut L,
        out: &mut O,
        prefix: &str,
        boxes: &Boxes,
        tokens: &mut Tokens,
        room: &mut OpeningRoom,
    ) -> Result<Fetched, SyncFault>
        requires { IsOpenOn self.old (D.state disk.old) }
        ensures round { (n : ℕ)
            → IsRound (party_at K.mechanism prefix.now boxes.now)
            (fetching n) (bare_request boxes.now.names.own fetches) tokens.old tokens.new
            (moment self.old (D.state disk.old) (O.at out.old))
            (moment self.new (D.state disk.new) (O.at out.new))
            (L.port link.old) (L.port link.new) (fetched_as (waiting self.new.kept) n result) }
        ensures once { FetchesOnce tokens.old tokens.new result }
        ensures later { (O.at out.old).faults ≤ (O.at out.new).faults }
        ensures link { LeavesLink L.port L.behind link.old link.new }
    {
        let request = Request::fetch(boxes.names.own.lent());
        match ask_for(link, &mut self.reader, &boxes.keys, tokens, request) {
            Err(fault) => Err(fault),
            Ok(None) => Ok(Fetched::Again),
            Ok(Some(reply)) => match reply {
                Reply::Empty => Ok(Fetched::Empty),
                Reply::Item(number, packet) => {
                    let drafted = self.core.draft_take(packet.bytes(), room);
                    match self.collect(disk, out, prefix, number, drafted) {
                        Err(fault) => Err(fault),
                        Ok(()) => Ok(Fetched::Item(number)),
                    }
                }
                Reply::Unknown => Err(SyncFault::Refused(SyncRefusal::Unknown)),
                Reply::Denied(denied) => Err(SyncFault::Refused(SyncRefusal::Denied {
                    rule: denied.rule,
                })),
                _ => Err(WRONG),
            },
        }
    }

    /// Fetches the oldest packet of the own box, until that isn't to be made once more: its number,
    /// or nothing where the box is empty.
    pub(crate) fn fetch_through<D: Disk, L: Pipe, O: Sink>(
        &mut self,
        disk: &mut D,
        link: &mut L,
        out: &mut O,
        prefix: &str,
        boxes: &Boxes,
        tokens: &mut Tokens,
        room: &mut OpeningRoom,
    ) -> Result<Option<u64>, SyncFault>
        requires { IsOpenOn self.old (D.state disk.old) }
        ensures goes { (n : ℕ) (first : ClientNow) (before : D) (earlier : L) (empty : O) →
            InOrder D.state L.port O.at (party_at K.mechanism prefix.now boxes.now)
            (spot first before earlier empty) (spot self.old disk.old link.old out.old)
            (fetching n) tokens.old
            → Leaves D.state L.port O.at (party_at K.mechanism prefix.now boxes.now) tokens.new
            (spot first before earlier empty) (spot self.new disk.new link.new out.new)
            (fetched_on (waiting self.new.kept) n result) }
        ensures later { (O.at out.old).faults ≤ (O.at out.new).faults }
        ensures link { LeavesLink L.port L.behind link.old link.new }
    {
        'again: loop {
            match self.fetch(disk, link, out, prefix, boxes, tokens, room) {
                Err(fault) => return Err(fault),
                Ok(Fetched::Empty) => return Ok(None),
                Ok(Fetched::Item(number)) => return Ok(Some(number)),
                Ok(Fetched::Again) => {}
            }
        }
    }
}
