//! The second part of a sync: the packets of the outbox are posted to the peer's box.

ghost use Rattle.std.specs.Prelude.{IsTrue, List, OnOk, Option, Some, length, slice_get, ℕ, ◌*◌, ◌+◌, ◌<◌, ◌↔◌, ◌≡◌, ◌≤◌};
ghost use Rattle.relay_pipe.specs.Asking.{LeavesLink};
ghost use Rattle.relay_wire.specs.Replies.{stored};
ghost use Rattle.relay_wire.specs.Requests.{bare_request, posts};
ghost use Rattle.sync_model.specs.Moves.{move, posting, waits_by};
ghost use Rattle.sync_model.specs.declared.more.More.{More};
ghost use Rattle.sync_model.specs.Tokens.{SyncKeys};
ghost use Rattle.client.specs.Clients.{ClientNow, IsOpenOn};
ghost use Rattle.client.specs.Syncing.InOrder.{InOrder, Posts, spot};
ghost use Rattle.client.specs.Syncing.Moments.{moment};
ghost use Rattle.client.specs.Syncing.Parties.{party_at, party_of, waiting};
ghost use Rattle.client.specs.Syncing.Rounds.{IsRound, MovesTo, repeats_left, round_turn};

use super::faults::{SyncFault, SyncRefusal, WRONG};
use super::keys::Boxes;
use super::lines::write_stored;
use super::steps::{ask_for, oldest};
use super::tokens::Tokens;
use crate::client::Client;
use dr_disk::Disk;
use dr_ports::{Failed, Pipe, Sink};
use kem_laws::Kem;
use relay_wire::{Reply, Request};

impl<K: Kem> Client<K> {
    /// Whether a packet waits in the outbox.
    fn waits(&self) -> bool
        ensures { IsTrue result ↔ (0 < length self.now.kept.outbox) }
    {
        self.core.state().outbox > 0
    }

    /// Drops the oldest packet, which the relay keeps under a number.
    fn delivered<D: Disk, O: Sink>(
        &mut self,
        disk: &mut D,
        out: &mut O,
        prefix: &str,
        number: u64,
    ) -> Result<(), SyncFault>
        requires some { 0 < length self.old.kept.outbox }
        requires open { IsOpenOn self.old (D.state disk.old) }
        ensures turns { (own peers : List ℕ) (keys : Option SyncKeys) (more : More) →
            MovesTo (move (party_of K.mechanism prefix.now own peers keys) self.old.kept
            (posting more) (stored number))
            (moment self.old (D.state disk.old) (O.at out.old))
            (moment self.new (D.state disk.new) (O.at out.new))
            (round_turn (waits_by (waiting self.new.kept) more) result) }
        ensures fewer { OnOk result (length self.new.kept.outbox < length self.old.kept.outbox) }
        ensures later { (O.at out.old).faults ≤ (O.at out.new).faults }
    {
        match self.drop_oldest(disk) {
            Err(call) => Err(SyncFault::Store { call }),
            Ok(()) => match write_stored(out, prefix, number) {
                Err(Failed) => Err(SyncFault::Write),
                Ok(()) => Ok(()),
            },
        }
    }

    /// Posts the oldest packet to the peer's box, and drops it once the relay keeps it. Where it is
    /// to be posted once more, it still waits.
    fn post<D: Disk, L: Pipe, O: Sink>(
        &mut self,
        disk: &mut D,
        link: &mut L,
        out: &mut O,
        prefix: &str,
        boxes: &Boxes,
        tokens: &mut Tokens,
    ) -> Result<(), SyncFault>
        requires some { 0 < length self.old.kept.outbox }
        requires open { IsOpenOn self.old (D.state disk.old) }
        ensures round { (more : More) (packet : List ℕ)
            → Some packet ≡ slice_get (waiting self.old.kept) 0
            → IsRound (party_at K.mechanism prefix.now boxes.now)
            (posting more) (bare_request boxes.now.names.peers (posts packet))
            tokens.old tokens.new
            (moment self.old (D.state disk.old) (O.at out.old))
            (moment self.new (D.state disk.new) (O.at out.new))
            (L.port link.old) (L.port link.new)
            (round_turn (waits_by (waiting self.new.kept) more) result) }
        ensures fewer { OnOk result (2 * length self.new.kept.outbox + repeats_left tokens.new
            < 2 * length self.old.kept.outbox + repeats_left tokens.old) }
        ensures later { (O.at out.old).faults ≤ (O.at out.new).faults }
        ensures link { LeavesLink L.port L.behind link.old link.new }
    {
        self.may_post();
        let request = Request::post(boxes.names.peers.lent(), oldest(&self.core));
        match ask_for(link, &mut self.reader, &boxes.keys, tokens, request) {
            Err(fault) => Err(fault),
            Ok(None) => Ok(()),
            Ok(Some(reply)) => match reply {
                Reply::Stored(number) => self.delivered(disk, out, prefix, number),
                Reply::BoxFull => Err(SyncFault::Refused(SyncRefusal::BoxFull)),
                Reply::Unknown => Err(SyncFault::Refused(SyncRefusal::Unknown)),
                Reply::Denied(denied) => Err(SyncFault::Refused(SyncRefusal::Denied {
                    rule: denied.rule,
                })),
                _ => Err(WRONG),
            },
        }
    }

    /// Posts all packets of the outbox, the oldest first.
    pub(crate) fn post_all<D: Disk, L: Pipe, O: Sink>(
        &mut self,
        disk: &mut D,
        link: &mut L,
        out: &mut O,
        prefix: &str,
        boxes: &Boxes,
        tokens: &mut Tokens,
    ) -> Result<(), SyncFault>
        requires { IsOpenOn self.old (D.state disk.old) }
        // From a sync so far, which began at an earlier moment.
        ensures posts { (more : More) (first : ClientNow) (before : D) (earlier : L) (empty : O) →
            InOrder D.state L.port O.at (party_at K.mechanism prefix.now boxes.now)
            (spot first before earlier empty) (spot self.old disk.old link.old out.old)
            (waits_by (waiting self.old.kept) more) tokens.old
            → Posts D.state L.port O.at (party_at K.mechanism prefix.now boxes.now) more
            (spot first before earlier empty) (spot self.new disk.new link.new out.new)
            tokens.new result }
        ensures later { (O.at out.old).faults ≤ (O.at out.new).faults }
        ensures link { LeavesLink L.port L.behind link.old link.new }
    {
        'packets: while self.waits() {
            match self.post(disk, link, out, prefix, boxes, tokens) {
                Err(fault) => return Err(fault),
                Ok(()) => {}
            }
        }
        Ok(())
    }
}
