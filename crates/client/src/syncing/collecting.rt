//! The first part of a sync: the packets of the own box are taken.

ghost use Rattle.std.specs.Prelude.{◌≡◌, ◌+◌, ◌≤◌, ℕ, List, option_map};
ghost use Rattle.relay_pipe.specs.Asking.{LeavesLink};
ghost use Rattle.relay_wire.specs.Requests.{acks, bare_request};
ghost use Rattle.relay_wire.specs.Seen.{replied_of};
ghost use Rattle.session_model.specs.Clients.{Client as Kept};
ghost use Rattle.sync_model.specs.Moves.{acking, acknowledged, move};
ghost use Rattle.sync_model.specs.Parties.{Party};
ghost use Rattle.sync_model.specs.Tokens.{first_tokens};
ghost use Rattle.client.specs.Clients.{ClientNow, IsOpenOn};
ghost use Rattle.client.specs.Syncing.InOrder.{Collects, InOrder, Leaves, spot};
ghost use Rattle.client.specs.Syncing.Keys.{keys_seen};
ghost use Rattle.client.specs.Syncing.Parties.{party_at, waiting};
ghost use Rattle.client.specs.Syncing.Rounds.{AcksOnce, Hears, Idles, acked_as, heard_as, round_turn};
ghost use Rattle.client.specs.Syncing.SoFar.{collecting};

use super::faults::{SyncFault, SyncRefusal, WRONG};
use super::keys::Boxes;
use super::steps::{Acked, ask_for};
use super::tokens::Tokens;
use crate::client::Client;
use dr_disk::Disk;
use dr_ports::{Pipe, Sink};
use kem_laws::Kem;
use ratchet::OpeningRoom;
use relay_wire::{Reply, Request};
use sync_model::{ITEM_LIMIT, More};

/// What an acknowledgement is answered with. That the packet is absent counts as that it was
/// dropped.
fn acknowledged(reply: Reply<'_>, number: u64) -> Result<(), SyncFault>
    ensures { (p : Party Kept) (kept : Kept) (n : ℕ) →
        Idles p kept (move p kept (acking n number) (replied_of reply.entry))
        (round_turn (acknowledged p kept n).wait result) }
{
    match reply {
        Reply::Acked => Ok(()),
        Reply::Absent(other) => { if other == number { Ok(()) } else { Err(WRONG) } }
        Reply::Unknown => Err(SyncFault::Refused(SyncRefusal::Unknown)),
        Reply::Denied(denied) => Err(SyncFault::Refused(SyncRefusal::Denied { rule: denied.rule })),
        _ => Err(WRONG),
    }
}

impl<K: Kem> Client<K> {
    /// Asks that a packet is dropped that was taken.
    fn acknowledge<L: Pipe>(
        &mut self,
        link: &mut L,
        boxes: &Boxes,
        tokens: &mut Tokens,
        number: u64,
    ) -> Result<Acked, SyncFault>
        ensures round { (p : Party Kept) (kept : Kept) (n : ℕ) →
            Hears (option_map keys_seen boxes.now.keys) tokens.old tokens.new
            (bare_request boxes.now.names.own (acks number)) (L.port link.old) (L.port link.new)
            (λ reply again turn. Idles p kept (heard_as p kept (acking n number) reply again) turn)
            (Unit {0}) (acked_as (acknowledged p kept n).wait n number result) }
        ensures once { AcksOnce tokens.old tokens.new result }
        ensures same { self.new ≡ self.old }
        ensures link { LeavesLink L.port L.behind link.old link.new }
    {
        let request = Request::ack(boxes.names.own.lent(), number);
        match ask_for(link, &mut self.reader, &boxes.keys, tokens, request) {
            Err(fault) => return Err(fault),
            Ok(None) => return Ok(Acked::Again),
            Ok(Some(reply)) => match acknowledged(reply, number) {
                Err(fault) => return Err(fault),
                Ok(()) => return Ok(Acked::Done),
            },
        }
    }

    /// Acknowledges a packet that was taken, until that isn't to be made once more.
    fn acknowledge_through<D: Disk, L: Pipe, O: Sink>(
        &mut self,
        link: &mut L,
        boxes: &Boxes,
        tokens: &mut Tokens,
        number: u64,
    ) -> Result<(), SyncFault>
        // On a disk and with a sink that it leaves alone.
        ensures goes { (prefix : List ℕ) (n : ℕ) (first : ClientNow) (before disk : D)
            (earlier : L) (empty out : O) →
            InOrder D.state L.port O.at (party_at K.mechanism prefix boxes.now)
            (spot first before earlier empty) (spot self.old disk link.old out)
            (acking n number) tokens.old
            → Leaves D.state L.port O.at (party_at K.mechanism prefix boxes.now) tokens.new
            (spot first before earlier empty) (spot self.new disk link.new out)
            (round_turn (collecting (waiting self.new.kept) (n + 1)) result) }
        ensures same { self.new ≡ self.old }
        ensures link { LeavesLink L.port L.behind link.old link.new }
    {
        'again: loop {
            match self.acknowledge(link, boxes, tokens, number) {
                Err(fault) => return Err(fault),
                Ok(Acked::Done) => return Ok(()),
                Ok(Acked::Again) => {}
            }
        }
    }

    /// Takes the packets of the own box, as many as one sync acknowledges.
    pub(crate) fn collect_all<D: Disk, L: Pipe, O: Sink>(
        &mut self,
        disk: &mut D,
        link: &mut L,
        out: &mut O,
        prefix: &str,
        boxes: &Boxes,
        tokens: &mut Tokens,
    ) -> Result<More, SyncFault>
        requires open { IsOpenOn self.old (D.state disk.old) }
        requires first { tokens.old ≡ first_tokens }
        ensures collects { Collects D.state L.port O.at
            (party_at K.mechanism prefix.now boxes.now)
            (spot self.old disk.old link.old out.old) (spot self.new disk.new link.new out.new)
            tokens.new result }
        ensures later { (O.at out.old).faults ≤ (O.at out.new).faults }
        ensures link { LeavesLink L.port L.behind link.old link.new }
    {
        let mut room = OpeningRoom::new();
        let mut count = 0;
        'items: while count < ITEM_LIMIT {
            match self.fetch_through(disk, link, out, prefix, boxes, tokens, &mut room) {
                Err(fault) => return Err(fault),
                Ok(None) => return Ok(More::End),
                Ok(Some(number)) => {
                    match self.acknowledge_through::<D, L, O>(link, boxes, tokens, number) {
                        Err(fault) => return Err(fault),
                        Ok(()) => count += 1,
                    }
                }
            }
        }
        Ok(More::More)
    }
}
