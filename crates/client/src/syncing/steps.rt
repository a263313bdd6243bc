//! What a sync has a client do, and what it asks of the relay.

ghost use Rattle.std.specs.Prelude.{◌≡◌, ◌<◌, ◌≤◌, Err, IfOk, None, OnOk, Option, Some, length, option_map, slice_get, true};
ghost use Rattle.std.specs.List.{AllByRecursion};
ghost use Rattle.dr_base.specs.declared.limits.TheConstants.{OUTBOX_LIMIT};
ghost use Rattle.dr_model.specs.Machines.Acts.{taken_by};
ghost use Rattle.dr_model.specs.Machines.Steps.{settled};
ghost use Rattle.dr_ports.specs.Wires.{Port};
ghost use Rattle.relay_core.specs.Boxes.{role_of};
ghost use Rattle.relay_pipe.specs.Asking.{Asks, FailsToAsk, LeavesLink};
ghost use Rattle.relay_wire.specs.Names.{is_packet};
ghost use Rattle.relay_wire.specs.Requests.{Asked};
ghost use Rattle.relay_wire.specs.Seen.{asked_of};
ghost use Rattle.session_model.specs.Clients.{accept_receive};
ghost use Rattle.sync_model.specs.Tokens.{SyncKeys, Tokens as SyncTokens, counter_under, tagged};
ghost use Rattle.client.specs.Clients.{IsOpenOn};
ghost use Rattle.client.specs.Drafting.{IsReceivedOf, taken_of};
ghost use Rattle.client.specs.Syncing.Keys.{keys_seen};
ghost use Rattle.client.specs.Syncing.Parties.{sent_step, waiting};
ghost use Rattle.client.specs.Syncing.Rounds.{GetsReply};
ghost use Rattle.client.specs.Syncing.Moments.{HasGone, IsTaken};

use super::faults::SyncFault;
use super::keys::{BoxKeys, role_of};
use super::tokens::Tokens;
use crate::client::Client;
use crate::cores::Core;
use crate::dropping::drop_exact;
use crate::refusals::{DropRefusal, TakeRefusal};
use crate::taking::take_drafted;
use dr_disk::{Call, Disk};
use dr_ports::Pipe;
use kem_laws::Kem;
use ratchet::ReceiveDraft;
use relay_guard::Token;
use relay_pipe::{AskFault, ask};
use relay_wire::{FrameReader, Packet, Reply, Request};
use session_model::{Answer, Items, Refusal, Which};

/// What a fetch came to.
pub(crate) enum Fetched {
    /// It is to be made once more.
    Again,
    /// The box is empty.
    Empty,
    /// The packet of this number was taken.
    Item(u64),
}

/// What an acknowledgement came to.
pub(crate) enum Acked {
    /// It is to be made once more.
    Again,
    /// The packet was dropped, or was absent.
    Done,
}

/// What ends a sync in place of a reply.
fn fault_of(fault: AskFault) -> SyncFault
    ensures { (keys : Option SyncKeys) (old new : SyncTokens) (asked : Asked) (start now : Port)
        → FailsToAsk (tagged keys old asked) start now fault
        → GetsReply keys old new asked start now (Err result) }
{
    match fault {
        AskFault::Pipe => SyncFault::Link,
        AskFault::Peer(fault) => SyncFault::Peer {
            at: fault.at,
            kind: fault.kind,
        },
    }
}

/// Sends a request, with its token where there are keys, and reads its reply.
fn ask_tagged<'a, L: Pipe>(
    link: &mut L,
    reader: &'a mut FrameReader,
    keys: &Option<BoxKeys>,
    counter: u64,
    request: Request<'_>,
) -> Result<Reply<'a>, AskFault>
    requires bare { (asked_of request).token ≡ None }
    ensures asks { (tokens : SyncTokens)
        → counter ≡ counter_under tokens (role_of (asked_of request.entry).ask)
        → Asks (tagged (option_map keys_seen keys.now) tokens (asked_of request.entry))
        (L.port link.old) (L.port link.new) result }
    ensures link { LeavesLink L.port L.behind link.old link.new }
{
    match keys {
        None => ask(link, reader, &request),
        Some(keys) => {
            let tag = keys.tag(counter, &request);
            let token = Token { counter, tag: &tag };
            ask(link, reader, &request.with_token(token))
        }
    }
}

/// Sends a request with its token, and reads its reply, which is lent from the reader. None where
/// the request is to be made once more.
pub(crate) fn ask_for<'a, L: Pipe>(
    link: &mut L,
    reader: &'a mut FrameReader,
    keys: &Option<BoxKeys>,
    tokens: &mut Tokens,
    request: Request<'_>,
) -> Result<Option<Reply<'a>>, SyncFault>
    requires bare { (asked_of request).token ≡ None }
    ensures answers { GetsReply (option_map keys_seen keys.now) tokens.old tokens.new
        (asked_of request.entry) (L.port link.old) (L.port link.new) result }
    ensures link { LeavesLink L.port L.behind link.old link.new }
{
    let role = role_of(&request.ask);
    let counter = tokens.counter(role);
    match ask_tagged(link, reader, keys, counter, request) {
        Err(fault) => Err(fault_of(fault)),
        Ok(reply) => {
            if tokens.reads(role, keys, &reply) {
                Ok(None)
            } else {
                Ok(Some(reply))
            }
        }
    }
}

/// The oldest packet that waits.
pub(crate) fn oldest<K: Kem>(core: &Core<K>) -> Packet<'_>
    requires some { 0 < length core.now.outbox }
    requires lawful { AllByRecursion (λ packet. is_packet packet ≡ true) (waiting core.now) }
    ensures { Some result.bytes ≡ slice_get (waiting core.now) 0 }
{
    match core.outbox(0) {
        None => unreachable!(),
        Some((_, bytes)) => Packet::new(bytes).unwrap(),
    }
}

impl<K: Kem> Client<K> {
    /// Each packet of the outbox may be posted. A caller that needs this calls it.
    pub fn may_post(&self)
        ensures packets { AllByRecursion (λ packet. is_packet packet ≡ true)
            (waiting self.now.kept) }
        ensures few { length self.now.kept.outbox ≤ OUTBOX_LIMIT }
    {
        self.core.lawful();
    }

    /// Takes what was drafted for a packet: the answer, or the call on the disk that failed.
    // Inlined, so that the draft stays where it is.
    #[inline(always)]
    pub(crate) fn take_packet<D: Disk>(
        &mut self,
        disk: &mut D,
        drafted: Result<ReceiveDraft<'_, K>, Refusal>,
    ) -> Result<Answer, Call>
        requires drafted { IfOk drafted (IsReceivedOf K.mechanism self.old.kept) }
        requires open { IsOpenOn self.old (D.state disk.old) }
        ensures { let taken = taken_of self.old.kept.state drafted.entry in
            IsTaken (settled self.old.kept (taken_by (accept_receive self.old.kept taken)))
            self.old self.new (D.state disk.old) (D.state disk.new) result }
    {
        match take_drafted::<K, Client<K>, D>(self, disk, drafted) {
            Ok(position) => Ok(Answer::Opened(position)),
            Err(TakeRefusal::Refused(refusal)) => Ok(Answer::Refused(refusal)),
            Err(TakeRefusal::StoreFault { call }) => Err(call),
            Err(TakeRefusal::Closed { .. }) => unreachable!(),
        }
    }

    /// Drops the oldest packet of the outbox, which was sent.
    pub(crate) fn drop_oldest<D: Disk>(&mut self, disk: &mut D) -> Result<(), Call>
        requires some { 0 < length self.old.kept.outbox }
        requires open { IsOpenOn self.old (D.state disk.old) }
        ensures gone { HasGone (sent_step K.mechanism self.old.kept) self.old self.new
            (D.state disk.old) (D.state disk.new) result }
        ensures fewer { OnOk result (length self.new.kept.outbox < length self.old.kept.outbox) }
    {
        match drop_exact::<K, Client<K>, D>(self, disk, Which::Oldest(Items::Packets, 1)) {
            Ok(()) => Ok(()),
            Err(DropRefusal::StoreFault { call }) => Err(call),
            Err(_) => unreachable!(),
        }
    }
}
