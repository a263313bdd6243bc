//! A whole sync.

ghost use Rattle.std.specs.Prelude.{◌≡◌, ◌≤◌, None, Some, Err};
ghost use Rattle.dr_disk.specs.declared.call.Call.{Call};
ghost use Rattle.relay_pipe.specs.Asking.{LeavesLink};
ghost use Rattle.client.specs.Clients.{IsOpenOn, MayActOn};
ghost use Rattle.client.specs.Syncing.InOrder.{SyncsInOrder, spot};
ghost use Rattle.client.specs.Syncing.Moments.{moment};
ghost use Rattle.client.specs.Syncing.Parties.{client_party, party_at};
ghost use Rattle.client.specs.Syncing.Whole.{IsSyncOf};

use super::faults::SyncFault;
use super::keys::Boxes;
use super::lines::write_end;
use super::tokens::Tokens;
use crate::client::Client;
use crate::laws::grounds;
use dr_disk::Disk;
use dr_ports::{Failed, Pipe, Sink};
use kem_laws::Kem;
use sync_model::More;

impl<K: Kem> Client<K> {
    /// Syncs with a relay: takes the packets of its own box there, each of which is acknowledged,
    /// and then posts those of its outbox to the peer's box. Where its session has keys of its boxes,
    /// each request has a token; one that is denied for its counter is made once more. Each line
    /// stands after the prefix. It is a course of `sync_model`: of the replies that were read.
    /// `Closed` exactly where a call on the disk failed before. `Refused` where the inbox has no
    /// room, the peer's box is full, the relay has no such box or denies a request for good; `Peer`
    /// where the relay sent something else than a reply to the request. `Link`, `Store` and `Write`
    /// only where a call on the link, the disk or the sink failed; after `Store` the client is
    /// closed. What was done before stands.
    pub fn sync<D: Disk, L: Pipe, O: Sink>(
        &mut self,
        disk: &mut D,
        link: &mut L,
        out: &mut O,
        prefix: &str,
    ) -> Result<More, SyncFault>
        requires { MayActOn self.old (D.state disk.old) }
        // Closed exactly where a call on the disk failed before; then nothing is done.
        ensures closed { (call : Call) → self.old.closed ≡ Some call
            → (result ≡ Err (SyncFault.Closed call))
            × (self.new ≡ self.old) × (disk.new ≡ disk.old) × (link.new ≡ link.old)
            × (out.new ≡ out.old) }
        // Else exactly this, by how it ends, and what comes of the replies that were read.
        ensures syncs { self.old.closed ≡ None → IsSyncOf K.mechanism prefix.now
            (moment self.old (D.state disk.old) (O.at out.old))
            (moment self.new (D.state disk.new) (O.at out.new))
            (L.port link.old) (L.port link.new) result }
        // Reply by reply: the disk is at rest for each step before the next request is sent, and a
        // step makes just the calls on the disk that it takes.
        ensures in_order { self.old.closed ≡ None
            → SyncsInOrder D.state L.port O.at
            (client_party K.mechanism prefix.now self.old.kept)
            (spot self.old disk.old link.old out.old) (spot self.new disk.new link.new out.new)
            result }
        ensures later { (O.at out.old).faults ≤ (O.at out.new).faults }
        ensures link { LeavesLink L.port L.behind link.old link.new }
    {
        grounds::<K>();
        if let Some(call) = self.closed {
            return Err(SyncFault::Closed { call });
        }
        self.may_post();
        let boxes = self.boxes();
        self.sync_open(disk, link, out, prefix, &boxes)
    }

    fn sync_open<D: Disk, L: Pipe, O: Sink>(
        &mut self,
        disk: &mut D,
        link: &mut L,
        out: &mut O,
        prefix: &str,
        boxes: &Boxes,
    ) -> Result<More, SyncFault>
        requires { IsOpenOn self.old (D.state disk.old) }
        ensures exact { SyncsInOrder D.state L.port O.at
            (party_at K.mechanism prefix.now boxes.now)
            (spot self.old disk.old link.old out.old) (spot self.new disk.new link.new out.new)
            result }
        ensures later { (O.at out.old).faults ≤ (O.at out.new).faults }
        ensures link { LeavesLink L.port L.behind link.old link.new }
    {
        let mut tokens = Tokens::first();
        match self.collect_all(disk, link, out, prefix, boxes, &mut tokens) {
            Err(fault) => Err(fault),
            Ok(more) => match self.post_all(disk, link, out, prefix, boxes, &mut tokens) {
                Err(fault) => Err(fault),
                Ok(()) => match write_end(out, prefix, more) {
                    Err(Failed) => Err(SyncFault::Write),
                    Ok(()) => Ok(more),
                },
            },
        }
    }
}
