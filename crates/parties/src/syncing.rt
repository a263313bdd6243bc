//! A side syncs with a relay in memory, and the lines of that are written.

ghost use Rattle.std.specs.Prelude.{◌≡◌, ◌+◌, ◌≤◌, ◌++◌, codes, decimal, length, None, OnOk};
ghost use Rattle.dr_ports.specs.Writing.{Writes};
ghost use Rattle.dr_ports.specs.declared.output_line.TheConstants.{ROOM};
ghost use Rattle.relay_link.specs.Connections.{boxes_now, kept_before};
ghost use Rattle.sync_model.specs.Scenes.{scene};
ghost use Rattle.client.specs.Syncing.Parties.{client_party};
ghost use Rattle.parties.specs.SyncLines.{sync_lines, fault_text};
ghost use Rattle.parties.specs.Meetings.{Tells};
ghost use Rattle.scripts.specs.Sides.{side_text};

use crate::meeting::meet;
use crate::party::Party;
use client::{SyncFault, SyncRefusal};
use dr_base::Side;
use dr_ports::{Failed, OutputLine, ROOM, Sink, write_all};
use kem_laws::Kem;
use relay_link::RelayLink;
use scripts::{side_name, side_prefix};

/// Puts that a relay denied a request, by this rule.
fn put_denied(line: &mut OutputLine, rule: u8)
    requires { length line.old + 40 ≤ ROOM }
    ensures { line.new ≡ line.old ++ (codes "refused Denied " ++ decimal rule ++ codes "\n") }
{
    line.text(b"refused Denied ");
    line.number(u64::from(rule));
    line.text(b"\n");
}

/// Puts what is said of a sync that broke off.
fn put_fault(line: &mut OutputLine, fault: SyncFault)
    requires { length line.old + 40 ≤ ROOM }
    ensures { line.new ≡ line.old ++ fault_text fault }
{
    match fault {
        SyncFault::Refused(SyncRefusal::InboxFull) => line.text(b"refused InboxFull\n"),
        SyncFault::Refused(SyncRefusal::BoxFull) => line.text(b"refused BoxFull\n"),
        SyncFault::Refused(SyncRefusal::Unknown) => line.text(b"refused Unknown\n"),
        SyncFault::Refused(SyncRefusal::Denied { rule }) => put_denied(line, rule),
        SyncFault::Link => line.text(b"link fault\n"),
        _ => {}
    }
}

/// Writes why a sync of a side broke off, where it is no write that failed.
fn tell<O: Sink>(out: &mut O, side: Side, fault: SyncFault) -> Result<(), Failed>
    ensures { Tells side fault (O.at out.old) (O.at out.new) result }
{
    if matches!(fault, SyncFault::Write) {
        return Err(Failed);
    }
    let mut line = OutputLine::new();
    line.text(side_name(side));
    put_fault(&mut line, fault);
    match write_all(out, line.as_bytes()) {
        Err(Failed) => Err(Failed),
        Ok(()) => Ok(()),
    }
}

impl<K: Kem> Party<K> {
    /// Syncs with the relay over another connection, on which the reply to the request of this
    /// number, from 1, is lost.
    pub fn sync<O: Sink>(
        &mut self,
        relay: &mut RelayLink,
        out: &mut O,
        side: Side,
        lost: Option<u32>,
    ) -> Result<(), Failed>
        requires open { self.old.shut ≡ None }
        ensures writes { let p = client_party K.mechanism (side_text side) self.old.kept in
            Writes (O.at out.old) (O.at out.new)
            (sync_lines p side (scene p (kept_before lost) self.old.kept (boxes_now relay.old)))
            result }
        ensures keeps { let p = client_party K.mechanism (side_text side) self.old.kept in
            OnOk result (self.new.kept
            ≡ (scene p (kept_before lost) self.old.kept (boxes_now relay.old)).course.state) }
        ensures open { self.new.shut ≡ None }
        ensures boxes { let p = client_party K.mechanism (side_text side) self.old.kept in
            OnOk result (boxes_now relay.new
            ≡ (scene p (kept_before lost) self.old.kept (boxes_now relay.old)).boxes) }
    {
        match meet(
            &mut self.client,
            &mut self.disk,
            relay,
            out,
            side_prefix(side),
            lost,
        ) {
            Ok(_) => Ok(()),
            Err(fault) => tell(out, side, fault),
        }
    }
}
