//! The command that syncs with a relay.

ghost use Rattle.std.specs.Prelude.{◌≡◌, ◌≢◌, ◌≤◌, ℕ, List, Err, Ok, IfErr};
ghost use Rattle.dr_disk.specs.Spans.{IsQuiet};
ghost use Rattle.dr_ports.specs.States.{SinkState};
ghost use Rattle.dr_ports.specs.declared.pipe.Part.{Part};
ghost use Rattle.sync_model.specs.declared.more.More.{More};
ghost use Rattle.endings.specs.Ends.{Ends};
ghost use Rattle.session_commands.specs.Disks.{HasClientRoom};
ghost use Rattle.command_lines.specs.Runs.{RunsAndCounts};
ghost use Rattle.session_commands.specs.Syncing.{HasPrintedPlace, HasWritten, RunsSync, ending_of_fault, ending_of_sync};

use crate::endings_of::unopened;
use client::{Client, SyncFault, SyncRefusal};
use dr_disk::Disk;
use dr_ports::{Failed, Link, Sink};
use endings::{Ending, Status, UNWRITTEN, finish};
use kem_laws::Kem;
use session_model::Refusal;
use std::alloc::Global;
use sync_model::More;

/// How the command ends where a sync broke off.
fn broken_off(fault: SyncFault) -> Ending
    requires { HasPrintedPlace fault }
    ensures { result ≡ ending_of_fault fault }
{
    match fault {
        SyncFault::Closed { .. } => Ending::DiskFault,
        SyncFault::Link => Ending::LinkFault,
        SyncFault::Peer { at, kind } => Ending::Peer {
            kind,
            at: at as u32,
        },
        SyncFault::Refused(SyncRefusal::InboxFull) => Ending::Refused(Refusal::InboxFull),
        SyncFault::Refused(SyncRefusal::BoxFull) => Ending::BoxFull,
        SyncFault::Refused(SyncRefusal::Unknown) => Ending::NoBox,
        SyncFault::Refused(SyncRefusal::Denied { rule }) => Ending::Denied(u32::from(rule)),
        SyncFault::Store { .. } => Ending::DiskFault,
        SyncFault::Write => Ending::Done,
    }
}

/// Writes the last line after those of a sync that broke off, if no write failed in it.
fn close_broken<O: Sink>(out: &mut O, fault: SyncFault) -> Status
    requires { HasPrintedPlace fault }
    ensures ends { (lines : List ℕ) (old : SinkState)
        → HasWritten lines old (O.at out.old) (Err fault)
        → Ends (ending_of_fault fault) lines old (O.at out.new) result.code }
    ensures fails { result.code ≢ 0 }
    ensures later { (O.at out.old).faults ≤ (O.at out.new).faults }
{
    match fault {
        SyncFault::Write => UNWRITTEN,
        _ => finish(out, broken_off(fault)),
    }
}

/// Writes the last line after those of a sync.
fn close<O: Sink>(out: &mut O, synced: Result<More, SyncFault>) -> Status
    requires { IfErr synced HasPrintedPlace }
    ensures ends { (lines : List ℕ) (old : SinkState) → HasWritten lines old (O.at out.old) synced
        → Ends (ending_of_sync synced) lines old (O.at out.new) result.code }
    ensures done { result.code ≡ 0 → (more : More) × (synced ≡ Ok more) }
    ensures quiet { result.code ≡ 0 → (O.at out.new).faults ≡ (O.at out.old).faults }
    ensures later { (O.at out.old).faults ≤ (O.at out.new).faults }
{
    match synced {
        Ok(_) => finish(out, Ending::Done),
        Err(fault) => close_broken(out, fault),
    }
}

/// Opens the client, connects the link to the address, syncs over it and ends the connection: the
/// lines of the sync are written. Where no client was opened the link is left alone.
#[inline(never)]
pub fn sync<K: Kem, D: Disk, L: Link, O: Sink>(
    alloc: Global,
    address: &str,
    disk: &mut D,
    link: &mut L,
    out: &mut O,
) -> Status
    requires { HasClientRoom (D.state disk.old) }
    ensures { RunsAndCounts
        (RunsSync D.state L.port K.mechanism address.now disk.old disk.new link.old link.new
        (O.at out.old).faults (O.at out.new).faults)
        (IsQuiet (D.state disk.old) (D.state disk.new)
        × ((part : Part) → (L.port link.new).faults part ≡ (L.port link.old).faults part))
        (O.at out.old) (O.at out.new) result.code }
{
    match Client::<K>::open(alloc, disk) {
        Err(refusal) => finish(out, unopened(refusal)),
        Ok(mut client) => match link.open(address) {
            Err(Failed) => finish(out, Ending::LinkFault),
            Ok(()) => {
                let synced = client.sync(disk, link, out, "");
                link.shut();
                close(out, synced)
            }
        },
    }
}
