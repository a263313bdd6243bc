//! The work of a command on the session of the folder, and of those that need none.

ghost use Rattle.command_words.specs.Seen.{work_of};
ghost use Rattle.command_words.specs.declared.command.Where.TheVariants.{Folder};
ghost use Rattle.messenger_cli.specs.Counts.{HaveRoom, IsRun};
ghost use Rattle.messenger_cli.specs.Held.{ports_seen};
ghost use Rattle.messenger_cli.specs.Performing.{Performs};

use crate::fan_playing::play_fan;
use crate::making::play_made;
use crate::playing::play_script;
use crate::ports::Ports;
use book_commands::fan;
use command_lines::Listing;
use command_words::{Ask, Command};
use dr_disk::Disk;
use dr_ports::{Door, Draws, Link, Sink, Source};
use endings::{Ending, Status, finish};
use relay_command::relay;
use session_commands::{
    begin, check, drop_items, long, say, say_long, show, show_keys, sync, take,
};
use session_model::{Items, Which};
use sntrup761::Sntrup761;
use std::alloc::Global;

/// Does a command's work, and answers its status.
pub(crate) fn perform_in_folder<
    D: Disk,
    R: Disk,
    B: Disk,
    S: Source,
    O: Sink,
    L: Link,
    A: Door,
    W: Draws,
>(alloc: Global, command: &Command<'_>, ports: &mut Ports<D, R, B, S, O, L, A, W>) -> Status
    requires { HaveRoom (D.state ports.old.disk) (R.state ports.old.relay_disk)
        (B.state ports.old.book) }
    ensures { IsRun (Performs Folder (work_of command.now).ask (work_of command.now).values)
        (ports_seen D.state R.state B.state S.at O.at L.port A.port W.at)
        ports.old ports.new result.code }
{
    let Ports {
        disk,
        relay_disk,
        book,
        source,
        sink,
        link,
        door,
        draws,
    } = ports;
    match command.ask {
        Ask::Begin(side, format) => begin::<Sntrup761, D, S, O>(
            alloc, side, format, disk, source, sink,
        ),
        Ask::Say => say::<Sntrup761, D, O, W>(
            alloc,
            command.value(0).as_bytes(),
            disk,
            sink,
            draws,
        ),
        Ask::Take => take::<Sntrup761, D, S, O>(alloc, disk, source, sink),
        Ask::Inbox => show::<Sntrup761, D, O>(alloc, Listing::Inbox, disk, sink),
        Ask::Done(n) => {
            drop_items::<Sntrup761, D, O>(alloc, Which::Oldest(Items::Texts, n), disk, sink)
        }
        Ask::Sent(n) => {
            drop_items::<Sntrup761, D, O>(alloc, Which::Oldest(Items::Packets, n), disk, sink)
        }
        Ask::Outbox => show::<Sntrup761, D, O>(alloc, Listing::Outbox, disk, sink),
        Ask::Awaiting => show::<Sntrup761, D, O>(alloc, Listing::Awaiting, disk, sink),
        Ask::RelayKeys => show_keys::<Sntrup761, D, O>(alloc, disk, sink),
        Ask::Long(id) => long::<Sntrup761, D, O>(alloc, id, disk, sink),
        Ask::DoneLong(id) => drop_items::<Sntrup761, D, O>(alloc, Which::OfId(id), disk, sink),
        Ask::SayLong { id, from } => say_long::<Sntrup761, D, S, O, W>(
            alloc, id, from, disk, source, sink, draws,
        ),
        Ask::Fan => {
            let text = command.value(0).as_bytes();
            fan::<Sntrup761, B, O, W>(alloc, text, command.values_after(), book, sink, draws)
        }
        Ask::State => show::<Sntrup761, D, O>(alloc, Listing::State, disk, sink),
        Ask::Check => check::<Sntrup761, D, O>(alloc, disk, sink),
        Ask::Duet => play_script(alloc, source, sink),
        Ask::Sync => sync::<Sntrup761, D, L, O>(alloc, command.value(0), disk, link, sink),
        Ask::Relay { port, count } => relay(
            alloc,
            port,
            count,
            command.values_behind(),
            relay_disk,
            door,
            sink,
        ),
        Ask::DuetMake { rounds, number } => play_made(alloc, rounds, number, sink),
        Ask::DuetFan { peers, calls } => play_fan(alloc, peers, calls, command.value(2), sink),
        // No words ask so here.
        Ask::Forget | Ask::List => finish(sink, Ending::Usage),
    }
}
