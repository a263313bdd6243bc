//! The work of a command on the book.

ghost use Rattle.command_words.specs.Seen.{work_of};
ghost use Rattle.command_words.specs.declared.command.Where.TheVariants.{Book};
ghost use Rattle.messenger_cli.specs.Counts.{HaveRoom, IsRun};
ghost use Rattle.messenger_cli.specs.Held.{ports_seen};
ghost use Rattle.messenger_cli.specs.Performing.{Performs};

use crate::ports::Ports;
use book_commands::{begin, drop_items, forget, list, say, show, take};
use command_lines::Listing;
use command_words::{Ask, Command};
use dr_disk::Disk;
use dr_ports::{Door, Draws, Link, Sink, Source};
use endings::{Ending, Status, finish};
use session_model::{Items, Which};
use sntrup761::Sntrup761;
use std::alloc::Global;

/// Does a command's work, and answers its status. The name of the session is the first value.
pub(crate) fn perform_in_book<
    D: Disk,
    R: Disk,
    B: Disk,
    S: Source,
    O: Sink,
    L: Link,
    A: Door,
    W: Draws,
>(alloc: Global, command: &Command<'_>, ports: &mut Ports<D, R, B, S, O, L, A, W>) -> Status
    requires { HaveRoom (D.state ports.old.disk) (R.state ports.old.relay_disk)
        (B.state ports.old.book) }
    ensures { IsRun (Performs Book (work_of command.now).ask (work_of command.now).values)
        (ports_seen D.state R.state B.state S.at O.at L.port A.port W.at)
        ports.old ports.new result.code }
{
    let Ports {
        disk: _,
        relay_disk: _,
        book,
        source,
        sink,
        link: _,
        door: _,
        draws,
    } = ports;
    let name = command.value(0);
    match command.ask {
        Ask::Begin(side, format) => begin::<Sntrup761, B, S, O>(
            alloc, name, side, format, book, source, sink,
        ),
        Ask::Say => {
            let text = command.value(1).as_bytes();
            say::<Sntrup761, B, O, W>(alloc, name, text, book, sink, draws)
        }
        Ask::Take => take::<Sntrup761, B, S, O>(alloc, name, book, source, sink),
        Ask::Inbox => show::<Sntrup761, B, O>(alloc, name, Listing::Inbox, book, sink),
        Ask::Done(n) => {
            drop_items::<Sntrup761, B, O>(alloc, name, Which::Oldest(Items::Texts, n), book, sink)
        }
        Ask::Sent(n) => {
            drop_items::<Sntrup761, B, O>(alloc, name, Which::Oldest(Items::Packets, n), book, sink)
        }
        Ask::Outbox => show::<Sntrup761, B, O>(alloc, name, Listing::Outbox, book, sink),
        Ask::Awaiting => show::<Sntrup761, B, O>(alloc, name, Listing::Awaiting, book, sink),
        Ask::State => show::<Sntrup761, B, O>(alloc, name, Listing::State, book, sink),
        Ask::Forget => forget::<Sntrup761, B, O>(alloc, name, book, sink),
        Ask::List => list::<Sntrup761, B, O>(alloc, book, sink),
        // No words ask so of a book.
        Ask::RelayKeys | Ask::Check | Ask::Sync | Ask::Duet => finish(sink, Ending::Usage),
        Ask::Relay { .. } | Ask::DuetMake { .. } => finish(sink, Ending::Usage),
        Ask::DuetFan { .. } | Ask::Fan => finish(sink, Ending::Usage),
        Ask::Long(_) | Ask::DoneLong(_) | Ask::SayLong { .. } => finish(sink, Ending::Usage),
    }
}
