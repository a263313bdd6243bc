//! The work of a command, where its session is.

ghost use Rattle.command_words.specs.Seen.{work_of};
ghost use Rattle.messenger_cli.specs.Counts.{HaveRoom, IsRun};
ghost use Rattle.messenger_cli.specs.Held.{ports_seen};
ghost use Rattle.messenger_cli.specs.Performing.{Performs};

use crate::in_book::perform_in_book;
use crate::in_folder::perform_in_folder;
use crate::ports::Ports;
use command_words::{Command, Where};
use dr_disk::Disk;
use dr_ports::{Door, Draws, Link, Sink, Source};
use endings::Status;
use std::alloc::Global;

/// Does a command's work, and answers its status.
// Each command is a function that isn't inlined, so that the room of the one that is done is set
// alone.
pub(crate) fn perform<D: Disk, R: Disk, B: Disk, S: Source, O: Sink, L: Link, A: Door, W: Draws>(
    alloc: Global,
    command: &Command<'_>,
    ports: &mut Ports<D, R, B, S, O, L, A, W>,
) -> Status
    requires { HaveRoom (D.state ports.old.disk) (R.state ports.old.relay_disk)
        (B.state ports.old.book) }
    ensures { IsRun (Performs (work_of command.now).place (work_of command.now).ask
        (work_of command.now).values)
        (ports_seen D.state R.state B.state S.at O.at L.port A.port W.at)
        ports.old ports.new result.code }
{
    match command.place {
        Where::Folder => perform_in_folder(alloc, command, ports),
        Where::Book => perform_in_book(alloc, command, ports),
    }
}
