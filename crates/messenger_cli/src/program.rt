//! The top call.

ghost use Rattle.std.specs.Prelude.{map, string_bytes};
ghost use Rattle.command_words.specs.Commands.{command_of};
ghost use Rattle.messenger_cli.specs.Counts.{CountsFaults, HaveRoom};
ghost use Rattle.messenger_cli.specs.Held.{ports_seen};
ghost use Rattle.messenger_cli.specs.Performing.{RunsProgram};

use crate::performing::perform;
use crate::ports::Ports;
use client::AREA_SIZE;
use command_words::parse;
use dr_disk::Disk;
use dr_ports::{Door, Draws, Link, Sink, Source};
use endings::{Ending, Status, finish};
use std::alloc::{AllocError, Global};

/// The size of the disk of a session, in bytes: the area of a client.
pub const DISK_SIZE: u64 = AREA_SIZE;

/// Runs the program on its words, the arguments after its name, over these ports. It answers the
/// status that the program ends with.
pub fn run<D: Disk, R: Disk, B: Disk, S: Source, O: Sink, L: Link, A: Door, W: Draws>(
    alloc: Global,
    words: &[String],
    ports: &mut Ports<D, R, B, S, O, L, A, W>,
) -> Status
    requires { HaveRoom (D.state ports.old.disk) (R.state ports.old.relay_disk)
        (B.state ports.old.book) }
    // The headline, command by command: what is written, why it ended so, what every crash
    // meanwhile and a read at the end stand for, what was read and what was drawn. Memory may be
    // wanting for the words; then nothing was done.
    ensures runs { RunsProgram (command_of (map string_bytes words.now))
        (ports_seen D.state R.state B.state S.at O.at L.port A.port W.at)
        ports.old ports.new result.code }
    // Status 0 says that no call failed.
    ensures quiet { CountsFaults (ports_seen D.state R.state B.state S.at O.at L.port A.port W.at)
        ports.old ports.new result.code }
{
    match parse(alloc, words) {
        Err(AllocError) => finish(&mut ports.sink, Ending::NoMemory),
        Ok(None) => finish(&mut ports.sink, Ending::Usage),
        Ok(Some(command)) => perform(alloc, &command, ports),
    }
}
