//! The command that says one text under several names.

ghost use Rattle.std.specs.Prelude.{◌≡◌, ◌≤◌, [], length, map};
ghost use Rattle.dr_disk.specs.Spans.{IsQuiet};
ghost use Rattle.command_lines.specs.Runs.{RunsAndCounts};
ghost use Rattle.relay_wire.specs.declared.limits.TheConstants.{NAME_LIMIT};
ghost use Rattle.book.specs.Fans.{AreListed};
ghost use Rattle.book_commands.specs.FanEndings.{IsWithin, ending_of_add, ending_of_fan, ending_of_peer};
ghost use Rattle.book_commands.specs.Fanning.{AddsInTurn, RunsFan};
ghost use Rattle.book_commands.specs.Opening.{HasBookRoom};

use crate::endings_of::unopened;
use crate::fan_lines::write_all_said;
use book::{Book, FanAddError, FanOut, FanRefusal};
use book_store::{BOOK_ROWS, resting_books};
use client::SayRefusal;
use command_lines::finish_written;
use dr_disk::Disk;
use dr_ports::{Draws, Sink};
use endings::{Ending, PeerName, Status, finish};
use kem_laws::Kem;
use session_model::Refusal;
use std::alloc::Global;

/// Adds the sessions of these names to an empty fan, in turn, until one isn't added.
fn add_all<K: Kem>(book: &Book<K>, names: &[&str], list: &mut FanOut) -> Result<(), FanAddError>
    requires { list.old ≡ [] }
    ensures adds { AddsInTurn (map (λ name. name.now) names.now) book.now.rows list.new result }
    ensures listed { AreListed book.now.rows list.new }
{
    'names: for i in 0..names.len() {
        match list.add(book, names[i]) {
            Ok(()) => {}
            Err(error) => return Err(error),
        }
    }
    Ok(())
}

/// How the command ends where a session isn't added.
fn unadded(error: FanAddError) -> Ending
    ensures { result ≡ ending_of_add error }
{
    match error {
        FanAddError::NoName => Ending::NoName,
        FanAddError::Twice => Ending::Twice,
        FanAddError::FanFull => Ending::FanFull,
    }
}

/// How it ends where the session of a name doesn't say the text.
fn unsaid(name: &str, refusal: SayRefusal) -> Ending
    requires { length name.now ≤ NAME_LIMIT }
    ensures { result ≡ ending_of_peer name.now refusal }
{
    let name = PeerName::new(name.as_bytes());
    match refusal {
        SayRefusal::Refused(refusal) => Ending::PeerRefused { name, refusal },
        SayRefusal::NoPair { .. } => Ending::PeerRefused {
            name,
            refusal: Refusal::NoPair,
        },
        SayRefusal::DrawFault => Ending::DrawFault,
        SayRefusal::Closed { .. } => Ending::DiskFault,
        SayRefusal::StoreFault { .. } => Ending::DiskFault,
    }
}

/// How it ends where a fan isn't done.
fn unfanned<K: Kem>(book: &Book<K>, list: &FanOut, refusal: FanRefusal) -> Ending
    requires listed { AreListed book.now.rows list.now }
    requires within { IsWithin list.now refusal }
    ensures { result ≡ ending_of_fan book.now.rows list.now refusal }
{
    match refusal {
        FanRefusal::Closed { .. } => Ending::DiskFault,
        FanRefusal::Nobody => Ending::Usage,
        FanRefusal::Peer { at, refusal } => unsaid(list.name(book, at), refusal),
        FanRefusal::StoreFault { .. } => Ending::DiskFault,
    }
}

/// Says one text in the sessions of all these names, or in none of them, and writes `said NAME E.I`
/// for each, in this order. The names are added in turn: `NoName`, `Twice` or `FanFull` at the
/// first that isn't added. Then each session is asked in turn, with a seed drawn where it needs
/// one: `Peer NAME` with the refusal of the first that doesn't say the text, and nothing is said.
#[inline(never)]
pub fn fan<K: Kem, D: Disk, O: Sink, W: Draws>(
    alloc: Global,
    text: &[u8],
    names: &[&str],
    disk: &mut D,
    out: &mut O,
    draws: &mut W,
) -> Status
    requires { HasBookRoom (D.state disk.old) }
    ensures { RunsAndCounts
        (RunsFan D.state W.at K.mechanism text.now (map (λ name. name.now) names.now)
        disk.old disk.new draws.old draws.new)
        (IsQuiet (D.state disk.old) (D.state disk.new)
        × ((W.at draws.new).faults ≡ (W.at draws.old).faults))
        (O.at out.old) (O.at out.new) result.code }
{
    resting_books();
    match Book::<K>::open(alloc, disk, BOOK_ROWS) {
        Err(error) => finish(out, unopened(error)),
        Ok(mut book) => {
            let mut list = FanOut::new();
            match add_all(&book, names, &mut list) {
                Err(error) => finish(out, unadded(error)),
                Ok(()) => match book.fan(disk, &list, text, draws) {
                    Err(refusal) => finish(out, unfanned(&book, &list, refusal)),
                    Ok(()) => {
                        let wrote = write_all_said(&book, &list, names, out);
                        finish_written(out, wrote)
                    }
                },
            }
        }
    }
}
