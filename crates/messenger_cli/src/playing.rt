//! The command that plays a script.

ghost use Rattle.std.specs.Prelude.{◌≡◌, ◌≤◌, IfOk, OnErr};
ghost use Rattle.messenger_cli.specs.Runs.{IsReadCut, RunsDuet, Works};

use crate::mechanisms::play_named;
use dr_ports::{Failed, InputError, Sink, Source, read_whole};
use duet::PlayError;
use endings::{Ending, Status, UNWRITTEN, finish};
use scripts::{Script, ScriptError};
use session_model::Refusal;
use std::alloc::Global;

/// The longest script, in bytes.
pub const SCRIPT_LIMIT: usize = 65536;

/// Reads a script from the source and plays it.
fn work<S: Source, O: Sink>(alloc: Global, source: &mut S, out: &mut O) -> Result<Ending, Failed>
    ensures ended { IfOk result (Works (S.at source.old) (S.at source.new)
        (O.at out.old) (O.at out.new)) }
    ensures cut { OnErr result (IsReadCut (S.at source.old) (S.at source.new)
        (O.at out.old) (O.at out.new)) }
    ensures reads { (S.at source.old).faults ≤ (S.at source.new).faults }
    ensures writes { (O.at out.old).faults ≤ (O.at out.new).faults }
{
    let text = match read_whole(alloc, source, SCRIPT_LIMIT) {
        Ok(text) => text,
        Err(InputError::Memory) => return Ok(Ending::NoMemory),
        Err(InputError::TooLong) => return Ok(Ending::InputTooLong(SCRIPT_LIMIT as u32)),
        Err(InputError::Fault) => return Ok(Ending::ReadFault),
    };
    let script = match Script::parse(alloc, text.as_slice()) {
        Ok(script) => script,
        Err(ScriptError::Memory) => return Ok(Ending::NoMemory),
        Err(ScriptError::Line(number)) => return Ok(Ending::BadLine(number)),
    };
    match play_named(alloc, &script, out) {
        Ok(_) => Ok(Ending::Done),
        Err(PlayError::Memory) => Ok(Ending::NoMemory),
        Err(PlayError::NoPair) => Ok(Ending::Refused(Refusal::NoPair)),
        Err(PlayError::Write) => Err(Failed),
    }
}

/// Plays the script that the source holds, and writes its lines.
#[inline(never)]
pub(crate) fn play_script<S: Source, O: Sink>(alloc: Global, source: &mut S, out: &mut O) -> Status
    ensures runs { RunsDuet (S.at source.old) (S.at source.new)
        (O.at out.old) (O.at out.new) result.code }
    ensures reads { (S.at source.old).faults ≤ (S.at source.new).faults }
    ensures writes { (O.at out.old).faults ≤ (O.at out.new).faults }
    // Status 0 says that no read and no write failed.
    ensures quiet { result.code ≡ 0 → ((S.at source.new).faults ≡ (S.at source.old).faults)
        × ((O.at out.new).faults ≡ (O.at out.old).faults) }
{
    match work(alloc, source, out) {
        Ok(ending) => finish(out, ending),
        Err(Failed) => UNWRITTEN,
    }
}
