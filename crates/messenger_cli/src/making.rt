//! The command that plays a script made from a number.

ghost use Rattle.std.specs.Prelude.{◌≡◌, ◌≤◌, [], IfErr, IfOk};
ghost use Rattle.command_lines.specs.Runs.{Runs};
ghost use Rattle.messenger_cli.specs.Making.{IsTallyOf, PlaysMade};

use dr_ports::{Failed, NullSink, Sink, write_all};
use duet::{PlayError, Tally, play, summary_lines};
use endings::{Ending, Status, UNWRITTEN, finish};
use kem_laws::OpenKem;
use scripts::Script;
use session_model::Refusal;
use std::alloc::Global;

/// What the script of this many rounds that is made from a number comes to, or how the command ends
/// without it.
fn tally_made(alloc: Global, rounds: u32, number: u64) -> Result<Tally, Ending>
    ensures tally { IfOk result (IsTallyOf rounds number) }
    ensures ending { IfErr result (λ ending. PlaysMade rounds number ending []) }
{
    let Ok(script) = Script::make(alloc, rounds, number) else {
        return Err(Ending::NoMemory);
    };
    let mut nowhere = NullSink::new();
    match play::<OpenKem, NullSink>(alloc, &script, &mut nowhere) {
        Ok(tally) => Ok(tally),
        Err(PlayError::Memory) => Err(Ending::NoMemory),
        Err(PlayError::NoPair) => Err(Ending::Refused(Refusal::NoPair)),
        Err(PlayError::Write) => unreachable!(),
    }
}

/// Plays the script of this many rounds that is made from a number, and writes what it comes to in
/// six lines.
#[inline(never)]
pub(crate) fn play_made<O: Sink>(alloc: Global, rounds: u32, number: u64, out: &mut O) -> Status
    ensures runs { Runs (PlaysMade rounds number) (O.at out.old) (O.at out.new) result.code }
    ensures writes { (O.at out.old).faults ≤ (O.at out.new).faults }
    // Status 0 says that no write failed.
    ensures quiet { result.code ≡ 0 → (O.at out.new).faults ≡ (O.at out.old).faults }
{
    let tally = match tally_made(alloc, rounds, number) {
        Err(ending) => return finish(out, ending),
        Ok(tally) => tally,
    };
    match write_all(out, summary_lines(&tally).as_slice()) {
        Err(Failed) => UNWRITTEN,
        Ok(()) => finish(out, Ending::Done),
    }
}
