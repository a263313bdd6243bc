//! A script, played: each deed is done, and its lines are written before the next.

ghost use Rattle.std.specs.Prelude.{◌≡◌, ◌≤◌, ◌⊎◌, All, IsNone, IsSome, IfOk, OnOk, IsErrOf};
ghost use Rattle.dr_ports.specs.Ports.{Rose, appended};
ghost use Rattle.dr_ports.specs.Writing.{TookBeginning};
ghost use Rattle.session_model.specs.Schedule.{agreement_seed};
ghost use Rattle.duet.specs.Receipts.{ReceiptsHold};
ghost use Rattle.duet.specs.Tally.{tally_of};
ghost use Rattle.duet.specs.Trace.{IsUnforgedScript, beginning_in, played};
ghost use Rattle.scripts.specs.Deeds.{HasWholeSeed};

use crate::deeds::{Cut, play_deed};
use crate::sides::Duet;
use crate::tally::Tally;
use dr_base::Side;
use dr_ports::Sink;
use kem_laws::Kem;
use parties::BeginError;
use scripts::Script;
use std::alloc::Global;

/// Why a script wasn't played to its end.
#[derive(Clone, Copy)]
pub enum PlayError {
    /// There was no memory for the two sides, and nothing was written; or none to open a side
    /// again or to join a long text, and the lines before were written.
    Memory,
    /// The shared key gives no first pair; nothing was written.
    NoPair,
    /// A write failed.
    Write,
}

/// Plays a script over a mechanism: it writes the lines of each deed, with what both sides answer,
/// and gives the run in numbers.
pub fn play<K: Kem, O: Sink>(
    alloc: Global,
    script: &Script,
    out: &mut O,
) -> Result<Tally, PlayError>
    ensures ok { OnOk result
        ((O.at out.new).taken ≡ appended (O.at out.old).taken (played K.mechanism script.now)) }
    ensures tally { IfOk result (λ tally. tally ≡ tally_of K.mechanism script.now) }
    ensures pair { OnOk result
        (IsSome (K.mechanism.meaning.pair_of (agreement_seed script.now.key))) }
    // At each line in which a side takes packets: each own text of its that waits no more then was
    // opened by the other side.
    ensures receipts { OnOk result (All HasWholeSeed script.now.deeds
        → IsUnforgedScript K.mechanism script.now
        → ReceiptsHold K.mechanism (beginning_in K.mechanism script.now) script.now.deeds) }
    ensures none { IsErrOf result PlayError.NoPair
        → IsNone (K.mechanism.meaning.pair_of (agreement_seed script.now.key))
        × ((O.at out.new).taken ≡ (O.at out.old).taken) }
    // None for the two sides, or none, after these lines, to open a side again or to join a text.
    ensures memory { IsErrOf result PlayError.Memory → ((O.at out.new).taken ≡ (O.at out.old).taken)
        ⊎ (TookBeginning (O.at out.old).taken (O.at out.new).taken (played K.mechanism script.now)
        × IsSome (K.mechanism.meaning.pair_of (agreement_seed script.now.key))) }
    ensures write { IsErrOf result PlayError.Write
        → TookBeginning (O.at out.old).taken (O.at out.new).taken (played K.mechanism script.now)
        × Rose (O.at out.old).faults (O.at out.new).faults
        × IsSome (K.mechanism.meaning.pair_of (agreement_seed script.now.key)) }
    // No other ending has a fault.
    ensures quiet { (IsErrOf result PlayError.Write → ⊥)
        → (O.at out.new).faults ≡ (O.at out.old).faults }
    ensures later { (O.at out.old).faults ≤ (O.at out.new).faults }
{
    let first = script.format(Side::First);
    let second = script.format(Side::Second);
    let mut duet = match Duet::<K>::new(
        alloc,
        first,
        second,
        script.key(),
        script.guarded(),
        script.len(),
    ) {
        Ok(duet) => duet,
        Err(BeginError::Memory) => return Err(PlayError::Memory),
        Err(BeginError::NoPair) => return Err(PlayError::NoPair),
    };
    let mut tally = Tally::new(script.rounds());
    let mut lines = script.lines();
    'deeds: while let Some(line) = lines.next() {
        match play_deed(alloc, duet, &line, &mut tally, out) {
            Err(Cut::Memory) => return Err(PlayError::Memory),
            Err(Cut::Write) => return Err(PlayError::Write),
            Ok(next) => duet = next,
        }
    }
    Ok(duet.reached(tally))
}
