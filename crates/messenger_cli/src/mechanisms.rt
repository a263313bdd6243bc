//! Scripts over the mechanism that they name.

ghost use Rattle.std.specs.Prelude.{◌≡◌, ◌≤◌, ◌⊎◌, IsErrOf, IsNone, IsSome, OnOk};
ghost use Rattle.dr_ports.specs.Ports.{Rose, appended};
ghost use Rattle.dr_ports.specs.Writing.{TookBeginning};
ghost use Rattle.messenger_cli.specs.Mechanisms.{first_pair, played_named};

use dr_ports::Sink;
use duet::{PlayError, Tally, play};
use kem_laws::OpenKem;
use scripts::{KemName, Script};
use sntrup761::Sntrup761;
use std::alloc::Global;

/// Plays a script over the mechanism that its first line names.
pub fn play_named<O: Sink>(alloc: Global, script: &Script, out: &mut O) -> Result<Tally, PlayError>
    ensures ok { OnOk result
        ((O.at out.new).taken ≡ appended (O.at out.old).taken (played_named script.now)) }
    ensures pair { OnOk result (IsSome (first_pair script.now)) }
    ensures none { IsErrOf result PlayError.NoPair → IsNone (first_pair script.now)
        × ((O.at out.new).taken ≡ (O.at out.old).taken) }
    ensures memory { IsErrOf result PlayError.Memory → ((O.at out.new).taken ≡ (O.at out.old).taken)
        ⊎ (TookBeginning (O.at out.old).taken (O.at out.new).taken (played_named script.now)
        × IsSome (first_pair script.now)) }
    ensures write { IsErrOf result PlayError.Write
        → TookBeginning (O.at out.old).taken (O.at out.new).taken (played_named script.now)
        × Rose (O.at out.old).faults (O.at out.new).faults
        × IsSome (first_pair script.now) }
    ensures quiet { (IsErrOf result PlayError.Write → ⊥)
        → (O.at out.new).faults ≡ (O.at out.old).faults }
    ensures later { (O.at out.old).faults ≤ (O.at out.new).faults }
{
    match script.kem() {
        KemName::Open => play::<OpenKem, O>(alloc, script, out),
        KemName::Sntrup761 => play::<Sntrup761, O>(alloc, script, out),
    }
}
