//! The laws of the command: what a crash leaves, where it does its work, and its limits. The
//! functions have no code: a caller that needs a fact calls them.

ghost use Rattle.std.specs.Prelude.{List, ℕ, ◌≡◌, ◌⊎◌};
ghost use Rattle.endings.specs.declared.ending.Ending.{Ending};
ghost use Rattle.endings.specs.declared.ending.Ending.TheVariants.{Done, NoMemory};
ghost use Rattle.relay_server.specs.FrameByFrame.{StandsForSent};
ghost use Rattle.relay_command.specs.Completing.{MayServe, NoneFailed};
ghost use Rattle.relay_command.specs.Connections.{Connection, ConnectionStanding, behind_all};
ghost use Rattle.relay_command.specs.InTurn.{WasLeftIn};
ghost use Rattle.relay_command.specs.Limits.{HasLimits};
ghost use Rattle.relay_command.specs.Relaying.{Relays};

use dr_disk::Disk;
use dr_ports::Door;
use relay_server::laws::crashes as crashes_in_one;

/// At a moment of a connection at which the replies to its first n frames were sent whole, and no
/// other, each image has, box by box, the box as the connections before it left it, after the
/// connection's own accepted requests for it among these n frames, or among the first n + 1. So
/// nothing of a connection comes back once the next one has begun.
pub fn crashes<A: Disk, L: Door>()
    ensures { (s : ConnectionStanding) (start : A) (xs : List Connection) (frames : List (List ℕ))
        (c : List ℕ) →
        WasLeftIn A.state L.port s start xs frames c
        → StandsForSent (behind_all s xs).boxes frames c }
{
    crashes_in_one::<A, L>();
}

/// Where the words name boxes, the disk gives a box for each, and no call on the disk, no listening
/// and no accepting failed, the command does its work, or memory is wanting.
pub fn complete<A: Disk, L: Door>(before: &A, after: &A, from: &L, door: &L)
    ensures { (words : List (List ℕ)) (port count code : ℕ) (ending : Ending) (lines : List ℕ)
        → MayServe words (A.state before.now)
        → NoneFailed (A.state before.now) (A.state after.now) (L.port from.now) (L.port door.now)
        → Relays A.state L.port words port count before.now after.now from.now door.now code ending
        lines → (ending ≡ Done) ⊎ (ending ≡ NoMemory) }
{}

/// The limits of this crate as numbers. The function has no code.
pub fn limits_in_numbers()
    ensures { HasLimits }
{}
