//! Whole runs of commands on one disk. The functions have no code: a caller that needs a fact calls
//! them.

ghost use Rattle.std.specs.Prelude.{◌≡◌, ℕ, List, Some, slice_get};
ghost use Rattle.boxes.specs.Posts.{Post};
ghost use Rattle.dr_base.specs.declared.position.Side.{Side};
ghost use Rattle.dr_base.specs.declared.position.Side.TheVariants.{First, Second};
ghost use Rattle.dr_disk.specs.State.{Always};
ghost use Rattle.dr_model.specs.Machines.Worlds.{World};
ghost use Rattle.dr_model.specs.Theorems.LawfulWorlds.{IsLawfulWorld};
ghost use Rattle.kem_laws.specs.Mechanism.{IsLawfulMechanism, Mechanism};
ghost use Rattle.slot_store.specs.Reading.{IsUndamaged};
ghost use Rattle.client.specs.Clients.{client_area};
ghost use Rattle.client.specs.InWorlds.{StandsFor};
ghost use Rattle.client.specs.Moments.{AreLinked, IsAmongKnown, Known};
ghost use Rattle.client.specs.Opening.{ReadsAsSide};
ghost use Rattle.session_commands.specs.Completing.{ReadsWhole};
ghost use Rattle.session_commands.specs.Talks.{HaveTalked, IsTalk};
ghost use Rattle.session_commands.specs.WholeRuns.{AreRun};

use client::laws::client_grounds;
use dr_disk::Disk;
use dr_ports::Draws;

/// A run of commands on one disk, with crashes in them and between them, while the other side goes
/// on: its moments are linked, so what `client` says of whole runs holds of it, and each world that
/// is known at one of them is lawful. Where each image at the first moment is read without damage,
/// it is so at each, and what a read gives at a moment is one of the worlds known then, read whole.
/// So what `complete` says holds of the command that comes next.
pub fn runs_are_linked<D: Disk, W: Draws>(moments: &[D])
    ensures linked { (k : Mechanism) → IsLawfulMechanism k
        → (side : Side) (first : World) (known : ℕ → Known) → IsLawfulWorld k first
        → AreRun D.state W.at moments.now k side first known
        → AreLinked D.state moments.now k side first known }
    ensures lawful { (k : Mechanism) → IsLawfulMechanism k
        → (side : Side) (first : World) (known : ℕ → Known) → IsLawfulWorld k first
        → AreRun D.state W.at moments.now k side first known
        → (n : ℕ) (a : D) (w : World) → slice_get moments.now n ≡ Some a → IsAmongKnown (known n) w
        → IsLawfulWorld k w }
    ensures whole { (k : Mechanism) (side : Side) (first : World) (known : ℕ → Known)
        → AreRun D.state W.at moments.now k side first known
        → ((a : D) → slice_get moments.now 0 ≡ Some a
        → Always (IsUndamaged client_area) (D.state a))
        → (n : ℕ) (a : D) → slice_get moments.now n ≡ Some a
        → Always (IsUndamaged client_area) (D.state a) }
    ensures reads { (k : Mechanism) → IsLawfulMechanism k
        → (side : Side) (first : World) (known : ℕ → Known) → IsLawfulWorld k first
        → AreRun D.state W.at moments.now k side first known
        → ((a : D) → slice_get moments.now 0 ≡ Some a
        → Always (IsUndamaged client_area) (D.state a))
        → (n : ℕ) (a : D) (bytes : List ℕ) → slice_get moments.now n ≡ Some a
        → (D.state a).seen ≡ Some bytes
        → (w : World) × IsAmongKnown (known n) w × ReadsWhole k w side (D.state a) }
{
    client_grounds();
}

/// The smallest run in which both sides talk, by what their commands' own clauses say: First says a
/// text, Second takes it and says one, First takes that, a crash cuts it off, and First takes it
/// again. First's moments are a run, whatever the crash left, and nobody forged what it takes,
/// since Second made it.
pub fn talk<D: Disk, E: Disk, W: Draws>()
    ensures { (k : Mechanism) → IsLawfulMechanism k
        → (w : World) (start said cut crashed took : D) (hears heard answers : E)
        (question answer : Post)
        → IsTalk D.state E.state W.at k start said cut crashed took hears heard answers
        question answer
        → IsLawfulWorld k w → ReadsAsSide k w First (D.state start) → ReadsAsSide k w Second (E.state hears)
        → Always (StandsFor k w First) (D.state start)
        → HaveTalked D.state W.at k w start said crashed took answer }
{
    client_grounds();
}
