//! The laws of the commands: what follows of their clauses, over runs of them too.
//! The functions have no code: a caller that needs a fact calls one.

ghost use Rattle.std.specs.Prelude.{ℕ, List, ◌≡◌, ◌⊎◌};
ghost use Rattle.dr_base.specs.declared.position.Side.{Side};
ghost use Rattle.dr_model.specs.Machines.Acts.{Act};
ghost use Rattle.dr_model.specs.Machines.Worlds.{World};
ghost use Rattle.endings.specs.declared.ending.Ending.{Ending};
ghost use Rattle.endings.specs.declared.ending.Ending.TheVariants.{NoMemory};
ghost use Rattle.kem_laws.specs.Mechanism.{Mechanism};
ghost use Rattle.session_model.specs.Clients.{Client};
ghost use Rattle.session_model.specs.Contents.{Content};
ghost use Rattle.client.specs.declared.begin.Begin.{Begin};
ghost use Rattle.command_lines.specs.Asking.{asked_content, asked_drop, asked_take};
ghost use Rattle.session_commands.specs.Beginning.{Begins};
ghost use Rattle.session_commands.specs.Checking.{RunsCheck};
ghost use Rattle.session_commands.specs.Completing.{DidWork, IsAccepted, MayBegin, NoneFailed, ReadsWhole};
ghost use Rattle.session_commands.specs.Acting.{RunsAct};
ghost use Rattle.session_commands.specs.Showing.{RunsShow};
ghost use Rattle.session_commands.specs.SyncCompleting.{AnswersClient, NoneFailedOver, SyncedToEnd};
ghost use Rattle.session_commands.specs.Syncing.{RunsSync};

pub use crate::histories::{
    crashes_are_links, crashes_behind_are_links, reads_known, runs_are_links, stays_whole,
};
pub use crate::whole_runs::{runs_are_linked, talk};
use dr_disk::Disk;
use dr_ports::{Draws, Link};

/// Where no call on the disk failed, on a disk that reads a world whole, a command that the machine
/// accepts does its work, or memory is wanting; and so does one that shows what is kept. On a disk
/// that holds nothing so does a beginning by a key that has a pair, and on any disk a look at it.
pub fn complete<D: Disk, W: Draws>(before: &D, after: &D, draws: &W, left: &W)
    ensures says { (k : Mechanism) (w : World) (side : Side) (content : Content) (ending : Ending)
        (lines : List ℕ)
        → ReadsWhole k w side (D.state before.now)
        → NoneFailed (D.state before.now) (D.state after.now)
        → IsAccepted k w side (asked_content W.at content draws.now left.now)
        → RunsAct D.state k (asked_content W.at content draws.now left.now) before.now after.now ending
        lines → DidWork ending }
    ensures takes { (k : Mechanism) (w : World) (side : Side) (packet : List ℕ) (ending : Ending)
        (lines : List ℕ)
        → ReadsWhole k w side (D.state before.now)
        → NoneFailed (D.state before.now) (D.state after.now)
        → IsAccepted k w side (asked_take k packet)
        → RunsAct D.state k (asked_take k packet) before.now after.now ending lines
        → DidWork ending }
    ensures drops { (k : Mechanism) (w : World) (side : Side) (act : Act) (ending : Ending)
        (lines : List ℕ)
        → ReadsWhole k w side (D.state before.now)
        → NoneFailed (D.state before.now) (D.state after.now)
        → IsAccepted k w side (asked_drop act)
        → RunsAct D.state k (asked_drop act) before.now after.now ending lines → DidWork ending }
    ensures shows { (k : Mechanism) (w : World) (side : Side) (shows : Client → List ℕ)
        (ending : Ending) (lines : List ℕ)
        → ReadsWhole k w side (D.state before.now)
        → NoneFailed (D.state before.now) (D.state after.now)
        → RunsShow D.state k shows before.now after.now ending lines → DidWork ending }
    ensures begins { (k : Mechanism) (begin : Begin) (ending : Ending) (lines : List ℕ)
        → MayBegin k begin (D.state before.now)
        → NoneFailed (D.state before.now) (D.state after.now)
        → Begins D.state k begin before.now after.now ending lines → DidWork ending }
    ensures checks { (k : Mechanism) (ending : Ending) (lines : List ℕ)
        → NoneFailed (D.state before.now) (D.state after.now)
        → RunsCheck D.state k before.now after.now ending lines → DidWork ending }
{}

/// On a disk that reads a world whole, where no call on the disk or the link failed and no write,
/// and the link gives one lawful reply for each request, the course of a sync comes to its end, and
/// the command ends by it, or memory is wanting.
pub fn syncs_to_end<D: Disk, L: Link>(before: &D, after: &D, link: &L, left: &L)
    ensures { (k : Mechanism) (w : World) (side : Side) (address : List ℕ) (faults later : ℕ)
        (ending : Ending) (lines : List ℕ)
        → ReadsWhole k w side (D.state before.now)
        → NoneFailed (D.state before.now) (D.state after.now)
        → NoneFailedOver (L.port link.now) (L.port left.now) faults later
        → AnswersClient k (D.state before.now) (L.port link.now)
        → RunsSync D.state L.port k address before.now after.now link.now left.now faults later
        ending lines
        → (ending ≡ NoMemory)
        ⊎ SyncedToEnd k address (D.state before.now) (D.state after.now) (L.port link.now)
        (L.port left.now) ending }
{}
