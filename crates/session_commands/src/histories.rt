//! Runs of commands on one disk, one after the other. The functions have no code: a caller that
//! needs a fact calls them.

ghost use Rattle.std.specs.Prelude.{◌≡◌, ℕ, [], List, Result, Some};
ghost use Rattle.dr_base.specs.declared.position.Side.{Side};
ghost use Rattle.dr_disk.specs.State.{Always};
ghost use Rattle.dr_model.specs.Machines.Acts.{Act};
ghost use Rattle.dr_model.specs.Machines.Worlds.{World};
ghost use Rattle.dr_model.specs.Theorems.LawfulWorlds.{IsLawfulWorld};
ghost use Rattle.endings.specs.declared.ending.Ending.{Ending};
ghost use Rattle.kem_laws.specs.Mechanism.{IsLawfulMechanism, Mechanism};
ghost use Rattle.relay_wire.specs.Replies.{Replied};
ghost use Rattle.session_model.specs.Clients.{Client};
ghost use Rattle.session_model.specs.Contents.{Content};
ghost use Rattle.slot_store.specs.Reading.{IsUndamaged};
ghost use Rattle.sync_model.specs.declared.more.More.{More};
ghost use Rattle.client.specs.Clients.{client_area};
ghost use Rattle.client.specs.Moments.{IsAmongKnown, Known, Link, StandsStill, known_after_sync};
ghost use Rattle.client.specs.Opening.{ReadsAsSide};
ghost use Rattle.client.specs.Syncing.InOrder.{IsLeftBetween};
ghost use Rattle.client.specs.Syncing.InWorlds.{AreUnforged};
ghost use Rattle.client.specs.declared.syncing.faults.SyncFault.{SyncFault};
ghost use Rattle.command_lines.specs.Asking.{asked_content, asked_drop, asked_take};
ghost use Rattle.session_commands.specs.Completing.{ReadsWhole};
ghost use Rattle.session_commands.specs.Disks.{RunsOn};
ghost use Rattle.session_commands.specs.Histories.{LinksActs, LinksCuts, cut_in_sync, shown_known, synced_known};
ghost use Rattle.session_commands.specs.Showing.{ShowsIn};
ghost use Rattle.session_commands.specs.SyncMoments.{SyncsBehind};
ghost use Rattle.session_commands.specs.Syncing.{SyncRunsIn};

use client::laws::client_grounds;
use dr_disk::Disk;
use dr_ports::Draws;

/// A command reads one of the worlds that are known of the disk at entry; and reads it whole, where
/// each image is read without damage. So what `complete` says of a command holds of it.
pub fn reads_known<D: Disk>(disk: &D)
    ensures known { (k : Mechanism) (side : Side) (first : World) (known : Known) (bytes : List ℕ)
        → IsLawfulWorld k first
        → StandsStill k side first known (D.state disk.now) → (D.state disk.now).seen ≡ Some bytes
        → (w : World) × IsAmongKnown known w × IsLawfulWorld k w × ReadsAsSide k w side (D.state disk.now) }
    ensures whole { (k : Mechanism) (side : Side) (first : World) (known : Known) (bytes : List ℕ)
        → IsLawfulWorld k first
        → StandsStill k side first known (D.state disk.now)
        → Always (IsUndamaged client_area) (D.state disk.now)
        → (D.state disk.now).seen ≡ Some bytes → (w : World) × IsAmongKnown known w
        × ReadsWhole k w side (D.state disk.now) }
{}

/// A disk of which each image is read without damage stays so over a command, and over a crash at
/// any moment in it.
pub fn stays_whole<D: Disk>(before: &D, after: &D, crashed: &D)
    ensures acts { (k : Mechanism) (side : Side) (w next : World)
        → Always (IsUndamaged client_area) (D.state before.now)
        → RunsOn k side w next (D.state before.now) (D.state after.now)
        → ((c : List ℕ) → (D.state crashed.now).image c
        → IsLeftBetween (D.state before.now) (D.state after.now) c)
        → Always (IsUndamaged client_area) (D.state crashed.now) }
    ensures syncs { (k : Mechanism) (side : Side) (w : World) (kept : Client)
        (replies : List Replied) (result : Result More SyncFault)
        → Always (IsUndamaged client_area) (D.state before.now)
        → SyncRunsIn k side w kept replies (D.state before.now) (D.state after.now) result
        → ((c : List ℕ) → (D.state crashed.now).image c
        → IsLeftBetween (D.state before.now) (D.state after.now) c)
        → Always (IsUndamaged client_area) (D.state crashed.now) }
{}

/// What a command comes to, in a world that is known of the disk at entry, is a link from before it
/// to after it. So the laws of `client` over whole runs hold of runs of commands.
pub fn runs_are_links<D: Disk, W: Draws>(before: &D, after: &D, draws: &W, left: &W)
    ensures says { (k : Mechanism) → IsLawfulMechanism k → (side : Side) (known : Known) (w : World)
        → IsAmongKnown known w → IsLawfulWorld k w
        → (content : Content)
        → LinksActs k side known w (asked_content W.at content draws.now left.now)
        (D.state before.now) (D.state after.now) }
    ensures takes { (k : Mechanism) → IsLawfulMechanism k
        → (side : Side) (known : Known) (w : World) → IsAmongKnown known w → IsLawfulWorld k w
        → (packet : List ℕ) → LinksActs k side known w (asked_take k packet) (D.state before.now)
        (D.state after.now) }
    ensures drops { (k : Mechanism) → IsLawfulMechanism k
        → (side : Side) (known : Known) (w : World) → IsAmongKnown known w → IsLawfulWorld k w
        → (act : Act) → LinksActs k side known w (asked_drop act) (D.state before.now)
        (D.state after.now) }
    ensures shows { (k : Mechanism) → IsLawfulMechanism k
        → (side : Side) (known : Known) (w : World) → IsAmongKnown known w → IsLawfulWorld k w
        → (shows : Client → List ℕ) (ending : Ending) (lines : List ℕ)
        → (runs : ShowsIn k w side shows (D.state before.now) (D.state after.now) ending lines)
        → Link k side (D.state before.now) (D.state after.now) known (shown_known runs known) }
    ensures syncs { (k : Mechanism) → IsLawfulMechanism k
        → (side : Side) (known : Known) (w : World) → IsAmongKnown known w → IsLawfulWorld k w
        → (kept : Client) (replies : List Replied) (result : Result More SyncFault)
        → AreUnforged k [] side w replies
        → SyncRunsIn k side w kept replies (D.state before.now) (D.state after.now) result
        → Link k side (D.state before.now) (D.state after.now) known
        (synced_known k side w replies result) }
    ensures stays { (k : Mechanism) (side : Side) (known : Known) (w : World) → IsAmongKnown known w
        → RunsOn k side w w (D.state before.now) (D.state after.now)
        → Link k side (D.state before.now) (D.state after.now) known known }
{
    client_grounds();
}

/// A crash inside a command is a link too, from before it to what the crash left: it leaves what
/// one might have left at a moment of the run.
pub fn crashes_are_links<D: Disk, W: Draws>(before: &D, after: &D, crashed: &D, draws: &W, left: &W)
    ensures says { (k : Mechanism) (side : Side) (known : Known) (w : World) → IsAmongKnown known w
        → ((c : List ℕ) → (D.state crashed.now).image c
        → IsLeftBetween (D.state before.now) (D.state after.now) c)
        → (content : Content)
        → LinksCuts k side known w (asked_content W.at content draws.now left.now)
        (D.state before.now) (D.state after.now) (D.state crashed.now) }
    ensures takes { (k : Mechanism) (side : Side) (known : Known) (w : World) → IsAmongKnown known w
        → ((c : List ℕ) → (D.state crashed.now).image c
        → IsLeftBetween (D.state before.now) (D.state after.now) c)
        → (packet : List ℕ) → LinksCuts k side known w (asked_take k packet) (D.state before.now)
        (D.state after.now) (D.state crashed.now) }
    ensures drops { (k : Mechanism) (side : Side) (known : Known) (w : World) → IsAmongKnown known w
        → ((c : List ℕ) → (D.state crashed.now).image c
        → IsLeftBetween (D.state before.now) (D.state after.now) c)
        → (act : Act) → LinksCuts k side known w (asked_drop act) (D.state before.now)
        (D.state after.now) (D.state crashed.now) }
    ensures syncs { (k : Mechanism) (side : Side) (known : Known) (w : World) → IsAmongKnown known w
        → (kept : Client) (replies : List Replied) (result : Result More SyncFault)
        → AreUnforged k [] side w replies
        → SyncRunsIn k side w kept replies (D.state before.now) (D.state after.now) result
        → ((c : List ℕ) → (D.state crashed.now).image c
        → IsLeftBetween (D.state before.now) (D.state after.now) c)
        → Link k side (D.state before.now) (D.state crashed.now) known
        (cut_in_sync k side w replies known) }
    ensures stays { (k : Mechanism) (side : Side) (known : Known) (w : World) → IsAmongKnown known w
        → RunsOn k side w w (D.state before.now) (D.state after.now)
        → ((c : List ℕ) → (D.state crashed.now).image c
        → IsLeftBetween (D.state before.now) (D.state after.now) c)
        → Link k side (D.state before.now) (D.state crashed.now) known known }
{}

/// So is a crash behind the moment at which the session of a command that shows or syncs stood
/// open, when some of it may have gone out: the world that was read is known then, and of a sync
/// those that it may have reached from there. What was known before isn't any more.
pub fn crashes_behind_are_links<D: Disk>(before: &D, opened: &D, after: &D, crashed: &D)
    ensures shows { (k : Mechanism) → IsLawfulMechanism k
        → (side : Side) (known : Known) (w : World) → IsAmongKnown known w → IsLawfulWorld k w
        → ((c : List ℕ) → (D.state crashed.now).image c → (D.state opened.now).image c)
        → (shows : Client → List ℕ) (ending : Ending) (lines : List ℕ)
        → (runs : ShowsIn k w side shows (D.state before.now) (D.state opened.now) ending lines)
        → Link k side (D.state before.now) (D.state crashed.now) known (shown_known runs known) }
    ensures syncs { (k : Mechanism) (side : Side) (known : Known) (w : World) → IsAmongKnown known w
        → ((c : List ℕ) → (D.state crashed.now).image c
        → IsLeftBetween (D.state opened.now) (D.state after.now) c)
        → (replies : List Replied) → AreUnforged k [] side w replies
        → SyncsBehind k side w replies (D.state before.now) (D.state opened.now) (D.state after.now)
        → Link k side (D.state before.now) (D.state crashed.now) known
        (known_after_sync k [] side w [] replies) }
{
    client_grounds();
}
