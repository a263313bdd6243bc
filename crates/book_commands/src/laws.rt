//! What follows of the commands' clauses. The functions have no code of their own.

ghost use Rattle.std.specs.Prelude.{◌≡◌, List, ℕ};
ghost use Rattle.endings.specs.Ending.{code_of};
ghost use Rattle.endings.specs.declared.ending.Ending.{Ending};
ghost use Rattle.kem_laws.specs.Mechanism.{IsLawfulMechanism, Mechanism};
ghost use Rattle.session_model.specs.Clients.{Client};
ghost use Rattle.client.specs.declared.begin.Begin.{Begin};
ghost use Rattle.command_lines.specs.Asking.{asked_drop, asked_say, asked_take};
ghost use Rattle.command_lines.specs.InWorlds.{RunsActAt};
ghost use Rattle.command_lines.specs.Showing.{RunsShowAt};
ghost use Rattle.dr_model.specs.Machines.Acts.{Act};
ghost use Rattle.book_commands.specs.Beginning.{BeginsUnder};
ghost use Rattle.book_commands.specs.FanWorlds.{ReachesNamed};
ghost use Rattle.book_commands.specs.Fanning.{RunsFan};
ghost use Rattle.book_commands.specs.Forgetting.{RunsForget};
ghost use Rattle.book_commands.specs.Others.{OthersStand};
ghost use Rattle.book_commands.specs.Places.{name_place};

use dr_disk::Disk;
use dr_model::{acts_follow, said_is_opened};
use dr_ports::Draws;
use session_record::record_law;

/// Whatever a command under a name comes to, what the disk reads under every other name stays.
pub fn others_stay<D: Disk, W: Draws>(before: &D, after: &D, draws: &W, left: &W)
    ensures says { (k : Mechanism) (name text : List ℕ) (ending : Ending) (lines : List ℕ)
        → RunsActAt (name_place k name) D.state k (asked_say W.at text draws.now left.now)
        before.now after.now ending lines
        → OthersStand k name (D.state before.now) (D.state after.now) }
    ensures takes { (k : Mechanism) (name packet : List ℕ) (ending : Ending) (lines : List ℕ)
        → RunsActAt (name_place k name) D.state k (asked_take k packet)
        before.now after.now ending lines
        → OthersStand k name (D.state before.now) (D.state after.now) }
    ensures drops { (k : Mechanism) (name : List ℕ) (act : Act) (ending : Ending) (lines : List ℕ)
        → RunsActAt (name_place k name) D.state k (asked_drop act)
        before.now after.now ending lines
        → OthersStand k name (D.state before.now) (D.state after.now) }
    ensures shows { (k : Mechanism) (name : List ℕ) (shows : Client → List ℕ) (ending : Ending)
        (lines : List ℕ)
        → RunsShowAt (name_place k name) D.state k shows before.now after.now ending lines
        → OthersStand k name (D.state before.now) (D.state after.now) }
    ensures begins { (k : Mechanism) (name : List ℕ) (begin : Begin) (ending : Ending)
        (lines : List ℕ)
        → BeginsUnder D.state k name begin before.now after.now ending lines
        → OthersStand k name (D.state before.now) (D.state after.now) }
    ensures forgets { (k : Mechanism) (name : List ℕ) (ending : Ending) (lines : List ℕ)
        → RunsForget D.state k name before.now after.now ending lines
        → OthersStand k name (D.state before.now) (D.state after.now) }
{
    record_law();
}

/// A fan that ends with status 0 reaches its peers: in whichever worlds the sessions stand that
/// were read, each that has one of the names says the text there, and the peer opens its packet to
/// that, byte for byte, whatever happens before it arrives for the first time, within the limits.
/// All other worlds stay, and the book is at rest with what the sessions keep then.
pub fn fans_reach_peers<D: Disk, W: Draws>(before: &D, after: &D, draws: &W, left: &W)
    ensures { (k : Mechanism) → IsLawfulMechanism k → (text : List ℕ) (names : List (List ℕ))
        (ending : Ending) (lines : List ℕ)
        → RunsFan D.state W.at k text names before.now after.now draws.now left.now ending lines
        → code_of ending ≡ 0
        → ReachesNamed D.state W.at k text names before.now after.now draws.now left.now }
{
    acts_follow();
    said_is_opened();
}
