//! A client syncs over a link to a relay in memory.

ghost use Rattle.std.specs.Prelude.{OnOk};
ghost use Rattle.dr_disk.specs.MemoryDisks.{state_of};
ghost use Rattle.relay_link.specs.Connections.{boxes_now, kept_before};
ghost use Rattle.sync_model.specs.Scenes.{scene};
ghost use Rattle.client.specs.Syncing.Moments.{moment};
ghost use Rattle.client.specs.Syncing.Parties.{client_party};
ghost use Rattle.parties.specs.GoingOver.{IsServedSync};
ghost use Rattle.parties.specs.Meetings.{Plays};
ghost use Rattle.parties.specs.Parties.{IsHeld};

use client::{Client, SyncFault};
use dr_disk::MemoryDisk;
use dr_ports::Sink;
use kem_laws::Kem;
use relay_link::RelayLink;
use sync_model::More;

/// Syncs a client over another connection to the relay, on which the reply to the request of this
/// number, from 1, is lost: a scene. `Refused` and an Ok tell how that has ended, `Link` that it
/// still waits for the lost reply, and `Write` that a call on the sink failed.
pub fn meet<K: Kem, O: Sink>(
    client: &mut Client<K>,
    disk: &mut MemoryDisk,
    link: &mut RelayLink,
    out: &mut O,
    prefix: &str,
    lost: Option<u32>,
) -> Result<More, SyncFault>
    requires { IsHeld client.old disk.old }
    ensures plays { let party = client_party K.mechanism prefix.now client.old.kept in
        Plays party (scene party (kept_before lost) client.old.kept (boxes_now link.old))
        (moment client.old (state_of disk.old) (O.at out.old))
        (moment client.new (state_of disk.new) (O.at out.new)) (boxes_now link.new) result }
    // By the relay's replies, where it has come to its end.
    ensures served { OnOk result (IsServedSync K.mechanism prefix.now client.old.kept
        client.new.kept (boxes_now link.old) (boxes_now link.new)) }
{
    link.relay().lawful();
    client.may_post();
    let _names = client.names();
    link.connect(lost);
    let result = client.sync(disk, link, out, prefix);
    let _relay = link.relay();
    result
}
