//! The command that shows the long text of an id.

ghost use Rattle.dr_disk.specs.Spans.{IsQuiet};
ghost use Rattle.session_commands.specs.Disks.{HasClientRoom};
ghost use Rattle.command_lines.specs.Runs.{RunsAndCounts};
ghost use Rattle.session_commands.specs.LongShown.{RunsLong};

use crate::endings_of::unopened;
use client::{Client, Keeper};
use command_lines::close_long;
use dr_disk::Disk;
use dr_ports::Sink;
use endings::{Ending, Status, finish};
use kem_laws::Kem;
use long_text::LONG_LIMIT;
use std::alloc::Global;

/// Shows the long text of an id whose parts stand in the inbox: `long ID "TEXT"`, or `NoLong`,
/// `Clash` or `Parts` exactly as `Client::long` refuses. Its room is taken before the client is
/// opened.
#[inline(never)]
pub fn long<K: Kem, D: Disk, O: Sink>(alloc: Global, id: u32, disk: &mut D, out: &mut O) -> Status
    requires { HasClientRoom (D.state disk.old) }
    ensures { RunsAndCounts (RunsLong D.state K.mechanism id disk.old disk.new)
        (IsQuiet (D.state disk.old) (D.state disk.new))
        (O.at out.old) (O.at out.new) result.code }
{
    let Ok(mut room) = vec![in alloc; 0; LONG_LIMIT] else {
        return finish(out, Ending::NoMemory);
    };
    match Client::<K>::open(alloc, disk) {
        Err(refusal) => finish(out, unopened(refusal)),
        Ok(client) => close_long(client.core(), id, room.as_mut_slice(), out),
    }
}
