//! The command that shows the keys of the session's boxes at a relay.

ghost use Rattle.dr_disk.specs.Spans.{IsQuiet};
ghost use Rattle.session_commands.specs.Disks.{HasClientRoom};
ghost use Rattle.command_lines.specs.Runs.{RunsAndCounts};
ghost use Rattle.session_commands.specs.KeysShown.{RunsKeys};

use crate::endings_of::unopened;
use client::Client;
use command_lines::{finish_written, write_keys};
use dr_disk::Disk;
use dr_ports::Sink;
use endings::{Ending, Status, finish};
use kem_laws::Kem;
use std::alloc::Global;

/// Shows the keys of the session's boxes, a line `NAME=OWNER,POSTER` for each: these are the words
/// that a relay takes. `NoRelayKeys` exactly where the session was begun before there were any.
#[inline(never)]
pub fn show_keys<K: Kem, D: Disk, O: Sink>(alloc: Global, disk: &mut D, out: &mut O) -> Status
    requires { HasClientRoom (D.state disk.old) }
    ensures { RunsAndCounts (RunsKeys D.state K.mechanism disk.old disk.new)
        (IsQuiet (D.state disk.old) (D.state disk.new))
        (O.at out.old) (O.at out.new) result.code }
{
    match Client::<K>::open(alloc, disk) {
        Err(refusal) => finish(out, unopened(refusal)),
        Ok(client) => match client.relay_keys() {
            None => finish(out, Ending::NoRelayKeys),
            Some(keys) => {
                let wrote = write_keys(client.session(), &keys, out);
                finish_written(out, wrote)
            }
        },
    }
}
