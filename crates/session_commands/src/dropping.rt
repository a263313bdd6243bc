//! The commands that drop items of a box.

ghost use Rattle.dr_disk.specs.Spans.{IsQuiet};
ghost use Rattle.dr_model.specs.Machines.Acts.{dropping};
ghost use Rattle.command_lines.specs.Asking.{asked_drop};
ghost use Rattle.command_lines.specs.Closing.{ending_by, lines_of_ending};
ghost use Rattle.session_commands.specs.Disks.{HasClientRoom};
ghost use Rattle.session_commands.specs.Acting.{RunsAct};
ghost use Rattle.command_lines.specs.Runs.{RunsAndCounts};

use crate::endings_of::unopened;
use client::Client;
use command_lines::{close, dropped};
use dr_disk::Disk;
use dr_ports::Sink;
use endings::{Ending, Status};
use kem_laws::Kem;
use session_model::{Answer, Which};
use std::alloc::Global;

/// Opens the client, which drops items of a box.
fn open_and_drop<K: Kem, D: Disk>(
    alloc: Global,
    which: Which,
    disk: &mut D,
) -> Result<Answer, Ending>
    requires { HasClientRoom (D.state disk.old) }
    ensures { RunsAct D.state K.mechanism (asked_drop (dropping which)) disk.old disk.new
        (ending_by result) (lines_of_ending result) }
{
    match Client::<K>::open(alloc, disk) {
        Err(refusal) => Err(unopened(refusal)),
        Ok(mut client) => {
            let acted = client.drop_items(disk, which);
            dropped(Answer::Dropped(which), acted)
        }
    }
}

/// Drops items of a box: texts of the inbox, which are done, and writes `done N`, or packets of the
/// outbox, which were sent, and writes `sent N`.
#[inline(never)]
pub fn drop_items<K: Kem, D: Disk, O: Sink>(
    alloc: Global,
    which: Which,
    disk: &mut D,
    out: &mut O,
) -> Status
    requires { HasClientRoom (D.state disk.old) }
    ensures { RunsAndCounts
        (RunsAct D.state K.mechanism (asked_drop (dropping which)) disk.old disk.new)
        (IsQuiet (D.state disk.old) (D.state disk.new))
        (O.at out.old) (O.at out.new) result.code }
{
    let worked = open_and_drop::<K, D>(alloc, which, disk);
    close(out, worked)
}
