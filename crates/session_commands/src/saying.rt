//! The command that says a text.

ghost use Rattle.std.specs.Prelude.{◌≡◌};
ghost use Rattle.dr_disk.specs.Spans.{IsQuiet};
ghost use Rattle.command_lines.specs.Asking.{asked_say};
ghost use Rattle.command_lines.specs.Closing.{ending_by, lines_of_ending};
ghost use Rattle.session_commands.specs.Disks.{HasClientRoom};
ghost use Rattle.session_commands.specs.Acting.{RunsAct};
ghost use Rattle.command_lines.specs.Runs.{RunsAndCounts};

use crate::endings_of::unopened;
use client::Client;
use command_lines::{close, said};
use dr_disk::Disk;
use dr_ports::{Draws, Sink};
use endings::{Ending, Status};
use kem_laws::Kem;
use session_model::Answer;
use std::alloc::Global;

/// Opens the client, which says the text.
fn say_text<K: Kem, D: Disk, W: Draws>(
    alloc: Global,
    text: &[u8],
    disk: &mut D,
    draws: &mut W,
) -> Result<Answer, Ending>
    requires { HasClientRoom (D.state disk.old) }
    ensures { RunsAct D.state K.mechanism
        (asked_say W.at text.now draws.old draws.new) disk.old disk.new
        (ending_by result) (lines_of_ending result) }
{
    match Client::<K>::open(alloc, disk) {
        Err(refusal) => Err(unopened(refusal)),
        Ok(mut client) => {
            let acted = client.say(disk, text, draws);
            said(acted)
        }
    }
}

/// Says a text, and writes `said E.I`. A seed is drawn exactly where the client is open and the
/// text needs one.
#[inline(never)]
pub fn say<K: Kem, D: Disk, O: Sink, W: Draws>(
    alloc: Global,
    text: &[u8],
    disk: &mut D,
    out: &mut O,
    draws: &mut W,
) -> Status
    requires { HasClientRoom (D.state disk.old) }
    ensures { RunsAndCounts
        (RunsAct D.state K.mechanism (asked_say W.at text.now draws.old draws.new)
        disk.old disk.new)
        (IsQuiet (D.state disk.old) (D.state disk.new)
        × ((W.at draws.new).faults ≡ (W.at draws.old).faults))
        (O.at out.old) (O.at out.new) result.code }
{
    let worked = say_text::<K, D, W>(alloc, text, disk, draws);
    close(out, worked)
}
