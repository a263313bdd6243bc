//! The command that shows what the client keeps.

ghost use Rattle.command_lines.specs.Listings.{lines_of};
ghost use Rattle.dr_disk.specs.Spans.{IsQuiet};
ghost use Rattle.session_commands.specs.Disks.{HasClientRoom};
ghost use Rattle.command_lines.specs.Runs.{RunsAndCounts};
ghost use Rattle.session_commands.specs.Showing.{RunsShow};

use crate::endings_of::unopened;
use client::{Client, Keeper};
use command_lines::{Listing, finish_written, write_listing};
use dr_disk::Disk;
use dr_ports::Sink;
use endings::{Status, finish};
use kem_laws::Kem;
use std::alloc::Global;

/// Shows what the client keeps: the lines of a listing.
#[inline(never)]
pub fn show<K: Kem, D: Disk, O: Sink>(
    alloc: Global,
    listing: Listing,
    disk: &mut D,
    out: &mut O,
) -> Status
    requires { HasClientRoom (D.state disk.old) }
    ensures { RunsAndCounts
        (RunsShow D.state K.mechanism (lines_of listing) disk.old disk.new)
        (IsQuiet (D.state disk.old) (D.state disk.new))
        (O.at out.old) (O.at out.new) result.code }
{
    match Client::<K>::open(alloc, disk) {
        Err(refusal) => finish(out, unopened(refusal)),
        Ok(client) => {
            let wrote = write_listing(client.core(), listing, out);
            finish_written(out, wrote)
        }
    }
}
