//! The one step of every store: a write and its sync.

ghost use Rattle.std.specs.Prelude.{◌+◌, ◌≤◌, length, OnOk, OnErr};
ghost use Rattle.dr_disk.specs.declared.call.Call.TheVariants.{Sync};
ghost use Rattle.dr_disk.specs.State.{Always, IsSettled};
ghost use Rattle.dr_disk.specs.Spans.{GoesBy, Span, Frame, ReadsOutside};
ghost use Rattle.dr_disk.specs.Called.{Called, itself};
ghost use Rattle.dr_disk.specs.Calls.{Goes, HasFault, IsCut, IsWrittenOver, LeavesSame, Unwritten};

use crate::call::Call;
use crate::disk::Disk;
use dr_base::Failed;

/// The sync after a write.
fn settle<D: Disk>(disk: &mut D) -> Result<(), Failed>
    ensures settled { OnOk result (IsSettled (D.state disk.new)) }
    ensures passes { GoesBy (D.state disk.old) (D.state disk.new) }
    ensures unwritten { Unwritten (D.state disk.old) (D.state disk.new) }
    ensures leaves { OnErr result (LeavesSame (D.state disk.old) (D.state disk.new)) }
    ensures told { Goes (D.state disk.old) (D.state disk.new) result }
    ensures cause { HasFault Sync (D.state disk.old) (D.state disk.new) result }
{
    disk.sync()
}

/// Writes over the bytes from a place on, and syncs. An error names the call that failed.
pub fn write_synced<D: Disk>(disk: &mut D, at: u64, bytes: &[u8]) -> Result<(), Call>
    requires { at + length bytes.now ≤ (D.state disk.old).size }

    // A crash meanwhile leaves the bytes outside as they were; once it is done, it leaves what was
    // written.
    ensures any_moment { Span (D.state disk.old) (D.state disk.new)
        (Frame (D.state disk.old) at (length bytes.now)) }
    ensures done { OnOk result (Always (IsWrittenOver (D.state disk.old) at bytes.now)
        (D.state disk.new)) }
    ensures settled { OnOk result (IsSettled (D.state disk.new)) }
    ensures reads { ReadsOutside at (length bytes.now) (D.state disk.old) (D.state disk.new) }

    // Which calls passed, and what stands where one of them failed.
    ensures calls { Called 2 itself (D.state disk.old) (D.state disk.new) result }
    ensures stopped { OnErr result (IsCut at bytes.now (D.state disk.old) (D.state disk.new)) }
{
    let Ok(()) = disk.write_at(at, bytes) else {
        return Err(Call::Write);
    };
    let Ok(()) = settle(disk) else {
        return Err(Call::Sync);
    };
    Ok(())
}
