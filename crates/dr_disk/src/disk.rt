//! The trait of disks.

ghost use Rattle.std.specs.Prelude.{◌≡◌, ℕ, ◌+◌, ◌≤◌, List, length, slice_range, Option, IfOk, OnOk, OnErr, true};
ghost use Rattle.dr_disk.specs.declared.call.Call.TheVariants.{Read, Write, Sync};
ghost use Rattle.dr_disk.specs.Bytes.{EndsBy, overwritten_told};
ghost use Rattle.dr_disk.specs.State.{DiskState, IsLawful, IsSettled, OnSeen};
ghost use Rattle.dr_disk.specs.Spans.{GoesBy};
ghost use Rattle.dr_disk.specs.Calls.{Unwritten, WrittenIn, LeavesWritten, LeavesSame, Goes, ReadGoes, HasFault, HasNotRead, HasRead};

use dr_base::Failed;

/// Bytes that outlive a crash. Between two syncs each range that was written, also by a write that
/// failed, may hold any bytes after a crash; the bytes outside stay.
pub trait Disk {
    /// What the disk tells of itself.
    ghost state: { Self → DiskState };

    /// How many bytes it has. No call changes that.
    fn size(&self) -> u64
        ensures { result ≡ (state self.now).size };

    /// Fills `into` with the bytes from a place on.
    fn read(&mut self, at: u64, into: &mut [u8]) -> Result<(), Failed>
        requires { at + length into.old ≤ (state self.old).size }
        ensures bytes { OnOk result ((s : List ℕ) → (state self.old).seen ≡ Option.Some s →
            into.new ≡ slice_range s at (at + length into.old)) }
        ensures passes { GoesBy (state self.old) (state self.new) }
        ensures unwritten { Unwritten (state self.old) (state self.new) }
        ensures told { ReadGoes (state self.old) (state self.new) result }
        ensures one_read { HasRead (state self.old) (state self.new) }
        ensures cause { HasFault Read (state self.old) (state self.new) result };

    /// A place from which on a read gives zeros: how far the disk has to be looked at. The call
    /// counts as a read.
    fn end(&mut self) -> Result<u64, Failed>
        ensures zeros { IfOk result (λ end. OnSeen (EndsBy end) (state self.old)) }
        ensures passes { GoesBy (state self.old) (state self.new) }
        ensures unwritten { Unwritten (state self.old) (state self.new) }
        ensures told { ReadGoes (state self.old) (state self.new) result }
        ensures one_read { HasRead (state self.old) (state self.new) }
        ensures cause { HasFault Read (state self.old) (state self.new) result };

    /// Writes over the bytes from a place on.
    fn write_at(&mut self, at: u64, bytes: &[u8]) -> Result<(), Failed>
        requires { at + length bytes.now ≤ (state self.old).size }
        ensures written { OnOk result
            ((state self.new).seen ≡ overwritten_told (state self.old).seen at bytes.now) }
        ensures passes { GoesBy (state self.old) (state self.new) }
        ensures within { WrittenIn at (length bytes.now) (state self.old) (state self.new) }
        ensures leaves { LeavesWritten at bytes.now (state self.old) (state self.new) }
        ensures keeps { OnErr result ((state self.old).keeps ≡ true
            → (state self.new).seen ≡ (state self.old).seen) }
        ensures told { Goes (state self.old) (state self.new) result }
        ensures unread { HasNotRead (state self.old) (state self.new) }
        ensures cause { HasFault Write (state self.old) (state self.new) result };

    /// After it a crash leaves what a read gives.
    fn sync(&mut self) -> Result<(), Failed>
        ensures settled { OnOk result (IsSettled (state self.new)) }
        ensures passes { GoesBy (state self.old) (state self.new) }
        ensures unwritten { Unwritten (state self.old) (state self.new) }
        ensures leaves { OnErr result (LeavesSame (state self.old) (state self.new)) }
        ensures told { Goes (state self.old) (state self.new) result }
        ensures unread { HasNotRead (state self.old) (state self.new) }
        ensures cause { HasFault Sync (state self.old) (state self.new) result };

    ghost lawful: { (disk : Self) → IsLawful (state disk) };
}
