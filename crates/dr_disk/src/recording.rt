//! A disk in memory that records its writes and syncs, and so tells what a crash at any moment
//! might have left.

ghost use Rattle.std.specs.Prelude.{◌≡◌, length, IfOk};
ghost use Rattle.dr_disk.specs.Recorded.{blank, events_of, replayed, total_of};

use crate::disk::Disk;
use crate::memory::{count_fault, count_passed};
use crate::platter::Platter;
use crate::tape::Tape;
use dr_base::Failed;
use std::alloc::{AllocError, Global};

/// A disk in memory with room for a stated number of writes and syncs, and of bytes that are
/// written. A call past that room fails; no other does. It tells what a `MemoryDisk` tells, and
/// what a crash at each moment so far might have left; what a crash of each kind would leave it
/// tells until a write has failed.
#[derive(Drop)]
pub struct RecordingDisk {
    platter: Platter,
    tape: Tape,
    size: usize,
    full: bool,
    passed: u64,
    writes: u64,
    syncs: u64,
    tried: u64,
    ghost sized: { length platter.bytes.items ≡ size },
    ghost total: { total_of tape.calls.items ≡ length tape.bytes.items },
    ghost bytes: { platter.bytes.items ≡ (replayed (blank size) (events_of tape.calls.items tape.bytes.items)).bytes },
    ghost durable: { platter.durable.items ≡ (replayed (blank size) (events_of tape.calls.items tape.bytes.items)).durable },
    ghost marks: { platter.marks.items ≡ (replayed (blank size) (events_of tape.calls.items tape.bytes.items)).marks },
}

impl RecordingDisk {
    ghost use Rattle.dr_disk.specs.RecordingDisks.{IsNewRecording, recording_state_of};

    /// A disk of this many zeros, with all the memory that it will ever use: room to record this
    /// many writes and syncs, and this many bytes that are written.
    pub fn new(
        alloc: Global,
        size: u64,
        calls: usize,
        bytes: usize,
    ) -> Result<RecordingDisk, AllocError>
        ensures { IfOk result (λ disk. IsNewRecording size calls bytes disk) }
    {
        Ok(RecordingDisk {
            platter: Platter::new(alloc, size as usize)?,
            tape: Tape::new(alloc, calls, bytes)?,
            size: size as usize,
            full: false,
            passed: 0,
            writes: 0,
            syncs: 0,
            tried: 0,
        })
    }
}

impl Disk for RecordingDisk {
    ghost use Rattle.std.specs.Prelude.{◌≡◌, ◌↔◌, ◌+◌, ◌≤◌, length, true, IsOk, OnOk, OnErr};
    ghost use Rattle.dr_disk.specs.declared.call.Call.TheVariants.{Write, Sync};
    ghost use Rattle.dr_disk.specs.Bytes.{overwritten_told};
    ghost use Rattle.dr_disk.specs.State.{IsSettled};
    ghost use Rattle.dr_disk.specs.Spans.{GoesBy};
    ghost use Rattle.dr_disk.specs.Calls.{Unwritten, WrittenIn, LeavesWritten, LeavesSame, Goes, HasFault, HasNotRead};
    ghost use Rattle.dr_disk.specs.RecordingDisks.{HasRoom, recording_lawful_of, recording_state_of};

    ghost state = { recording_state_of };

    ghost lawful = { recording_lawful_of };

    fn size(&self) -> u64 {
        self.platter.bytes.len() as u64
    }

    fn read(&mut self, at: u64, into: &mut [u8]) -> Result<(), Failed> {
        count_passed(&mut self.tried);
        self.platter.read(at as usize, into);
        Ok(())
    }

    fn end(&mut self) -> Result<u64, Failed> {
        count_passed(&mut self.tried);
        Ok(self.platter.bytes.len() as u64)
    }

    fn write_at(&mut self, at: u64, bytes: &[u8]) -> Result<(), Failed>
        requires { at + length bytes.now ≤ (recording_state_of self.old).size }
        ensures written { OnOk result ((recording_state_of self.new).seen ≡
            overwritten_told (recording_state_of self.old).seen at bytes.now) }
        ensures passes { GoesBy (recording_state_of self.old) (recording_state_of self.new) }
        ensures within { WrittenIn at (length bytes.now) (recording_state_of self.old)
            (recording_state_of self.new) }
        ensures leaves { LeavesWritten at bytes.now (recording_state_of self.old)
            (recording_state_of self.new) }
        ensures keeps { OnErr result ((recording_state_of self.old).keeps ≡ true →
            (recording_state_of self.new).seen ≡ (recording_state_of self.old).seen) }
        ensures told { Goes (recording_state_of self.old) (recording_state_of self.new) result }
        ensures unread { HasNotRead (recording_state_of self.old) (recording_state_of self.new) }
        ensures cause { HasFault Write (recording_state_of self.old)
            (recording_state_of self.new) result }
        ensures exact { IsOk result ↔ HasRoom (length bytes.now) self.old }
    {
        if !self.tape.has_room(bytes.len()) {
            self.full = true;
            count_fault(&mut self.writes);
            return Err(Failed);
        }
        self.tape.write(at, bytes);
        self.platter.write(at as usize, bytes);
        count_passed(&mut self.passed);
        Ok(())
    }

    fn sync(&mut self) -> Result<(), Failed>
        ensures settled { OnOk result (IsSettled (recording_state_of self.new)) }
        ensures passes { GoesBy (recording_state_of self.old) (recording_state_of self.new) }
        ensures unwritten { Unwritten (recording_state_of self.old) (recording_state_of self.new) }
        ensures leaves { OnErr result
            (LeavesSame (recording_state_of self.old) (recording_state_of self.new)) }
        ensures told { Goes (recording_state_of self.old) (recording_state_of self.new) result }
        ensures unread { HasNotRead (recording_state_of self.old) (recording_state_of self.new) }
        ensures cause { HasFault Sync (recording_state_of self.old)
            (recording_state_of self.new) result }
        ensures exact { IsOk result ↔ HasRoom 0 self.old }
    {
        if !self.tape.has_room(0) {
            count_fault(&mut self.syncs);
            return Err(Failed);
        }
        self.tape.sync();
        self.platter.settle();
        count_passed(&mut self.passed);
        Ok(())
    }
}
