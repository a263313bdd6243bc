//! The disk over a file. It tells nothing of its content, and counts each error.

ghost use Rattle.std.specs.Prelude.{◌≡◌, ◌<◌, ◌≤◌, ◌+◌, ◌-◌, min, length};
ghost use Rattle.std.specs.Int.{next_multiple_of};

use crate::handle::Handle;
use crate::opening::Sharing;
use dr_base::Failed;
use dr_disk::{Disk, count_fault};
use std::fs::File;
use std::marker::Model;
use std::rt::Files;

/// A disk over a file, of a stated size. The file is looked for at the first call, and locked until
/// the disk is let go. Where there is none, reads give zeros, and only a write makes it, for its
/// owner alone to read and write. Bytes past the file's end are read as 0. Of two disks that take
/// turns and find no file, the second finds what the first has made.
///
/// The file takes its room in steps: before a write, zeros are written up to the end of the step
/// that the write ends in, where the file ends before that. So a write fails for want of room only
/// where it is the first one of its step, and a file that was to be made and found no room is
/// removed again. Where the disk has a head, the steps begin behind it.
///
/// After a sync that failed a system may take bytes for written that it lost. So the next sync
/// writes each byte of the file anew. A disk with a mark leaves it there for the program that comes
/// next, whose disk does so before it reads.
#[derive(Drop)]
pub struct FileDisk<'a, R: Files<File = File>> {
    handle: Handle<'a, R>,
    size: u64,
    head: u64,
    step: u64,
    reads: u64,
    writes: u64,
    syncs: u64,
}

impl<'a, R: Files<File = File>> Model for FileDisk<'a, R> {
    ghost use Rattle.file_disk.specs.Untold.{Counted};

    ghost Value = { Counted };

    ghost view = { λ d. record { size = d.size; counts = record { reads = d.reads; writes = d.writes; syncs = d.syncs; tried = 0 } } };
}

/// Where the file's room ends once it reaches `end`: at the end of the head or of a step behind it,
/// or of the disk.
fn room_end(head: u64, step: u64, size: u64, end: u64) -> u64
    ensures by_steps { 0 < step → result ≡ min (head + next_multiple_of (end - head) step) size }
    ensures at_once { step ≡ 0 → result ≡ size }
{
    match end.saturating_sub(head).checked_next_multiple_of(step) {
        Some(steps) => head.saturating_add(steps).min(size),
        None => size,
    }
}

impl<'a, R: Files<File = File>> FileDisk<'a, R> {
    ghost use Rattle.dr_disk.specs.Memory.{no_faults};

    /// A disk of `size` bytes over the file at `path`, which takes its room in steps of `step`
    /// bytes, or all of it at once where that is 0. No call is made.
    pub fn new(files: &'a R, path: &'a str, size: u64, step: u64, sharing: Sharing) -> Self
        ensures { result ≡ record { size = size; counts = no_faults } }
    {
        FileDisk {
            handle: Handle::new(files, path, sharing),
            size,
            head: 0,
            step,
            reads: 0,
            writes: 0,
            syncs: 0,
        }
    }

    /// The disk with a mark: an empty file at this path, from a sync that fails to the sync by which
    /// this disk, or the next one over the file, has written each byte anew.
    pub fn with_mark(self, mark: &'a str) -> Self
        ensures { result ≡ self.entry }
    {
        let mut disk = self;
        disk.handle.set_mark(mark);
        disk
    }

    /// The disk with a head of so many bytes, behind which its steps begin.
    pub fn with_head(self, head: u64) -> Self
        ensures { result ≡ self.entry }
    {
        let mut disk = self;
        disk.head = head;
        disk
    }

    /// The disk whose file, where there is one, has all its room from the first call on. So no later
    /// write fails for want of room.
    pub fn whole_at_opening(self) -> Self
        ensures { result ≡ self.entry }
    {
        let mut disk = self;
        let size = disk.size;
        disk.handle.set_whole(size);
        disk
    }
}

impl<'a, R: Files<File = File>> Disk for FileDisk<'a, R> {
    ghost use Rattle.file_disk.specs.Untold.{untold, untold_lawful};

    ghost state = { untold };

    ghost lawful = { untold_lawful };

    fn size(&self) -> u64 {
        self.size
    }

    fn read(&mut self, at: u64, into: &mut [u8]) -> Result<(), Failed> {
        match self.handle.read(at, into) {
            Ok(()) => Ok(()),
            Err(_) => {
                count_fault(&mut self.reads);
                Err(Failed)
            }
        }
    }

    fn end(&mut self) -> Result<u64, Failed> {
        match self.handle.len() {
            Ok(end) => Ok(end),
            Err(_) => {
                count_fault(&mut self.reads);
                Err(Failed)
            }
        }
    }

    fn write_at(&mut self, at: u64, bytes: &[u8]) -> Result<(), Failed> {
        let length = room_end(self.head, self.step, self.size, at + bytes.len() as u64);
        match self.handle.write(at, bytes, length) {
            Ok(()) => Ok(()),
            Err(_) => {
                count_fault(&mut self.writes);
                Err(Failed)
            }
        }
    }

    fn sync(&mut self) -> Result<(), Failed> {
        match self.handle.sync() {
            Ok(()) => Ok(()),
            Err(_) => {
                count_fault(&mut self.syncs);
                Err(Failed)
            }
        }
    }
}
