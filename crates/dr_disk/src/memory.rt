//! A disk in memory that can be stopped or made to fail once, and that can crash.

ghost use Rattle.std.specs.Prelude.{◌≡◌, ◌≤◌, ◌+◌, ℕ, IfOk, Some};
ghost use Rattle.dr_base.specs.Causes.{one_more};
ghost use Rattle.dr_disk.specs.Memory.{told_count};

use crate::call::Mode;
use crate::disk::Disk;
use crate::meter::Meter;
use crate::platter::Platter;
use dr_base::Failed;
use std::alloc::{AllocError, Global};

/// A disk in memory. It tells what reads give, what a crash of each kind would leave, how many
/// reads were made, and how many writes and syncs have passed since it was made or was last told
/// to stop or to fail. Until then no call fails.
#[derive(Drop)]
pub struct MemoryDisk {
    pub(crate) platter: Platter,
    pub(crate) meter: Meter,
    reads: u64,
    writes: u64,
    syncs: u64,
    tried: u64,
}

/// Counts a call that failed, up to the end of the count's type.
pub fn count_fault(count: &mut u64)
    ensures value { count.new ≡ one_more count.old }
    ensures no_less { count.old ≤ count.new }
{
    *count = count.saturating_add(1);
}

/// Counts a write or a sync that passed, or a read that was made.
pub(crate) fn count_passed(passed: &mut u64)
    ensures one { (m : ℕ) → told_count passed.new ≡ Some m → (l : ℕ)
        × (told_count passed.old ≡ Some l) × (m ≡ l + 1) }
    ensures no_less { passed.old ≤ passed.new }
    ensures no_more { passed.new ≤ passed.old + 1 }
{
    *passed = passed.saturating_add(1);
}

impl MemoryDisk {
    ghost use Rattle.dr_disk.specs.MemoryDisks.{IsBlank, IsLeftBy, state_of, stopped_after, failing_at, going_on};
    ghost use Rattle.dr_disk.specs.State.{to_failure};

    /// A disk of this many zeros, with all the memory that it will ever use.
    pub fn new(alloc: Global, size: u64) -> Result<MemoryDisk, AllocError>
        ensures { IfOk result (λ disk. IsBlank size (state_of disk)) }
    {
        Ok(MemoryDisk {
            platter: Platter::new(alloc, size as usize)?,
            meter: Meter::new(),
            reads: 0,
            writes: 0,
            syncs: 0,
            tried: 0,
        })
    }

    /// Lets `k` more writes and syncs pass, which are counted anew. From then on every call fails.
    pub fn stop_after(&mut self, k: u32)
        ensures { self.new ≡ stopped_after k self.old }
    {
        self.meter.stop_after(k);
    }

    /// Lets the `k`-th of the further writes and syncs fail, which are counted anew. The others
    /// pass, and so do reads.
    pub fn fail_at(&mut self, k: u32)
        requires { 1 ≤ k }
        ensures { self.new ≡ failing_at k self.old }
    {
        self.meter.fail_at(k);
    }

    /// Lets all calls pass. A disk with a stop, or with a failure to come, has told how many have
    /// passed.
    pub fn go_on(&mut self)
        ensures lifted { self.new ≡ going_on self.old }
        ensures told { (n : ℕ) → to_failure (state_of self.old).fate ≡ Some n
            → (m : ℕ) × ((state_of self.old).passed ≡ Some m) }
    {
        self.meter.go_on();
    }

    /// The disk after a crash of this kind, all of whose calls pass. One with a stop, or with a
    /// failure to come, has told how many have passed.
    pub fn crash(self, mode: Mode) -> MemoryDisk
        ensures left { IsLeftBy mode (state_of self) (state_of result) }
        ensures told { (n : ℕ) → to_failure (state_of self).fate ≡ Some n
            → (m : ℕ) × ((state_of self).passed ≡ Some m) }
    {
        let MemoryDisk {
            platter,
            meter,
            reads,
            writes,
            syncs,
            tried,
        } = self;
        MemoryDisk {
            platter: platter.crash(mode),
            meter: meter.lifted(),
            reads,
            writes,
            syncs,
            tried,
        }
    }
}

impl Disk for MemoryDisk {
    ghost use Rattle.dr_disk.specs.Memory.{Counts};
    ghost use Rattle.dr_disk.specs.MemoryDisks.{state_of};
    ghost use Rattle.dr_disk.specs.MemoryLaws.{memory_lawful};

    ghost state = { state_of };

    ghost lawful = { λ m. memory_lawful m.platter.bytes.items m.platter.durable.items m.platter.asked.items
        m.platter.marks.items m.meter.fate m.meter.passed
        (record { reads = m.reads; writes = m.writes; syncs = m.syncs; tried = m.tried })
        m.platter.agrees m.platter.asks m.platter.one_mark_each };

    fn size(&self) -> u64 {
        self.platter.bytes.len() as u64
    }

    fn read(&mut self, at: u64, into: &mut [u8]) -> Result<(), Failed> {
        count_passed(&mut self.tried);
        if !self.meter.passes_reads() {
            count_fault(&mut self.reads);
            return Err(Failed);
        }
        self.platter.read(at as usize, into);
        Ok(())
    }

    fn end(&mut self) -> Result<u64, Failed> {
        count_passed(&mut self.tried);
        if !self.meter.passes_reads() {
            count_fault(&mut self.reads);
            return Err(Failed);
        }
        Ok(self.platter.bytes.len() as u64)
    }

    fn write_at(&mut self, at: u64, bytes: &[u8]) -> Result<(), Failed> {
        if !self.meter.passes() {
            self.platter.ask(at as usize, bytes);
            count_fault(&mut self.writes);
            return Err(Failed);
        }
        self.platter.write(at as usize, bytes);
        Ok(())
    }

    fn sync(&mut self) -> Result<(), Failed> {
        if !self.meter.passes() {
            count_fault(&mut self.syncs);
            return Err(Failed);
        }
        self.platter.settle();
        Ok(())
    }
}
