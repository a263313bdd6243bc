//! A disk in memory that never fails.

ghost use Rattle.std.specs.Prelude.{◌≡◌, ℕ, IfOk};

use crate::disk::Disk;
use crate::memory::count_passed;
use crate::platter::Platter;
use dr_base::Failed;
use std::alloc::{AllocError, Global};

/// A disk in memory of which no call ever fails. It tells what a `MemoryDisk` tells.
#[derive(Drop)]
pub struct SteadyDisk {
    pub(crate) platter: Platter,
    passed: u64,
    tried: u64,
}

impl SteadyDisk {
    ghost use Rattle.dr_disk.specs.MemoryDisks.{IsBlank};
    ghost use Rattle.dr_disk.specs.SteadyDisks.{steady_state_of};

    /// A disk of this many zeros, with all the memory that it will ever use.
    pub fn new(alloc: Global, size: u64) -> Result<SteadyDisk, AllocError>
        ensures { IfOk result (λ disk. IsBlank size (steady_state_of disk)) }
    {
        Ok(SteadyDisk {
            platter: Platter::new(alloc, size as usize)?,
            passed: 0,
            tried: 0,
        })
    }
}

impl Disk for SteadyDisk {
    ghost use Rattle.dr_disk.specs.Memory.{no_faults};
    ghost use Rattle.dr_disk.specs.MemoryLaws.{memory_lawful};
    ghost use Rattle.dr_disk.specs.State.{all_pass};
    ghost use Rattle.dr_disk.specs.SteadyDisks.{steady_state_of};

    ghost state = { steady_state_of };

    ghost lawful = { λ d. memory_lawful d.platter.bytes.items d.platter.durable.items d.platter.asked.items
        d.platter.marks.items all_pass d.passed (record no_faults { tried = d.tried })
        d.platter.agrees d.platter.asks d.platter.one_mark_each };

    fn size(&self) -> u64 {
        self.platter.bytes.len() as u64
    }

    fn read(&mut self, at: u64, into: &mut [u8]) -> Result<(), Failed> {
        count_passed(&mut self.tried);
        self.platter.read(at as usize, into);
        Ok(())
    }

    fn end(&mut self) -> Result<u64, Failed> {
        count_passed(&mut self.tried);
        Ok(self.platter.bytes.len() as u64)
    }

    fn write_at(&mut self, at: u64, bytes: &[u8]) -> Result<(), Failed> {
        self.platter.write(at as usize, bytes);
        count_passed(&mut self.passed);
        Ok(())
    }

    fn sync(&mut self) -> Result<(), Failed> {
        self.platter.settle();
        count_passed(&mut self.passed);
        Ok(())
    }
}
