//! Sources over bytes in memory.

ghost use Rattle.std.specs.Prelude.{◌≡◌, ℕ, ◌+◌, ◌-◌, ◌≤◌, min, List, length, vec_len, take, drop, IfOk, IsOk};
ghost use Rattle.dr_ports.specs.Reading.{Reads};
ghost use Rattle.dr_ports.specs.Memory.{Holding, IsDue, IsPlayed, planned, source_at, steady_at};

use crate::memory::plan::CallPlan;
use crate::port::Source;
use dr_base::Failed;
use std::alloc::{AllocError, Global};
use std::marker::Model;

/// A source that never fails.
#[derive(Drop)]
pub struct SteadySource {
    bytes: Vec<u8>,
    at: usize,
}

impl Model for SteadySource {
    ghost Value = { List ℕ };

    ghost view = { λ s. drop s.at s.bytes.items };

    ghost invariant = { λ s. s.at ≤ vec_len s.bytes };
}

impl SteadySource {
    /// A source that holds a copy of these bytes.
    pub fn new(alloc: Global, bytes: &[u8]) -> Result<Self, AllocError>
        ensures { IfOk result (λ source. source ≡ bytes.now) }
    {
        Ok(SteadySource {
            bytes: Vec::from_slice(alloc, bytes)?,
            at: 0,
        })
    }

    /// Gives as many of the bytes that are left as the piece has room for.
    fn give(&mut self, into: &mut [u8]) -> usize
        ensures count { result ≡ min (length into.old) (length self.old) }
        ensures given { take result into.new ≡ take result self.old }
        ensures rest { self.new ≡ drop result self.old }
    {
        let left = self.bytes.as_slice().len() - self.at;
        let count = into.len().min(left);
        copy_part(&self.bytes, self.at, count, into);
        self.at += count;
        count
    }
}

/// Copies `count` bytes from a place on to the beginning of a piece.
pub fn copy_part(bytes: &[u8], at: usize, count: usize, into: &mut [u8])
    requires source { at + count ≤ length bytes.now }
    requires room { count ≤ length into.old }
    ensures { take count into.new ≡ take count (drop at bytes.now) }
{
    into[..count].copy_from_slice(&bytes[at..at + count]);
}

impl Source for SteadySource {
    ghost at = { steady_at };

    fn read(&mut self, into: &mut [u8]) -> Result<usize, Failed>
        ensures reads { Reads (steady_at self.old) (steady_at self.new) into.old into.new result }
        ensures never_fails { IsOk result }
    {
        Ok(self.give(into))
    }
}

/// A source that fails at the calls that its plan names, and keeps its bytes there.
#[derive(Drop)]
pub struct MemorySource {
    bytes: SteadySource,
    plan: CallPlan,
}

impl Model for MemorySource {
    ghost Value = { Holding };

    ghost view = { λ s. record { left = s.bytes; plan = s.plan } };
}

impl MemorySource {
    /// A source that holds a copy of these bytes, and fails at the calls of these numbers, counted
    /// from 1.
    pub fn new(alloc: Global, bytes: &[u8], fails: &[u64]) -> Result<Self, AllocError>
        ensures { IfOk result (λ source.
            source ≡ record { left = bytes.now; plan = planned fails.now }) }
    {
        Ok(MemorySource {
            bytes: SteadySource::new(alloc, bytes)?,
            plan: CallPlan::new(alloc, fails)?,
        })
    }
}

impl Source for MemorySource {
    ghost at = { source_at };

    fn read(&mut self, into: &mut [u8]) -> Result<usize, Failed>
        ensures reads { Reads (source_at self.old) (source_at self.new) into.old into.new result }
        ensures played { IsPlayed (IsDue self.old.plan) self.old.plan self.new.plan result }
    {
        if self.plan.begin_call() {
            self.plan.count_fault();
            return Err(Failed);
        }
        Ok(self.bytes.give(into))
    }
}
