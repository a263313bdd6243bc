//! Sinks in memory.

ghost use Rattle.std.specs.Prelude.{◌≡◌, ◌≤◌, [], length, vec_len, vec_capacity, None, Ok, IfOk};
ghost use Rattle.dr_ports.specs.Writing.{WritesSome};
ghost use Rattle.dr_ports.specs.Memory.{Taking, FillsUp, planned, sink_at};

use crate::memory::plan::CallPlan;
use crate::port::Sink;
use dr_base::Failed;
use std::alloc::{AllocError, Global};
use std::marker::Model;

/// A sink with a stated room. It fails at the calls that its plan names, and where it has no room
/// for the first byte.
#[derive(Drop)]
pub struct MemorySink {
    bytes: Vec<u8>,
    room: usize,
    plan: CallPlan,
}

impl Model for MemorySink {
    ghost Value = { Taking };

    ghost view = { λ s. record { taken = s.bytes.items; room = s.room; plan = s.plan } };

    ghost invariant = { λ s. (vec_len s.bytes ≤ s.room) × (s.room ≤ vec_capacity s.bytes) };
}

impl MemorySink {
    /// An empty sink with room for this many bytes, which fails at the calls of these numbers,
    /// counted from 1.
    pub fn new(alloc: Global, room: usize, fails: &[u64]) -> Result<Self, AllocError>
        ensures { IfOk result (λ sink.
            sink ≡ record { taken = []; room = room; plan = planned fails.now }) }
    {
        Ok(MemorySink {
            bytes: Vec::with_capacity(alloc, room)?,
            room,
            plan: CallPlan::new(alloc, fails)?,
        })
    }

    /// The bytes taken so far.
    pub fn taken(&self) -> &[u8]
        ensures { result.now ≡ self.now.taken }
    {
        self.bytes.as_slice()
    }
}

impl Sink for MemorySink {
    ghost at = { sink_at };

    fn write(&mut self, bytes: &[u8]) -> Result<usize, Failed>
        ensures writes { WritesSome (sink_at self.old) (sink_at self.new) bytes.now result }
        ensures fills { FillsUp self.old self.new bytes.now result }
    {
        let is_due = self.plan.begin_call();
        let left = self.room - self.bytes.len();
        if is_due || left == 0 && !bytes.is_empty() {
            self.plan.count_fault();
            return Err(Failed);
        }
        let count = bytes.len().min(left);
        self.bytes.extend_from_slice(&bytes[..count]).unwrap();
        Ok(count)
    }
}

/// A sink that never fails and keeps nothing.
#[derive(Clone, Copy)]
pub struct NullSink;

impl NullSink {
    /// The sink that keeps nothing.
    pub fn new() -> NullSink {
        NullSink
    }
}

impl Sink for NullSink {
    ghost at = { λ _. record { taken = None; faults = 0 } };

    fn write(&mut self, bytes: &[u8]) -> Result<usize, Failed>
        ensures { result ≡ Ok (length bytes.now) }
    {
        Ok(bytes.len())
    }
}
