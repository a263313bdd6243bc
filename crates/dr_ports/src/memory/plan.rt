//! Which calls of a port in memory are to fail.

ghost use Rattle.std.specs.Prelude.{◌≡◌, ◌↔◌, ◌≤◌, IfOk, IsTrue};
ghost use Rattle.dr_ports.specs.Ports.{one_more};
ghost use Rattle.dr_ports.specs.Memory.{Plan, IsDue, planned};

use std::alloc::{AllocError, Global};
use std::marker::Model;

/// The numbers, from 1, of the calls that are to fail, with a count of the calls and one of the
/// faults. Both counts stop at the end of their type.
#[derive(Drop)]
pub struct CallPlan {
    fails: Vec<u64>,
    calls: u64,
    faults: u64,
}

impl Model for CallPlan {
    ghost Value = { Plan };

    ghost view = { λ p. record { fails = p.fails.items; calls = p.calls; faults = p.faults } };
}

impl CallPlan {
    /// A plan before its first call.
    pub fn new(alloc: Global, fails: &[u64]) -> Result<Self, AllocError>
        ensures { IfOk result (λ plan. plan ≡ planned fails.now) }
    {
        Ok(CallPlan {
            fails: Vec::from_slice(alloc, fails)?,
            calls: 0,
            faults: 0,
        })
    }

    /// Counts a call, and says whether it is to fail.
    pub fn begin_call(&mut self) -> bool
        ensures due { IsTrue result ↔ IsDue self.old }
        ensures counted { self.new ≡ record self.old { calls = one_more self.old.calls } }
    {
        self.calls = self.calls.saturating_add(1);
        self.fails.contains(&self.calls)
    }

    /// Counts a fault.
    pub fn count_fault(&mut self)
        ensures counted { self.new ≡ record self.old { faults = one_more self.old.faults } }
        ensures later { self.old.faults ≤ self.new.faults }
    {
        self.faults = self.faults.saturating_add(1);
    }
}
