//! How many writes and syncs of a disk have passed, and how the next ones go.

ghost use Rattle.std.specs.Prelude.{◌≡◌, ◌≤◌, ◌+◌, ◌-◌, ℕ, Some, true, false};
ghost use Rattle.dr_disk.specs.Calls.{after_call, passes_next, read_passes};
ghost use Rattle.dr_disk.specs.Memory.{told_count};
ghost use Rattle.dr_disk.specs.Metered.{Metered};
ghost use Rattle.dr_disk.specs.State.{all_but, all_pass, some_pass, to_failure};

use crate::memory::count_passed;
use crate::plan::Plan;
use std::marker::Model;

/// How the next writes and syncs go, and how many have passed. While one is told to fail, that
/// count doesn't come to its end.
#[derive(Drop)]
pub struct Meter {
    plan: Plan,
    passed: u64,
}

impl Model for Meter {
    ghost use Rattle.dr_disk.specs.Metered.{IsCounted, Metered, fate_of};

    ghost Value = { Metered };

    ghost view = { λ m. record { fate = fate_of m.plan; passed = m.passed } };

    ghost invariant = { λ m. IsCounted (fate_of m.plan) m.passed };
}

impl Meter {
    /// All pass, and none has passed.
    pub(crate) fn new() -> Meter
        ensures { result ≡ record { fate = all_pass; passed = 0 } }
    {
        Meter {
            plan: Plan::Passing,
            passed: 0,
        }
    }

    /// Lets this many more pass, which are counted anew, and then no call.
    pub(crate) fn stop_after(&mut self, k: u32)
        ensures { self.new ≡ record { fate = some_pass k; passed = 0 } }
    {
        self.plan = Plan::Stopping(k as u64);
        self.passed = 0;
    }

    /// Lets the `k`-th of those to come fail, which are counted anew, and the others pass.
    pub(crate) fn fail_at(&mut self, k: u32)
        requires { 1 ≤ k }
        ensures { self.new ≡ record { fate = all_but (k - 1); passed = 0 } }
    {
        self.plan = Plan::Failing(k as u64 - 1);
        self.passed = 0;
    }

    /// Lets all pass. Where one was told to fail, the count is told.
    pub(crate) fn go_on(&mut self)
        ensures value { self.new ≡ record self.old { fate = all_pass } }
        ensures told { (n : ℕ) → to_failure self.old.fate ≡ Some n
            → told_count self.old.passed ≡ Some self.old.passed }
    {
        self.plan = Plan::Passing;
    }

    /// The same count, and all pass. Where one was told to fail, the count is told.
    pub(crate) fn lifted(self) -> Meter
        ensures value { result ≡ record self { fate = all_pass } }
        ensures told { (n : ℕ) → to_failure self.fate ≡ Some n
            → told_count self.passed ≡ Some self.passed }
    {
        Meter {
            plan: Plan::Passing,
            passed: self.passed,
        }
    }

    /// Whether reads pass. Where one was told to fail, the count is told.
    pub(crate) fn passes_reads(&self) -> bool
        ensures told { read_passes self.now.fate ≡ Some result }
        ensures counted { (n : ℕ) → to_failure self.now.fate ≡ Some n
            → told_count self.now.passed ≡ Some self.now.passed }
    {
        self.plan.passes_reads()
    }

    /// Whether the next write or sync passes; it is counted then. Where one was told to fail, the
    /// count is told.
    pub(crate) fn passes(&mut self) -> bool
        ensures fate { self.new.fate ≡ after_call self.old.fate }
        ensures told { passes_next self.old.fate ≡ Some result }
        ensures one { result ≡ true → (m : ℕ) → told_count self.new.passed ≡ Some m →
            (l : ℕ) × (told_count self.old.passed ≡ Some l) × (m ≡ l + 1) }
        ensures stays { result ≡ false → self.new.passed ≡ self.old.passed }
        ensures no_less { self.old.passed ≤ self.new.passed }
        ensures counted { (n : ℕ) → to_failure self.old.fate ≡ Some n
            → told_count self.new.passed ≡ Some self.new.passed }
    {
        if !self.plan.take_off() {
            return false;
        }
        count_passed(&mut self.passed);
        true
    }
}
