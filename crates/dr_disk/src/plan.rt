//! What a disk in memory is told of its next writes and syncs.

ghost use Rattle.std.specs.Prelude.{◌≡◌, ◌≤◌, ◌+◌, ℕ, Some, true, false};
ghost use Rattle.dr_disk.specs.Calls.{after_call, passes_next, read_passes};
ghost use Rattle.dr_disk.specs.Metered.{IsCounted, fate_of};

/// How the next writes and syncs go.
#[derive(Clone, Copy)]
pub enum Plan {
    /// All pass.
    Passing,
    /// This many pass, and then every call fails.
    Stopping(u64),
    /// This many pass, then one fails, and from then on all pass.
    Failing(u64),
}

/// Takes one off what is left. False: there is none.
fn take_one(left: &mut u64) -> bool
    ensures some { result ≡ true → left.old ≡ left.new + 1 }
    ensures none { result ≡ false → left.old ≡ 0 }
    ensures same { result ≡ false → left.new ≡ 0 }
{
    if *left == 0 {
        return false;
    }
    *left -= 1;
    true
}

impl Plan {
    /// Whether reads pass.
    pub(crate) fn passes_reads(&self) -> bool
        ensures { read_passes (fate_of self.now) ≡ Some result }
    {
        match self {
            Plan::Stopping(left) => *left != 0,
            _ => true,
        }
    }

    /// Takes off a write or a sync. False: it fails.
    pub(crate) fn take_off(&mut self) -> bool
        ensures fate { fate_of self.new ≡ after_call (fate_of self.old) }
        ensures told { passes_next (fate_of self.old) ≡ Some result }
        ensures passes { (passed now : ℕ) → IsCounted (fate_of self.old) passed → result ≡ true
            → now ≤ passed + 1 → IsCounted (fate_of self.new) now }
        ensures fails { (passed : ℕ) → IsCounted (fate_of self.old) passed → result ≡ false
            → IsCounted (fate_of self.new) passed }
    {
        match self {
            Plan::Passing => true,
            Plan::Stopping(left) => take_one(left),
            Plan::Failing(left) => {
                if take_one(left) {
                    return true;
                }
                *self = Plan::Passing;
                false
            }
        }
    }
}
