//! Draws in memory: seeds that were handed in, given in turn.

ghost use Rattle.std.specs.Prelude.{◌≡◌, ◌+◌, ◌%◌, ◌<◌, [], ◌∷◌, length, vec_len, IfOk, IsOk};
ghost use Rattle.dr_ports.specs.Drawing.{DrawsSeed};
ghost use Rattle.dr_ports.specs.Memory.{Drawing, Turning, IsDue, IsPlayed, coming_of, draws_at, planned, turning_at};
ghost use Rattle.dr_ports.specs.Seeds.{seeds_before};

use crate::memory::plan::CallPlan;
use crate::port::Draws;
use dr_base::{Failed, Key32};
use std::alloc::{AllocError, Global};
use std::marker::Model;

/// Draws that never fail: the seeds in turn, from the first again after the last.
#[derive(Drop)]
pub struct SteadyDraws {
    seeds: Vec<Key32>,
    at: usize,
}

impl Model for SteadyDraws {
    ghost Value = { Turning };

    ghost view = { λ d. record { seeds = d.seeds.items; at = d.at } };

    ghost invariant = { λ d. d.at < vec_len d.seeds };
}

/// A copy of a seed.
fn copy_of(seed: &Key32) -> Key32
    ensures { result ≡ seed.now }
{
    Key32 { bytes: seed.bytes }
}

impl SteadyDraws {
    /// Draws of copies of these seeds.
    pub fn new(alloc: Global, seeds: &[Key32]) -> Result<Self, AllocError>
        requires { 0 < length seeds.now }
        ensures { IfOk result (λ draws. draws ≡ record { seeds = seeds.now; at = 0 }) }
    {
        let mut copies = Vec::with_capacity(alloc, seeds.len())?;
        'seeds: for seed in seeds {
            copies.push(copy_of(seed))?;
        }
        Ok(SteadyDraws {
            seeds: copies,
            at: 0,
        })
    }

    /// Gives the next seed.
    fn give(&mut self) -> Key32
        ensures given { coming_of self.old ≡ seeds_before (result.bytes ∷ []) (coming_of self.new) }
        ensures list { self.new.seeds ≡ self.old.seeds }
        ensures next { self.new.at ≡ (self.old.at + 1) % length self.old.seeds }
    {
        let seed = copy_of(&self.seeds[self.at]);
        self.at = (self.at + 1) % self.seeds.len();
        seed
    }
}

impl Draws for SteadyDraws {
    ghost at = { turning_at };

    fn draw(&mut self) -> Result<Key32, Failed>
        ensures draws { DrawsSeed (turning_at self.old) (turning_at self.new) result }
        ensures list { self.new.seeds ≡ self.old.seeds }
        ensures never_fails { IsOk result }
    {
        Ok(self.give())
    }
}

/// Draws that fail at the calls that their plan names, and give the seeds in turn at the others.
#[derive(Drop)]
pub struct MemoryDraws {
    seeds: SteadyDraws,
    plan: CallPlan,
}

impl Model for MemoryDraws {
    ghost Value = { Drawing };

    ghost view = { λ d. record { turning = d.seeds; plan = d.plan } };
}

impl MemoryDraws {
    /// Draws of copies of these seeds, which fail at the calls of these numbers, counted from 1.
    pub fn new(alloc: Global, seeds: &[Key32], fails: &[u64]) -> Result<Self, AllocError>
        requires { 0 < length seeds.now }
        ensures { IfOk result (λ draws. draws ≡ record {
          turning = record { seeds = seeds.now; at = 0 };
          plan = planned fails.now;
        }) }
    {
        Ok(MemoryDraws {
            seeds: SteadyDraws::new(alloc, seeds)?,
            plan: CallPlan::new(alloc, fails)?,
        })
    }
}

impl Draws for MemoryDraws {
    ghost at = { draws_at };

    fn draw(&mut self) -> Result<Key32, Failed>
        ensures draws { DrawsSeed (draws_at self.old) (draws_at self.new) result }
        ensures played { IsPlayed (IsDue self.old.plan) self.old.plan self.new.plan result }
        ensures seeds { self.new.turning.seeds ≡ self.old.turning.seeds }
    {
        if self.plan.begin_call() {
            self.plan.count_fault();
            return Err(Failed);
        }
        Ok(self.seeds.give())
    }
}
