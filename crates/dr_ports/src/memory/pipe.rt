//! A pipe in memory: what it gives and takes is told, and it fails exactly where it is told to.

ghost use Rattle.std.specs.Prelude.{◌≡◌, ◌↔◌, ◌+◌, ◌-◌, ◌≤◌, min, ◌++◌, length, vec_len, vec_capacity, take, drop, IfOk, IsTrue};
ghost use Rattle.dr_ports.specs.Memory.{IsDue};
ghost use Rattle.dr_ports.specs.Wires.{ended_by};
ghost use Rattle.dr_ports.specs.Calls.{Receives, Sends};
ghost use Rattle.dr_ports.specs.MemoryWires.{Flowing, GivesMost, TakesMost, called, fresh, gone_on, is_ahead, nobody, port_of, wire_of};

use crate::memory::plan::CallPlan;
use crate::memory::source::copy_part;
use crate::pipe::{Pipe, Stand};
use dr_base::Failed;
use std::alloc::{AllocError, Global};
use std::marker::Model;

/// A pipe that holds bytes, and takes bytes into a stated room. It fails at the calls that its plan
/// names, and where it has no room for the first byte.
#[derive(Drop)]
pub struct MemoryPipe {
    bytes: Vec<u8>,
    start: usize,
    end: usize,
    at: usize,
    taken: Vec<u8>,
    mark: usize,
    room: usize,
    plan: CallPlan,
}

impl Model for MemoryPipe {
    ghost Value = { Flowing };

    ghost view = { λ p. record {
      all = p.bytes.items;
      held = take (p.end - p.start) (drop p.start p.bytes.items);
      at = p.at;
      before = take p.mark p.taken.items;
      sent = drop p.mark p.taken.items;
      room = p.room;
      plan = p.plan;
    } };

    ghost invariant = { λ p. (p.end ≤ vec_len p.bytes) × (p.start + p.at ≤ p.end) × (p.mark ≤ vec_len p.taken) × (vec_len p.taken ≤ p.room) × (p.room ≤ vec_capacity p.taken) };
}

impl MemoryPipe {
    /// A pipe that holds a copy of these bytes, has room for this many to be sent, and fails at the
    /// calls of these numbers, counted from 1.
    pub fn new(alloc: Global, bytes: &[u8], room: usize, fails: &[u64]) -> Result<Self, AllocError>
        ensures { IfOk result (λ pipe. pipe ≡ fresh bytes.now bytes.now room fails.now) }
    {
        Ok(MemoryPipe {
            bytes: Vec::from_slice(alloc, bytes)?,
            start: 0,
            end: bytes.len(),
            at: 0,
            taken: Vec::with_capacity(alloc, room)?,
            mark: 0,
            room,
            plan: CallPlan::new(alloc, fails)?,
        })
    }

    /// All bytes that it took.
    pub fn sent(&self) -> &[u8]
        ensures { result.now ≡ self.now.before ++ self.now.sent }
    {
        self.taken.as_slice()
    }

    /// Goes on to another connection, which holds the bytes between these places.
    pub fn go_on(&mut self, start: usize, end: usize)
        requires order { start ≤ end }
        requires within { end ≤ length self.old.all }
        ensures { self.new ≡ gone_on (take (end - start) (drop start self.old.all)) self.old }
    {
        self.start = start;
        self.end = end;
        self.at = 0;
        self.mark = self.taken.len();
    }

    /// Counts a call, and says whether it is to fail.
    pub fn begin_call(&mut self) -> bool
        ensures due { IsTrue result ↔ IsDue self.old.plan }
        ensures counted { self.new ≡ called self.old }
    {
        self.plan.begin_call()
    }

    /// How a connection stands that stood so, once it is ended.
    pub fn ended(&self, stand: Stand) -> Stand
        ensures { result ≡ ended_by (wire_of self.now) stand }
    {
        match stand {
            Stand::Up => Stand::Ended {
                received: self.at,
                sent: self.taken.len() - self.mark,
            },
            _ => stand,
        }
    }

    // how many more bytes it has room for
    fn left(&self) -> usize
        ensures exact { result ≡ self.now.room - length (self.now.before ++ self.now.sent) }
        ensures fits { length (self.now.before ++ self.now.sent) ≤ self.now.room }
    {
        self.room - self.taken.len()
    }

    // gives as many bytes as the piece has room for
    fn give(&mut self, into: &mut [u8]) -> usize
        ensures count { result ≡ min (length into.old) (length self.old.held - self.old.at) }
        ensures given { take result into.new ≡ take result (drop self.old.at self.old.held) }
        ensures gave { self.new ≡ record self.old { at = self.old.at + result } }
        ensures within { self.old.at ≤ length self.old.held }
    {
        let left = self.end - self.start - self.at;
        let count = into.len().min(left);
        copy_part(&self.bytes[self.start..self.end], self.at, count, into);
        self.at += count;
        count
    }
}

impl Pipe for MemoryPipe {
    ghost port = { port_of };

    ghost Behind = { Unit {0} };

    ghost behind = { λ p. nobody p };

    ghost ahead = { λ p. is_ahead p };

    fn receive(&mut self, into: &mut [u8]) -> Result<usize, Failed>
        ensures receives { Receives (port_of self.old) (port_of self.new) (nobody self.old)
            (nobody self.new) into.old into.new result }
        ensures gives { GivesMost self.old self.new into.old result }
    {
        if self.plan.begin_call() {
            self.plan.count_fault();
            return Err(Failed);
        }
        Ok(self.give(into))
    }

    fn send(&mut self, bytes: &[u8]) -> Result<usize, Failed>
        ensures sends { Sends (port_of self.old) (port_of self.new) (nobody self.old)
            (nobody self.new) bytes.now result }
        ensures takes { TakesMost self.old self.new bytes.now result }
    {
        let is_due = self.plan.begin_call();
        let left = self.left();
        if is_due || left == 0 && !bytes.is_empty() {
            self.plan.count_fault();
            return Err(Failed);
        }
        let count = bytes.len().min(left);
        self.taken.extend_from_slice(&bytes[..count]).unwrap();
        Ok(count)
    }
}
