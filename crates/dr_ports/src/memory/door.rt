//! A door in memory: connections one after the other, out of one list of bytes.

ghost use Rattle.std.specs.Prelude.{◌≡◌, ◌⊎◌, ◌+◌, ◌<◌, ◌≤◌, [], ◌++◌, length, vec_len, None, IfOk};
ghost use Rattle.dr_ports.specs.Memory.{IsDue, IsPlayed, planned};
ghost use Rattle.dr_ports.specs.declared.pipe.Stand.TheVariants.{Unbegun, Up};
ghost use Rattle.dr_ports.specs.Calls.{Receives, Sends, Listens, Accepts, HangsUp};
ghost use Rattle.dr_ports.specs.MemoryWires.{Doorway, AreEnds, GivesMost, TakesMost, connection_of, fresh, gone_on, start_of, is_ahead, nobody, door_port_of};

use crate::memory::pipe::MemoryPipe;
use crate::memory::plan::CallPlan;
use crate::pipe::{Door, Pipe, Stand};
use dr_base::Failed;
use std::alloc::{AllocError, Global};
use std::marker::Model;

/// A door whose connections hold parts of one list of bytes, and take bytes into one stated room.
/// Before the first connection it holds nothing. It remembers the port that it waits at.
#[derive(Drop)]
pub struct MemoryDoor {
    pipe: MemoryPipe,
    ends: Vec<usize>,
    next: usize,
    plan: CallPlan,
    port: Option<u16>,
    stand: Stand,
}

impl Model for MemoryDoor {
    ghost Value = { Doorway };

    ghost view = { λ d. record { pipe = d.pipe; ends = d.ends.items; next = d.next; plan = d.plan; port = d.port; stand = d.stand } };

    ghost invariant = { λ d. (d.next ≤ vec_len d.ends) × AreEnds (length d.pipe.all) 0 d.ends.items };
}

impl MemoryDoor {
    /// A door whose n-th connection holds the bytes up to the n-th end, from the end before it on,
    /// and those past the last end nothing. Listening and accepting fail at the calls of the
    /// numbers `fails`, receiving and sending at those of `pipe_fails`, each counted from 1.
    pub fn new(
        alloc: Global,
        bytes: &[u8],
        ends: &[usize],
        room: usize,
        fails: &[u64],
        pipe_fails: &[u64],
    ) -> Result<Self, AllocError>
        requires { AreEnds (length bytes.now) 0 ends.now }
        ensures { IfOk result (λ door. door ≡ record {
          pipe = fresh bytes.now [] room pipe_fails.now;
          ends = ends.now;
          next = 0;
          plan = planned fails.now;
          port = None;
          stand = Unbegun;
        }) }
    {
        let mut pipe = MemoryPipe::new(alloc, bytes, room, pipe_fails)?;
        pipe.go_on(0, 0);
        Ok(MemoryDoor {
            pipe,
            ends: Vec::from_slice(alloc, ends)?,
            next: 0,
            plan: CallPlan::new(alloc, fails)?,
            port: None,
            stand: Stand::Unbegun,
        })
    }

    /// All bytes that it took, over all connections.
    pub fn sent(&self) -> &[u8]
        ensures { result.now ≡ self.now.pipe.before ++ self.now.pipe.sent }
    {
        self.pipe.sent()
    }

    /// The port that it waits at, if it listened.
    pub fn port(&self) -> Option<u16>
        ensures { result ≡ self.now.port }
    {
        self.port
    }

    /// How the connection stands.
    pub fn stand(&self) -> Stand
        ensures { result ≡ self.now.stand }
    {
        self.stand
    }

    // goes on to the next connection, which stands
    fn go_on(&mut self)
        ensures pipe { let held = connection_of self.old.pipe.all self.old.ends self.old.next in
            self.new.pipe ≡ gone_on held self.old.pipe }
        ensures next { (self.new.next ≡ self.old.next + 1) ⊎ ((self.new.next ≡ self.old.next)
            × (length self.old.ends ≡ self.old.next)) }
        ensures ends { self.new.ends ≡ self.old.ends }
        ensures plan { self.new.plan ≡ self.old.plan }
        ensures port { self.new.port ≡ self.old.port }
        ensures stand { self.new.stand ≡ Up }
    {
        if self.next < self.ends.len() {
            let start = self.start();
            self.pipe.go_on(start, self.ends[self.next]);
            self.next += 1;
        } else {
            self.pipe.go_on(0, 0);
        }
        self.stand = Stand::Up;
    }

    // where the bytes of the next connection begin
    fn start(&self) -> usize
        requires { self.now.next < length self.now.ends }
        ensures { result ≡ start_of self.now.ends self.now.next }
    {
        if self.next == 0 {
            0
        } else {
            self.ends[self.next - 1]
        }
    }
}

impl Pipe for MemoryDoor {
    ghost port = { door_port_of };

    ghost Behind = { Unit {0} };

    ghost behind = { λ d. nobody d };

    ghost ahead = { λ d. is_ahead d.pipe };

    fn receive(&mut self, into: &mut [u8]) -> Result<usize, Failed>
        ensures receives { Receives (door_port_of self.old) (door_port_of self.new)
            (nobody self.old)
            (nobody self.new) into.old into.new result }
        ensures gives { GivesMost self.old.pipe self.new.pipe into.old result }
        ensures stays { self.new ≡ record self.old { pipe = self.new.pipe } }
    {
        self.pipe.receive(into)
    }

    fn send(&mut self, bytes: &[u8]) -> Result<usize, Failed>
        ensures sends { Sends (door_port_of self.old) (door_port_of self.new) (nobody self.old)
            (nobody self.new) bytes.now result }
        ensures takes { TakesMost self.old.pipe self.new.pipe bytes.now result }
        ensures stays { self.new ≡ record self.old { pipe = self.new.pipe } }
    {
        self.pipe.send(bytes)
    }
}

impl Door for MemoryDoor {
    fn listen(&mut self, at: u16) -> Result<(), Failed>
        ensures listens { Listens (door_port_of self.old) (door_port_of self.new) at result }
        ensures played { IsPlayed (IsDue self.old.plan) self.old.plan self.new.plan result }
        ensures stays { self.new ≡ record self.old {
          plan = self.new.plan;
          port = self.new.port;
          stand = self.new.stand;
        } }
    {
        if self.plan.begin_call() {
            self.plan.count_fault();
            return Err(Failed);
        }
        self.port = Some(at);
        self.stand = Stand::Unbegun;
        Ok(())
    }

    fn accept(&mut self) -> Result<(), Failed>
        ensures accepts { Accepts (door_port_of self.old) (door_port_of self.new) result }
        ensures played { IsPlayed (IsDue self.old.plan) self.old.plan self.new.plan result }
        ensures room { self.new.pipe.room ≡ self.old.pipe.room }
        ensures plan { self.new.pipe.plan ≡ self.old.pipe.plan }
    {
        if self.plan.begin_call() {
            self.plan.count_fault();
            return Err(Failed);
        }
        self.go_on();
        Ok(())
    }

    fn shut(&mut self)
        ensures shuts { HangsUp (door_port_of self.old) (door_port_of self.new) }
        ensures stays { self.new ≡ record self.old { stand = self.new.stand } }
    {
        self.stand = self.pipe.ended(self.stand);
    }
}
