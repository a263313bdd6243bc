//! A link in memory: a pipe that opening stands before.

ghost use Rattle.std.specs.Prelude.{◌≡◌, ◌≤◌, [], ◌++◌, vec_capacity, IfOk};
ghost use Rattle.dr_ports.specs.declared.pipe.Stand.TheVariants.{Unbegun};
ghost use Rattle.dr_ports.specs.declared.memory.link.TheConstants.{ADDRESS_LIMIT};
ghost use Rattle.dr_ports.specs.Calls.{Receives, Sends, Opens, HangsUp};
ghost use Rattle.dr_ports.specs.MemoryWires.{Linking, GivesMost, TakesMost, PlaysOpening, fresh, is_ahead, nobody, link_port_of};

use crate::memory::pipe::MemoryPipe;
use crate::pipe::{Link, Pipe, Stand};
use dr_base::Failed;
use std::alloc::{AllocError, Global};
use std::marker::Model;

/// How many bytes an address has at most: a name of 255, a colon and a port.
pub const ADDRESS_LIMIT: usize = 261;

/// A link that holds bytes, whatever its address, and takes bytes into a stated room. Its plan
/// counts openings, receives and sends together. It remembers where it connected, and opening fails
/// at an address that has more bytes than `ADDRESS_LIMIT`.
#[derive(Drop)]
pub struct MemoryLink {
    pipe: MemoryPipe,
    address: Vec<u8>,
    stand: Stand,
    faults: u64,
}

impl Model for MemoryLink {
    ghost Value = { Linking };

    ghost view = { λ l. record { pipe = l.pipe; address = l.address.items; stand = l.stand; faults = l.faults } };

    ghost invariant = { λ l. ADDRESS_LIMIT ≤ vec_capacity l.address };
}

impl MemoryLink {
    /// A link that holds a copy of these bytes, has room for this many to be sent, and fails at the
    /// calls of these numbers, counted from 1.
    pub fn new(alloc: Global, bytes: &[u8], room: usize, fails: &[u64]) -> Result<Self, AllocError>
        ensures { IfOk result (λ link. link ≡ record {
          pipe = fresh bytes.now bytes.now room fails.now;
          address = [];
          stand = Unbegun;
          faults = 0;
        }) }
    {
        Ok(MemoryLink {
            pipe: MemoryPipe::new(alloc, bytes, room, fails)?,
            address: Vec::with_capacity(alloc, ADDRESS_LIMIT)?,
            stand: Stand::Unbegun,
            faults: 0,
        })
    }

    /// All bytes that it took.
    pub fn sent(&self) -> &[u8]
        ensures { result.now ≡ self.now.pipe.before ++ self.now.pipe.sent }
    {
        self.pipe.sent()
    }

    /// The address that it connected to last; before the first connection it has no bytes.
    pub fn address(&self) -> &[u8]
        ensures { result.now ≡ self.now.address }
    {
        self.address.as_slice()
    }

    /// How its connection stands.
    pub fn stand(&self) -> Stand
        ensures { result ≡ self.now.stand }
    {
        self.stand
    }
}

impl Pipe for MemoryLink {
    ghost port = { link_port_of };

    ghost Behind = { Unit {0} };

    ghost behind = { λ l. nobody l };

    ghost ahead = { λ l. is_ahead l.pipe };

    fn receive(&mut self, into: &mut [u8]) -> Result<usize, Failed>
        ensures receives { Receives (link_port_of self.old) (link_port_of self.new)
            (nobody self.old)
            (nobody self.new) into.old into.new result }
        ensures gives { GivesMost self.old.pipe self.new.pipe into.old result }
    {
        self.pipe.receive(into)
    }

    fn send(&mut self, bytes: &[u8]) -> Result<usize, Failed>
        ensures sends { Sends (link_port_of self.old) (link_port_of self.new) (nobody self.old)
            (nobody self.new) bytes.now result }
        ensures takes { TakesMost self.old.pipe self.new.pipe bytes.now result }
    {
        self.pipe.send(bytes)
    }
}

impl Link for MemoryLink {
    fn open(&mut self, address: &str) -> Result<(), Failed>
        ensures opens { Opens (link_port_of self.old) (link_port_of self.new) (nobody self.old)
            (nobody self.new) address.now result }
        ensures plays { PlaysOpening self.old self.new address.now result }
    {
        let is_due = self.pipe.begin_call();
        if is_due || address.len() > ADDRESS_LIMIT {
            self.faults = self.faults.saturating_add(1);
            return Err(Failed);
        }
        self.address.clear();
        self.address.extend_from_slice(address.as_bytes()).unwrap();
        self.stand = Stand::Up;
        Ok(())
    }

    fn shut(&mut self)
        ensures shuts { HangsUp (link_port_of self.old) (link_port_of self.new) }
        ensures same { nobody self.new ≡ nobody self.old }
        ensures stays { self.new ≡ record self.old { stand = self.new.stand } }
    {
        self.stand = self.pipe.ended(self.stand);
    }
}
