//! The traits of connections: pipes, links and doors.

ghost use Rattle.std.specs.Prelude.{◌≡◌, List, ℕ, IfSome};
ghost use Rattle.dr_ports.specs.Wires.{Port, IsAhead};
ghost use Rattle.dr_ports.specs.Calls.{Receives, Sends, Opens, Listens, Accepts, HangsUp};

use dr_base::Failed;

/// Which calls a port counts faults of.
#[derive(Clone, Copy)]
pub enum Part {
    /// Receiving and sending.
    Flow,
    /// Opening, listening and accepting.
    Gate,
}

/// How the connection of a port stands.
#[derive(Clone, Copy)]
pub enum Stand {
    /// None has begun.
    Unbegun,
    /// It stands.
    Up,
    /// It has ended, after it gave and took this many bytes.
    Ended {
        /// How many it gave.
        received: usize,
        /// How many it took.
        sent: usize,
    },
}

/// Where bytes come from and go to.
pub trait Pipe {
    /// What the pipe tells.
    ghost port: { Self → Port };

    /// What stands behind the pipe.
    ghost Behind: { Type 0 };

    /// What stands behind it once these bytes were sent.
    ghost behind: { Self → List ℕ → Behind };

    /// Gives the next bytes into the beginning of `into`, and answers how many. Into a piece that
    /// isn't empty it answers 0 only at the end.
    fn receive(&mut self, into: &mut [u8]) -> Result<usize, Failed>
        ensures { Receives (port self.old) (port self.new) (behind self.old) (behind self.new)
            into.old into.new result };

    /// Takes a beginning of `bytes`, of a piece that isn't empty at least one, and answers how many
    /// it took.
    fn send(&mut self, bytes: &[u8]) -> Result<usize, Failed>
        ensures { Sends (port self.old) (port self.new) (behind self.old) (behind self.new)
            bytes.now result };

    // What it gave is a beginning of what it gives.
    ghost ahead: { (pipe : Self) → IfSome (port pipe).told (λ t. IsAhead t.now) };
}

/// A pipe to an address.
pub trait Link: Pipe {
    /// Connects to an address. Where that fails, no connection has begun or ended.
    fn open(&mut self, address: &str) -> Result<(), Failed>
        ensures { Opens (Self.port self.old) (Self.port self.new) (Self.behind self.old)
            (Self.behind self.new) address.now result };

    /// Ends the connection, if it stands.
    fn shut(&mut self)
        ensures shuts { HangsUp (Self.port self.old) (Self.port self.new) }
        ensures same { Self.behind self.new ≡ Self.behind self.old };
}

/// Where connections come in. Its pipe is the connection that was accepted last.
pub trait Door: Pipe {
    /// Waits for connections at a port. Where that fails, it waits where it did.
    fn listen(&mut self, at: u16) -> Result<(), Failed>
        ensures { Listens (Self.port self.old) (Self.port self.new) at result };

    /// Takes the next connection, which stands then.
    fn accept(&mut self) -> Result<(), Failed>
        ensures { Accepts (Self.port self.old) (Self.port self.new) result };

    /// Ends the connection, if it stands.
    fn shut(&mut self)
        ensures { HangsUp (Self.port self.old) (Self.port self.new) };
}
