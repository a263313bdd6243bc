//! The traits of the ports.

ghost use Rattle.dr_ports.specs.States.{SourceState, SinkState, DrawsState};
ghost use Rattle.dr_ports.specs.Reading.{Reads};
ghost use Rattle.dr_ports.specs.Writing.{WritesSome};
ghost use Rattle.dr_ports.specs.Drawing.{DrawsSeed};

use dr_base::{Failed, Key32};

/// Where bytes come from.
pub trait Source {
    /// How the source stands.
    ghost at: { Self → SourceState };

    /// Reads the next bytes into the beginning of `into`, and answers how many. Into a piece that
    /// isn't empty it answers 0 only at the end.
    fn read(&mut self, into: &mut [u8]) -> Result<usize, Failed>
        ensures { Reads (at self.old) (at self.new) into.old into.new result };
}

/// Where bytes go.
pub trait Sink {
    /// How the sink stands.
    ghost at: { Self → SinkState };

    /// Takes a beginning of `bytes`, of a piece that isn't empty at least one, and answers how many
    /// it took.
    fn write(&mut self, bytes: &[u8]) -> Result<usize, Failed>
        ensures { WritesSome (at self.old) (at self.new) bytes.now result };
}

/// Where fresh seeds come from.
pub trait Draws {
    /// How the draws stand.
    ghost at: { Self → DrawsState };

    /// The next seed.
    fn draw(&mut self) -> Result<Key32, Failed>
        ensures { DrawsSeed (at self.old) (at self.new) result };
}
