//! One connection of a relay.

ghost use Rattle.std.specs.Prelude.{◌≡◌};
ghost use Rattle.relay_server.specs.Durable.{IsServerReady};
ghost use Rattle.relay_command.specs.InTurn.{WasServed};
ghost use Rattle.relay_command.specs.Serving.{entry_standing};
ghost use Rattle.relay_command.specs.Turns.{Turns, broken_as};

use dr_disk::Disk;
use dr_ports::{Door, Failed};
use relay_server::{Ended, ServeFault, Server};

/// How a connection was.
#[derive(Clone, Copy)]
pub(crate) enum Connected {
    /// It ended, after this many replies.
    Ended(u32),
    /// Receiving or sending failed.
    Failed,
}

/// Why no connection more is served.
#[derive(Clone, Copy)]
pub(crate) enum Fault {
    /// None could be accepted.
    Accept,
    /// A call on the disk failed.
    Store,
}

/// What a connection that broke off comes to.
fn broken(fault: ServeFault) -> Result<Connected, Fault>
    ensures { result ≡ broken_as fault }
{
    match fault {
        ServeFault::Read => Ok(Connected::Failed),
        ServeFault::Write => Ok(Connected::Failed),
        ServeFault::Store(_) => Err(Fault::Store),
    }
}

/// Accepts the next connection, serves it, and ends it.
pub(crate) fn serve_next<A: Disk, L: Door>(
    server: &mut Server,
    disk: &mut A,
    door: &mut L,
) -> Result<Connected, Fault>
    requires { IsServerReady server.old (A.state disk.old) }
    ensures { Turns (WasServed A.state L.port
        (entry_standing server.old.boxes (L.port door.old)) disk.old disk.new)
        server.old server.new (A.state disk.old) (A.state disk.new) (L.port door.old)
        (L.port door.new) result }
{
    match door.accept() {
        Err(Failed) => return Err(Fault::Accept),
        Ok(()) => {}
    }
    let served = server.serve(disk, door);
    door.shut();
    match served {
        Ok(Ended { answered }) => Ok(Connected::Ended(answered)),
        Err(fault) => broken(fault),
    }
}
