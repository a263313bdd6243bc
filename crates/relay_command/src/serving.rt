//! A relay that listens serves its connections.

ghost use Rattle.std.specs.Prelude.{◌≡◌, ◌≤◌};
ghost use Rattle.relay_server.specs.Durable.{IsServerReady};
ghost use Rattle.relay_command.specs.InTurn.{CameInTurn};
ghost use Rattle.relay_command.specs.Serving.{RelayRuns, entry_standing};
ghost use Rattle.relay_command.specs.Turns.{closing_of_fault};

use crate::connecting::{Fault, serve_next};
use crate::lines::{connection_line, port_line};
use dr_disk::Disk;
use dr_ports::{Door, Failed, Sink, write_all};
use endings::{Ending, Status, UNWRITTEN, finish};
use relay_server::Server;

/// How the command ends where no connection more is served.
fn ending_of(fault: Fault) -> Ending
    ensures { result ≡ closing_of_fault fault }
{
    match fault {
        Fault::Accept => Ending::LinkFault,
        Fault::Store => Ending::DiskFault,
    }
}

/// Writes the line that says that the door listens at a port, and serves this many connections,
/// with a line for each.
pub(crate) fn serve_all<A: Disk, L: Door, O: Sink>(
    port: u16,
    count: u32,
    server: &mut Server,
    disk: &mut A,
    door: &mut L,
    out: &mut O,
) -> Status
    requires { IsServerReady server.old (A.state disk.old) }
    ensures runs { RelayRuns (λ xs. CameInTurn A.state L.port
        (entry_standing server.old.boxes (L.port door.old)) disk.old xs disk.new)
        (entry_standing server.old.boxes (L.port door.old)) port count (A.state disk.old)
        (A.state disk.new)
        (L.port door.old) (L.port door.new) (O.at out.old) (O.at out.new) result.code }
    ensures later { (O.at out.old).faults ≤ (O.at out.new).faults }
{
    match write_all(out, port_line(port).as_bytes()) {
        Err(Failed) => return UNWRITTEN,
        Ok(()) => {}
    }
    'connections: for i in 0..count {
        let connected = match serve_next(server, disk, door) {
            Err(fault) => return finish(out, ending_of(fault)),
            Ok(connected) => connected,
        };
        match write_all(out, connection_line(u64::from(i) + 1, connected).as_bytes()) {
            Err(Failed) => return UNWRITTEN,
            Ok(()) => {}
        }
    }
    finish(out, Ending::Done)
}
