//! A door over TCP.

ghost use Rattle.std.specs.Prelude.{◌≡◌};
ghost use Rattle.dr_ports.specs.MemoryWires.{nobody};
ghost use Rattle.tcp_ports.specs.Sockets.{no_faults, untold_port};

use crate::connection::Connection;
use crate::patience::Patience;
use dr_ports::{Door, Failed, Pipe};
use std::alloc::AllocGlobal;
use std::marker::Model;
use std::net::{Net, TcpStream};
use std::time::{Clock, Duration};
use tcp_hall::Hall;

/// For how many seconds one who came may say nothing.
const SILENCE: u64 = 10;

/// A door over a TCP listener, at every address of this machine. What it accepts is the first
/// connection that has said something; those that say nothing wait, and go after ten seconds. A
/// contract sees its counts of faults.
#[derive(Drop)]
pub struct TcpDoor<'a, R: Net<Stream = TcpStream> + Clock + AllocGlobal> {
    net: &'a R,
    hall: Option<Hall>,
    connection: Connection<'a, R>,
    faults: u64,
}

impl<'a, R: Net<Stream = TcpStream> + Clock + AllocGlobal> Model for TcpDoor<'a, R> {
    ghost use Rattle.tcp_ports.specs.Sockets.{Counts};

    ghost Value = { Counts };

    ghost view = { λ d. record { flow = d.connection.faults; gate = d.faults } };
}

impl<'a, R: Net<Stream = TcpStream> + Clock + AllocGlobal> TcpDoor<'a, R> {
    /// A door that doesn't listen yet, with no fault so far. A call on a connection waits for five
    /// seconds at most, and the connection may take five seconds, one more for each `RATE` bytes,
    /// and twenty at most.
    pub fn new(net: &'a R) -> TcpDoor<'a, R>
        ensures { result ≡ no_faults }
    {
        TcpDoor::with_patience(net, Patience::with_a_client())
    }

    /// The same with another patience.
    pub fn with_patience(net: &'a R, patience: Patience) -> TcpDoor<'a, R>
        ensures { result ≡ no_faults }
    {
        TcpDoor {
            net,
            hall: None,
            connection: Connection::new(net, patience),
            faults: 0,
        }
    }
}

impl<R: Net<Stream = TcpStream> + Clock + AllocGlobal> Pipe for TcpDoor<'_, R> {
    ghost port = { untold_port };

    ghost Behind = { Unit {0} };

    ghost behind = { λ p. nobody p };

    ghost ahead = { λ _. tt };

    fn receive(&mut self, into: &mut [u8]) -> Result<usize, Failed> {
        self.connection.receive(into)
    }

    fn send(&mut self, bytes: &[u8]) -> Result<usize, Failed> {
        self.connection.send(bytes)
    }
}

impl<R: Net<Stream = TcpStream> + Clock + AllocGlobal> Door for TcpDoor<'_, R> {
    fn listen(&mut self, at: u16) -> Result<(), Failed> {
        match Hall::open(self.net, at, Duration::from_secs(SILENCE)) {
            Ok(hall) => {
                self.hall = Some(hall);
                Ok(())
            }
            Err(_) => {
                self.faults = self.faults.saturating_add(1);
                Err(Failed)
            }
        }
    }

    fn accept(&mut self) -> Result<(), Failed> {
        if let Some(hall) = &mut self.hall {
            if let Ok(stream) = hall.next(self.net) {
                if self.connection.take(stream) {
                    return Ok(());
                }
            }
        }
        self.faults = self.faults.saturating_add(1);
        Err(Failed)
    }

    fn shut(&mut self) {
        self.connection.shut();
    }
}
