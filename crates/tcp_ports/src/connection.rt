//! One connection, if there is one.

ghost use Rattle.std.specs.Prelude.{◌≡◌, ◌<◌, length, None, IfOk};
ghost use Rattle.tcp_ports.specs.Streams.{Passes, WentOver};

use crate::patience::{Patience, Traffic};
use dr_ports::Failed;
use std::io;
use std::io::{Error, ErrorKind, Read, Write};
use std::net::{Net, OpenStream};
use std::time::{Clock, Duration, Instant};
use tcp_hall::is_own;

/// How often a call that a signal interrupts is tried.
const TRIES: u32 = 1_000;

/// A stream, when it was taken, and what went over it.
#[derive(Drop)]
struct Open<S: Drop> {
    stream: S,
    begun: Instant,
    traffic: Traffic,
}

/// A stream, if one stands, and how often receiving or sending has failed. A call fails without a
/// stream, on one that has taken all the time that it may, and where it sends nothing of a piece
/// that isn't empty. A call that a signal interrupts is tried again.
#[derive(Drop)]
pub struct Connection<'a, R: Net + Clock> {
    system: &'a R,
    patience: Patience,
    current: Option<Open<R::Stream>>,
    pub faults: u64,
}

impl<S: Drop> Open<S> {
    /// For how long the next call may wait.
    fn wait<C: Clock>(&self, clock: &C, patience: Patience) -> io::Result<Duration> {
        match patience.left(self.begun.elapsed(clock)?, self.traffic) {
            Some(wait) => Ok(wait),
            None => Err(Error::from(ErrorKind::TimedOut)),
        }
    }
}

impl<S: Read + OpenStream + Drop> Open<S> {
    /// Receives the next bytes, in one call.
    fn receive_once<C: Clock>(
        &mut self,
        clock: &C,
        patience: Patience,
        into: &mut [u8],
    ) -> io::Result<usize>
        ensures { WentOver (length into.old) self.old self.new result }
    {
        let wait = self.wait(clock, patience)?;
        self.stream.set_read_timeout(Some(wait))?;
        let count = self.stream.read(into)?;
        self.traffic.bytes = self.traffic.bytes.saturating_add(count as u64);
        Ok(count)
    }

    /// Receives the next bytes.
    fn receive<C: Clock>(
        &mut self,
        clock: &C,
        patience: Patience,
        into: &mut [u8],
    ) -> io::Result<usize>
        ensures { WentOver (length into.old) self.old self.new result }
    {
        for _ in 0..TRIES {
            match self.receive_once(clock, patience, into) {
                Err(e) if e.kind() == ErrorKind::Interrupted => {}
                ended => return ended,
            }
        }
        Err(Error::from(ErrorKind::Interrupted))
    }
}

impl<S: Write + OpenStream + Drop> Open<S> {
    /// Sends a beginning of the bytes, in one call.
    fn send_once<C: Clock>(
        &mut self,
        clock: &C,
        patience: Patience,
        bytes: &[u8],
    ) -> io::Result<usize>
        ensures { WentOver (length bytes.now) self.old self.new result }
    {
        let wait = self.wait(clock, patience)?;
        self.stream.set_write_timeout(Some(wait))?;
        let count = self.stream.write(bytes)?;
        self.traffic.bytes = self.traffic.bytes.saturating_add(count as u64);
        Ok(count)
    }

    /// Sends a beginning of the bytes.
    fn send<C: Clock>(&mut self, clock: &C, patience: Patience, bytes: &[u8]) -> io::Result<usize>
        ensures { WentOver (length bytes.now) self.old self.new result }
    {
        for _ in 0..TRIES {
            match self.send_once(clock, patience, bytes) {
                Err(e) if e.kind() == ErrorKind::Interrupted => {}
                ended => return ended,
            }
        }
        Err(Error::from(ErrorKind::Interrupted))
    }
}

impl<'a, R: Net + Clock> Connection<'a, R> {
    /// No connection yet.
    pub fn new(system: &'a R, patience: Patience) -> Self
        ensures { result.faults ≡ 0 }
    {
        Connection {
            system,
            patience,
            current: None,
            faults: 0,
        }
    }

    /// Takes a stream in place of the one that stood, and answers whether that worked. A stream
    /// with the descriptor of a standard stream is closed.
    pub fn take(&mut self, stream: R::Stream) -> bool
        ensures { self.new.faults ≡ self.old.faults }
    {
        self.shut();
        if !is_own(&stream) {
            return false;
        }
        match Instant::now(self.system) {
            Ok(begun) => {
                self.current = Some(Open {
                    stream,
                    begun,
                    traffic: Traffic { bytes: 0 },
                });
                true
            }
            Err(_) => false,
        }
    }

    /// Ends the connection.
    pub fn shut(&mut self)
        ensures { self.new ≡ record self.old { current = None } }
    {
        self.current = None;
    }

    /// Receives the next bytes.
    pub fn receive(&mut self, into: &mut [u8]) -> Result<usize, Failed>
        ensures { Passes into.old self.old.faults self.new.faults result }
    {
        if let Some(open) = &mut self.current {
            if let Ok(count) = open.receive(self.system, self.patience, into) {
                return Ok(count);
            }
        }
        self.faults = self.faults.saturating_add(1);
        Err(Failed)
    }

    /// Sends a beginning of the bytes. A peer that takes no more of a piece in its time takes none
    /// later, so that ends the connection.
    pub fn send(&mut self, bytes: &[u8]) -> Result<usize, Failed>
        ensures passes { Passes bytes.now self.old.faults self.new.faults result }
        ensures progress { IfOk result (λ count. 0 < length bytes.now → 0 < count) }
        ensures ends { IfOk result (λ count. count < length bytes.now → self.new.current ≡ None) }
    {
        if let Some(open) = &mut self.current {
            if let Ok(count) = open.send(self.system, self.patience, bytes) {
                if count > 0 || bytes.is_empty() {
                    if count < bytes.len() {
                        self.shut();
                    }
                    return Ok(count);
                }
            }
        }
        self.faults = self.faults.saturating_add(1);
        Err(Failed)
    }
}
