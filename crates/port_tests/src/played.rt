//! A network that is played: its clock goes as it is told, a host has two addresses of which the
//! first refuses, and it notes for how long each call was told to wait.

use std::cell::Cell;
use std::io;
use std::io::{Error, ErrorKind, Read, Write};
use std::net::{IpAddr, Ipv4Addr, Net, OpenListener, OpenStream, SocketAddr};
use std::os::fd::{AsRawFd, RawFd};
use std::time::{Clock, Duration};

/// What is played, and noted.
#[derive(Drop)]
pub struct Stage {
    now: Cell<Duration>,
    connects: Cell<Option<Duration>>,
    receives: Cell<Option<Duration>>,
    sends: Cell<Option<Duration>>,
}

impl Stage {
    /// At the beginning, before any call.
    pub fn new() -> Self {
        Stage {
            now: Cell::new(Duration::ZERO),
            connects: Cell::new(None),
            receives: Cell::new(None),
            sends: Cell::new(None),
        }
    }

    /// It is so many seconds after the beginning.
    pub fn goes_on_to(&self, seconds: u64) {
        self.now.set(Duration::from_secs(seconds));
    }

    /// For how long a connect, a receive and a send may wait, as the last of each was told.
    pub fn told(&self) -> [Option<Duration>; 3] {
        [self.connects.get(), self.receives.get(), self.sends.get()]
    }
}

/// The network over it.
#[derive(Clone, Copy)]
pub struct Played<'a> {
    pub stage: &'a Stage,
}

/// A stream that gives and takes all that it is asked for. It stands for a listener too, which
/// nobody asks for.
#[derive(Drop)]
pub struct PlayedStream<'a> {
    stage: &'a Stage,
}

impl Clock for Played<'_> {
    fn monotonic(&self) -> io::Result<Duration> {
        Ok(self.stage.now.get())
    }

    fn since_1970(&self) -> io::Result<Duration> {
        Err(Error::from(ErrorKind::Unsupported))
    }
}

impl<'a> Net for Played<'a> {
    type Stream = PlayedStream<'a>;

    type Listener = PlayedStream<'a>;

    fn bind(&self, _addr: SocketAddr) -> io::Result<PlayedStream<'a>> {
        Err(Error::from(ErrorKind::Unsupported))
    }

    fn connect(&self, _addr: SocketAddr) -> io::Result<PlayedStream<'a>> {
        Err(Error::from(ErrorKind::Unsupported))
    }

    fn connect_timeout(&self, addr: SocketAddr, wait: Duration) -> io::Result<PlayedStream<'a>> {
        self.stage.connects.set(Some(wait));
        if addr.ip() == IpAddr::V4(Ipv4Addr::new(10, 0, 0, 2)) {
            return Ok(PlayedStream { stage: self.stage });
        }
        Err(Error::from(ErrorKind::ConnectionRefused))
    }

    fn lookup_host(&self, _host: &str, port: u16, found: &mut [SocketAddr]) -> io::Result<usize> {
        if found.len() < 2 {
            return Ok(0);
        }
        found[0] = SocketAddr::from((Ipv4Addr::new(10, 0, 0, 1), port));
        found[1] = SocketAddr::from((Ipv4Addr::new(10, 0, 0, 2), port));
        Ok(2)
    }
}

impl OpenStream for PlayedStream<'_> {
    fn set_read_timeout(&self, wait: Option<Duration>) -> io::Result<()> {
        self.stage.receives.set(wait);
        Ok(())
    }

    fn set_write_timeout(&self, wait: Option<Duration>) -> io::Result<()> {
        self.stage.sends.set(wait);
        Ok(())
    }
}

impl<'a> OpenListener for PlayedStream<'a> {
    type Stream = PlayedStream<'a>;

    fn accept(&self) -> io::Result<(PlayedStream<'a>, SocketAddr)> {
        Err(Error::from(ErrorKind::Unsupported))
    }
}

impl AsRawFd for PlayedStream<'_> {
    fn as_raw_fd(&self) -> RawFd {
        9
    }
}

impl Read for PlayedStream<'_> {
    fn read(&mut self, into: &mut [u8]) -> io::Result<usize> {
        Ok(into.len())
    }
}

impl Write for PlayedStream<'_> {
    fn write(&mut self, bytes: &[u8]) -> io::Result<usize> {
        Ok(bytes.len())
    }

    fn flush(&mut self) -> io::Result<()> {
        Ok(())
    }
}
