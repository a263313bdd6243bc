//! Where those who came in wait until they have said something.

use crate::descriptors::is_own;
use crate::guests::{Guest, first, first_beside, hear_of};
use mio::unix::SourceFd;
use mio::{Events, Interest, Poll, Token, net};
use std::alloc::AllocGlobal;
use std::io;
use std::io::{Error, ErrorKind};
use std::net::{IpAddr, Ipv4Addr, Net, SocketAddr, TcpListener, TcpStream};
use std::os::fd::AsRawFd;
use std::time::{Clock, Duration, Instant};

/// How many may wait. One more comes in where one that has said nothing goes.
pub const SEATS: usize = 200;

/// How many the system tells of in one call.
const TOLD: usize = 256;

/// The number of the listener. Those who wait have the numbers from 1 on.
const LISTENER: usize = 0;

/// A listener, and those who came in by it: the ones that have said nothing so far, in the order in
/// which they came, and the ones that have said something, in the order in which they did.
#[derive(Drop)]
pub struct Hall {
    listener: TcpListener,
    poll: Poll,
    events: Events,
    silent: Vec<Guest>,
    heard: Vec<Guest>,
    came: usize,
    served: Option<IpAddr>,
    silence: Duration,
}

/// Has the system tell of what has this descriptor, by a number.
fn register<F: AsRawFd>(poll: &Poll, source: &F, number: usize) -> io::Result<()> {
    let descriptor = source.as_raw_fd();
    poll.registry().register(
        &mut SourceFd(&descriptor),
        Token(number),
        Interest::READABLE,
    )
}

impl Hall {
    /// An empty one, with a listener at a port of every address of this machine. Who says nothing
    /// for so long goes.
    pub fn open<R: Net + AllocGlobal>(system: &R, at: u16, silence: Duration) -> io::Result<Hall> {
        let bound = net::TcpListener::bind(system, SocketAddr::from((Ipv4Addr::UNSPECIFIED, at)))?;
        let listener = TcpListener::from(bound);
        let poll = Poll::new(system)?;
        if !is_own(&listener) || !is_own(&poll) {
            return Err(Error::from(ErrorKind::Unsupported));
        }
        register(&poll, &listener, LISTENER)?;
        Ok(Hall {
            listener,
            poll,
            events: Events::with_capacity(system.alloc(), TOLD)?,
            silent: Vec::with_capacity(system.alloc(), SEATS)?,
            heard: Vec::with_capacity(system.alloc(), SEATS)?,
            came: LISTENER,
            served: None,
            silence,
        })
    }

    /// How many wait.
    fn taken(&self) -> usize {
        self.silent.len().saturating_add(self.heard.len())
    }

    /// Waits until somebody comes, says something or goes, for so long at most.
    fn hear(&mut self, wait: Option<Duration>) -> io::Result<()> {
        self.poll.poll(&mut self.events, wait)?;
        for event in self.events.iter() {
            hear_of(&mut self.silent, &mut self.heard, event)?;
        }
        Ok(())
    }

    /// Makes room where it is wanting. Who has spoken by now is heard, and if nobody hung up, the
    /// one goes that has said nothing for the longest time.
    fn make_room(&mut self) -> io::Result<()> {
        let taken = self.taken();
        self.hear(Some(Duration::ZERO))?;
        if self.taken() >= taken {
            first(&mut self.silent);
        }
        Ok(())
    }

    /// Takes in one who came.
    fn seat<C: Clock>(&mut self, clock: &C, stream: TcpStream, address: IpAddr) -> io::Result<()> {
        if !is_own(&stream) {
            return Err(Error::from(ErrorKind::Unsupported));
        }
        if self.taken() >= SEATS {
            self.make_room()?;
        }
        self.came = self.came.saturating_add(1);
        register(&self.poll, &stream, self.came)?;
        let guest = Guest {
            stream,
            address,
            number: self.came,
            since: Instant::now(clock)?,
        };
        self.silent.push(guest)?;
        Ok(())
    }

    /// Takes in those who came, as long as fewer were heard than there are seats, and answers
    /// whether nobody more is there: the system tells of each one only once. Room is made for one
    /// that can't come in, as descriptors are wanting; where nobody waits it is an error.
    fn admit<C: Clock>(&mut self, clock: &C) -> io::Result<bool> {
        for _ in 0..SEATS {
            if self.heard.len() >= SEATS {
                return Ok(false);
            }
            match self.listener.accept() {
                Ok((stream, from)) => self.seat(clock, stream, from.ip())?,
                Err(e) if e.kind() == ErrorKind::WouldBlock => return Ok(true),
                Err(e) if e.kind() == ErrorKind::ConnectionAborted => {}
                Err(e) if self.taken() == 0 => return Err(e),
                Err(_) if self.silent.is_empty() => return Ok(false),
                Err(_) => self.make_room()?,
            }
        }
        Ok(false)
    }

    /// For how long the first of the silent ones may still wait.
    fn left<C: Clock>(&self, clock: &C) -> io::Result<Option<Duration>> {
        match self.silent.first() {
            Some(guest) => {
                let gone = guest.since.elapsed(clock)?;
                Ok(Some(self.silence.saturating_sub(gone)))
            }
            None => Ok(None),
        }
    }

    /// For how long to wait for the next event, if nobody more is there, or somebody may be.
    fn wait<C: Clock>(&self, clock: &C, is_all: bool) -> io::Result<Option<Duration>> {
        if is_all && self.heard.is_empty() {
            self.left(clock)
        } else {
            Ok(Some(Duration::ZERO))
        }
    }

    /// Sends those away that have been silent for too long.
    fn send_away<C: Clock>(&mut self, clock: &C) -> io::Result<()> {
        for _ in 0..SEATS {
            match self.left(clock)? {
                Some(left) if left.is_zero() => {
                    first(&mut self.silent);
                }
                _ => return Ok(()),
            }
        }
        Ok(())
    }

    /// The first who has said something, and of these the first that has another address than the
    /// one before, if there is one: so who comes again and again from one address is every second
    /// one at most.
    pub fn next<C: Clock>(&mut self, clock: &C) -> io::Result<TcpStream> {
        for _ in 0..u64::MAX {
            let is_all = self.admit(clock)?;
            let wait = self.wait(clock, is_all)?;
            self.hear(wait)?;
            self.send_away(clock)?;
            if let Some(guest) = first_beside(&mut self.heard, self.served) {
                self.served = Some(guest.address);
                return Ok(guest.stream);
            }
        }
        Err(Error::from(ErrorKind::TimedOut))
    }
}
