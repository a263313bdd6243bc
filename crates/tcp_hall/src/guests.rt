//! Those who wait at a door.

ghost use Rattle.std.specs.Prelude.{◌<◌, length, IfSome};

use mio::event::Event;
use std::io;
use std::net::{IpAddr, TcpStream};
use std::time::Instant;

/// One who waits.
#[derive(Drop)]
pub(crate) struct Guest {
    pub stream: TcpStream,
    pub address: IpAddr,
    /// By which the system tells of it.
    pub number: usize,
    pub since: Instant,
}

impl Guest {
    /// Whether bytes of it are there. For one that sends no more this doesn't wait.
    pub(crate) fn has_spoken(&self) -> bool {
        match self.stream.peek(&mut [0; 1]) {
            Ok(count) => count > 0,
            Err(_) => false,
        }
    }
}

/// The place of the guest with this number.
pub(crate) fn place_of(guests: &[Guest], number: usize) -> Option<usize>
    ensures { IfSome result (λ place. place < length guests.now) }
{
    'guests: for place in 0..guests.len() {
        if guests[place].number == number {
            return Some(place);
        }
    }
    None
}

/// The one of whom the system tells is heard, or goes, if it hung up without a word. Nothing
/// changes for one that was heard before, and for the listener.
pub(crate) fn hear_of(
    silent: &mut Vec<Guest>,
    heard: &mut Vec<Guest>,
    event: &Event,
) -> io::Result<()> {
    if let Some(place) = place_of(silent.as_slice(), event.token().0) {
        let guest = silent.remove(place);
        if !event.is_read_closed() || guest.has_spoken() {
            heard.push(guest)?;
        }
    }
    Ok(())
}

/// The place of the first guest that has another address.
fn place_beside(guests: &[Guest], address: IpAddr) -> Option<usize>
    ensures { IfSome result (λ place. place < length guests.now) }
{
    'guests: for place in 0..guests.len() {
        if guests[place].address != address {
            return Some(place);
        }
    }
    None
}

/// The first leaves.
pub(crate) fn first(guests: &mut Vec<Guest>) -> Option<Guest> {
    if guests.is_empty() {
        None
    } else {
        Some(guests.remove(0))
    }
}

/// The first leaves that has another address than the one who left before, or else the first.
pub(crate) fn first_beside(guests: &mut Vec<Guest>, before: Option<IpAddr>) -> Option<Guest> {
    if let Some(address) = before {
        if let Some(place) = place_beside(guests.as_slice(), address) {
            return Some(guests.remove(place));
        }
    }
    first(guests)
}
