//! Draws over a source of random bytes: the system's, one that counts, and one that fails.

use dr_ports::{Draws, RandomDraws};
use rand::TryRng;
use rand::rngs::SysRng;
use std::io;
use std::io::{Error, ErrorKind};

/// A source whose bytes count up, and which fails after so many calls.
#[derive(Drop)]
struct Counting {
    next: u8,
    calls: u32,
}

impl Counting {
    /// The next byte.
    fn count(&mut self) -> u8 {
        self.next = self.next.wrapping_add(1);
        self.next
    }

    /// A call, or a failure if none is left.
    fn call(&mut self) -> io::Result<()> {
        if self.calls == 0 {
            return Err(Error::from(ErrorKind::Unsupported));
        }
        self.calls -= 1;
        Ok(())
    }
}

impl TryRng for Counting {
    type Error = Error;

    fn try_next_u32(&mut self) -> io::Result<u32> {
        self.call()?;
        Ok(u32::from(self.count()))
    }

    fn try_next_u64(&mut self) -> io::Result<u64> {
        self.call()?;
        Ok(u64::from(self.count()))
    }

    fn try_fill_bytes(&mut self, into: &mut [u8]) -> io::Result<()> {
        self.call()?;
        for byte in into {
            *byte = self.count();
        }
        Ok(())
    }
}

/// Whether the next seed counts up from this byte.
fn counts_from<D: Draws>(draws: &mut D, first: u8) -> bool {
    let Ok(seed) = draws.draw() else {
        return false;
    };
    let mut expected = first;
    for byte in seed.bytes {
        if byte != expected {
            return false;
        }
        expected = expected.wrapping_add(1);
    }
    true
}

/// Whether two seeds count up from 1, and no third one is given.
fn count_up<D: Draws>(draws: &mut D) -> bool {
    counts_from(draws, 1)
        && counts_from(draws, 33)
        && draws.draw().is_err()
        && draws.draw().is_err()
}

/// Whether two seeds are given that differ.
fn differ<D: Draws>(draws: &mut D) -> bool {
    match (draws.draw(), draws.draw()) {
        (Ok(one), Ok(two)) => one.bytes != two.bytes,
        _ => false,
    }
}

#[test]
fn draws_all_that_a_source_gives(rt: HostRuntime) {
    assert!(rt; count_up(&mut RandomDraws::new(Counting { next: 0, calls: 2 })));
    assert!(rt; differ(&mut RandomDraws::new(SysRng::new(&rt))));
}
