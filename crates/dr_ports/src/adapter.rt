//! Adapters over std's reader and writer and over a source of random bytes. They tell nothing of
//! content to come, and count each error. A seed is what the source gave.

ghost use Rattle.std.specs.Prelude.{◌≡◌, ℕ, None, IfOk};
ghost use Rattle.dr_ports.specs.Drawing.{DrawsSeed};
ghost use Rattle.dr_ports.specs.Random.{untold};

use crate::port::{Draws, Sink, Source};
use dr_base::{Failed, Key32};
use rand_core::TryRng;
use std::io::{Read, Write};
use std::marker::Model;

/// A source over a reader. A contract sees its count of faults.
#[derive(Drop)]
pub struct ReaderSource<R: Read> {
    reader: R,
    faults: u64,
}

impl<R: Read> Model for ReaderSource<R> {
    ghost Value = { ℕ };

    ghost view = { λ s. s.faults };
}

impl<R: Read> ReaderSource<R> {
    /// A source over a reader, with no fault so far.
    pub fn new(reader: R) -> Self
        ensures { result ≡ 0 }
    {
        ReaderSource { reader, faults: 0 }
    }
}

impl<R: Read> Source for ReaderSource<R> {
    ghost at = { λ s. record { left = None; faults = s } };

    fn read(&mut self, into: &mut [u8]) -> Result<usize, Failed> {
        match self.reader.read(into) {
            Ok(count) => Ok(count),
            Err(_) => {
                self.faults = self.faults.saturating_add(1);
                Err(Failed)
            }
        }
    }
}

/// A sink over a writer. A writer that takes nothing of a piece that isn't empty has failed. A
/// contract sees its count of faults.
#[derive(Drop)]
pub struct WriterSink<W: Write> {
    writer: W,
    faults: u64,
}

impl<W: Write> Model for WriterSink<W> {
    ghost Value = { ℕ };

    ghost view = { λ s. s.faults };
}

impl<W: Write> WriterSink<W> {
    /// A sink over a writer, with no fault so far.
    pub fn new(writer: W) -> Self
        ensures { result ≡ 0 }
    {
        WriterSink { writer, faults: 0 }
    }
}

impl<W: Write> Sink for WriterSink<W> {
    ghost at = { λ s. record { taken = None; faults = s } };

    fn write(&mut self, bytes: &[u8]) -> Result<usize, Failed> {
        match self.writer.write(bytes) {
            Ok(count) if count > 0 || bytes.is_empty() => Ok(count),
            _ => {
                self.faults = self.faults.saturating_add(1);
                Err(Failed)
            }
        }
    }
}

/// Draws from a source of random bytes, as the system's is. A contract sees the source and its
/// count of faults.
#[derive(Drop)]
pub struct RandomDraws<R> {
    source: R,
    faults: u64,
}

impl<R> Model for RandomDraws<R> {
    ghost use Rattle.dr_ports.specs.Random.{Sourced};

    ghost Value = { Sourced R };

    ghost view = { λ d. record { source = d.source; faults = d.faults } };
}

impl<R: TryRng> RandomDraws<R> {
    /// Draws from this source, with no fault so far.
    pub fn new(source: R) -> Self
        ensures { result ≡ record { source = source; faults = 0 } }
    {
        RandomDraws { source, faults: 0 }
    }
}

impl<R: TryRng> Draws for RandomDraws<R> {
    ghost at = { untold };

    /// The next seed: 32 bytes that the source gave in one call. A call of the source that fails is
    /// a fault.
    fn draw(&mut self) -> Result<Key32, Failed>
        ensures given { IfOk result
            (λ seed. R.may_fill self.old.source seed.bytes self.new.source) }
        ensures draws { DrawsSeed (untold self.old) (untold self.new) result }
    {
        let mut seed = Key32::default();
        match self.source.try_fill_bytes(&mut seed.bytes) {
            Ok(()) => Ok(seed),
            Err(_) => {
                self.faults = self.faults.saturating_add(1);
                Err(Failed)
            }
        }
    }
}
