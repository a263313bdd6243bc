//! What the program answers to words: over ports in memory, and over std's reader and writer.

use crate::running::{Around, InMemory, ports_around, run_on};
use dr_disk::Disk;
use dr_ports::{MemorySink, MemorySource, ReaderSource, Sink, WriterSink};
use std::alloc::{AllocError, Global};
use std::io::Cursor;

/// Words between bars, what the source holds, the status, and what is written.
pub type Row<'a> = (&'a str, &'a [u8], u8, &'a [u8]);

/// The key of zeros.
pub const KEY: &[u8] = b"0000000000000000000000000000000000000000000000000000000000000000\n";

/// The session of that key, whose name is from another implementation of HKDF.
pub const SESSION: &[u8] = b"session 70e0f9cd1a5863238d67aecce0c032e5\n";

/// What Second shows that has begun it.
pub const BEGUN: &[u8] =
    b"session 70e0f9cd1a5863238d67aecce0c032e5\nside second\nepoch 0\nmissing 0\ninbox 0\noutbox 0\n";

/// Whether a run comes to this row, where these reads and writes fail.
pub fn is_answered(
    alloc: Global,
    ports: &mut InMemory,
    (words, text, status, lines): Row<'_>,
    reads: &[u64],
    writes: &[u64],
) -> Result<bool, AllocError> {
    ports.source = MemorySource::new(alloc, text, reads)?;
    ports.sink = MemorySink::new(alloc, 8192, writes)?;
    let ended = run_on(alloc, words, ports)?;
    Ok(ended.code == status && ports.sink.taken() == lines)
}

/// Whether runs, one after the other, come to these rows.
pub fn are_answered(
    alloc: Global,
    ports: &mut InMemory,
    rows: &[Row<'_>],
) -> Result<bool, AllocError> {
    for &row in rows {
        if !is_answered(alloc, ports, row, &[], &[])? {
            return Ok(false);
        }
    }
    Ok(true)
}

/// Whether runs over std's reader, one after the other, have the statuses of these rows.
fn have_ended<'a, D: Disk, O: Sink>(
    alloc: Global,
    ports: &mut Around<D, ReaderSource<&'a [u8]>, O>,
    rows: &[Row<'a>],
) -> Result<bool, AllocError> {
    for &(words, text, status, _) in rows {
        ports.source = ReaderSource::new(text);
        if run_on(alloc, words, ports)?.code != status {
            return Ok(false);
        }
    }
    Ok(true)
}

/// What is written over these rows, one after the other.
fn lines_of(alloc: Global, rows: &[Row<'_>]) -> Result<Vec<u8>, AllocError> {
    let mut lines = Vec::new(alloc);
    for (_, _, _, written) in rows {
        lines.extend_from_slice(written)?;
    }
    Ok(lines)
}

/// Whether runs over std's reader and writer on this disk, one after the other, come to these rows.
pub fn are_told<D: Disk + Drop>(
    alloc: Global,
    disk: D,
    rows: &[Row<'_>],
) -> Result<bool, AllocError> {
    let lines = lines_of(alloc, rows)?;
    let mut written = vec![in alloc; 0; lines.len()]?;
    let source = ReaderSource::new(b"".as_slice());
    let sink = WriterSink::new(Cursor::new(written.as_mut_slice()));
    let mut ports = ports_around(alloc, (disk, source, sink), b"", b"")?;
    let ended = have_ended(alloc, &mut ports, rows)?;
    drop(ports);
    Ok(ended && written.as_slice() == lines.as_slice())
}
