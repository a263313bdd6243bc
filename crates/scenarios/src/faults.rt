//! One call on each port that fails, with its status and its line, and words that can't be read.

use crate::answers::{KEY, Row, SESSION, is_answered};
use crate::running::in_memory;
use dr_disk::Disk;
use dr_ports::{MemoryDoor, MemoryLink, MemorySink};
use messenger_cli::{BOOK_SIZE, DISK_SIZE, RELAY_DISK_SIZE, run_arguments};
use std::alloc::{AllocError, Global};
use std::io;
use std::io::ErrorKind;
use std::test::Fail;

/// What First does over a link, a door and draws of which a call fails, with the numbers of the
/// reads and of the writes that fail: nothing that fails is done.
const ROWS: [(Row<'static>, &[u64], &[u64]); 7] = [
    (("begin|first", KEY, 0, SESSION), &[], &[]),
    (("take", b"", 4, b"fault: read\n"), &[1], &[]),
    (("state", b"", 5, b""), &[], &[1]),
    (("say|hi", b"", 8, b"fault: draws\n"), &[], &[]),
    (("sync|127.0.0.1:4000", b"", 7, b"fault: link\n"), &[], &[]),
    (
        ("relay|4000|1|a", b"", 7, b"relay 4000\nfault: link\n"),
        &[],
        &[],
    ),
    (("outbox", b"", 0, b""), &[], &[]),
];

/// Whether each of these calls is told.
fn are_told(alloc: Global) -> Result<bool, AllocError> {
    let mut ports = in_memory(alloc, b"", b"")?;
    ports.link = MemoryLink::new(alloc, b"", 4096, &[1])?;
    ports.door = MemoryDoor::new(alloc, b"", &[], 4096, &[2], &[])?;
    for (row, reads, writes) in ROWS {
        if !is_answered(alloc, &mut ports, row, reads, writes)? {
            return Ok(false);
        }
    }
    Ok(true)
}

#[test]
fn a_failing_call_has_its_status(rt: HostRuntime) -> Result<(), Fail> {
    assert!(rt; are_told(rt.alloc())?);
    Ok(())
}

/// Whether a run that gets no words, for this reason, ends with this status and this line.
fn is_asked(alloc: Global, kind: ErrorKind, status: u8, line: &[u8]) -> Result<bool, AllocError> {
    let mut ports = in_memory(alloc, b"", b"")?;
    ports.sink = MemorySink::new(alloc, 64, &[])?;
    if ports.disk.size() < DISK_SIZE
        || ports.relay_disk.size() < RELAY_DISK_SIZE
        || ports.book.size() < BOOK_SIZE
    {
        return Err(AllocError);
    }
    let ended = run_arguments(alloc, Err(io::Error::from(kind)), &mut ports);
    Ok(ended.code == status && ports.sink.taken() == line)
}

#[test]
fn asks_for_words(rt: HostRuntime) -> Result<(), Fail> {
    assert!(rt; is_asked(rt.alloc(), ErrorKind::InvalidData, 2, b"usage\n")?);
    assert!(rt; is_asked(rt.alloc(), ErrorKind::OutOfMemory, 13, b"no memory\n")?);
    Ok(())
}
