//! Sessions on a disk that records each write and sync, and in a file; both over std's reader and
//! writer.

use crate::answers::{BEGUN, KEY, Row, SESSION, are_told};
use dr_disk::RecordingDisk;
use file_disk::{FileDisk, Sharing};
use messenger_cli::DISK_SIZE;
use std::alloc::{AllocError, Global};
use std::fs;
use std::test::Fail;

/// A script whose last line doesn't end in a line feed.
const HELLO: &[u8] =
    b"kem open\nkey 0000000000000000000000000000000000000000000000000000000000000000\nsecond say hi\nfirst take 0.1\nfirst inbox\nfirst take 0.1";

/// What it is answered with.
const HELLO_TRACE: &[u8] =
    b"second said 0.1\nfirst opened 0.1\nfirst inbox 1\nfirst 0.1 \"hi\"\nfirst refused Spent 0.1\n";

/// A side that begins, and a script.
const ROWS: [Row<'static>; 13] = [
    ("state", b"", 9, b"no session\n"),
    ("begin|third", KEY, 2, b"usage\n"),
    ("begin|second", &[b'0'; 63], 3, b"refused: BadKey\n"),
    ("begin|second", KEY, 0, SESSION),
    ("state", b"", 0, BEGUN),
    ("begin|second", KEY, 10, b"session exists\n"),
    ("state", b"", 0, BEGUN),
    ("say|hi", b"", 0, b"said 0.1\n"),
    ("take", b"", 3, b"refused: Malformed Short 0\n"),
    ("done|1", b"", 3, b"refused: Fewer 0\n"),
    ("sent|1", b"", 0, b"sent 1\n"),
    ("outbox", b"", 0, b""),
    ("duet", HELLO, 0, HELLO_TRACE),
];

/// Whether a disk that has room to record so many writes and syncs answers with these rows.
fn is_recorded(alloc: Global, calls: usize, rows: &[Row<'_>]) -> Result<bool, AllocError> {
    let disk = RecordingDisk::new(alloc, DISK_SIZE, calls, 2_097_152)?;
    are_told(alloc, disk, rows)
}

// Past that room a call fails.
#[test]
fn a_recorded_session(rt: HostRuntime) -> Result<(), Fail> {
    let unbegun: Row<'_> = ("begin|second", KEY, 6, b"fault: disk\n");
    assert!(rt; is_recorded(rt.alloc(), 64, &ROWS)?);
    assert!(rt; is_recorded(rt.alloc(), 3, &[unbegun])?);
    Ok(())
}

/// Whether a disk over the file at this path answers with this row.
fn is_filed(rt: &HostRuntime, path: &str, row: Row<'_>) -> Result<bool, AllocError> {
    let disk = FileDisk::new(rt, path, DISK_SIZE, DISK_SIZE, Sharing::InTurn);
    are_told(rt.alloc(), disk, &[row])
}

// One disk begins, and another one over the same file looks.
#[test]
fn a_session_in_a_file(rt: HostRuntime) -> Result<(), Fail> {
    assert!(rt; is_filed(&rt, "kept-session", ("begin|second", KEY, 0, SESSION))?);
    assert!(rt; is_filed(&rt, "kept-session", ("state", b"", 0, BEGUN))?);
    fs::remove_file(&rt, "kept-session")?;
    Ok(())
}
