//! Sessions of a book, which no other command sees.

use crate::answers::{BEGUN, KEY, Row, SESSION, are_answered};
use crate::running::in_memory;
use std::alloc::{AllocError, Global};
use std::test::Fail;

/// A name is begun once, and what it has is its own.
const ROWS: [Row<'static>; 10] = [
    ("book-list", b"", 0, b""),
    ("book-say|bob|hi", b"", 3, b"refused: NoName\n"),
    ("book-begin|bob|second", KEY, 0, SESSION),
    ("book-begin|bob|first", KEY, 3, b"refused: NameTaken\n"),
    ("state", b"", 9, b"no session\n"),
    ("begin|first", KEY, 0, SESSION),
    ("book-state|bob", b"", 0, BEGUN),
    ("book-list", b"", 0, b"bob\n"),
    ("book-forget|bob", b"", 0, b"forgot bob\n"),
    ("book-list", b"", 0, b""),
];

/// Whether a book in memory answers so.
fn is_kept(alloc: Global) -> Result<bool, AllocError> {
    let mut ports = in_memory(alloc, b"", b"")?;
    are_answered(alloc, &mut ports, &ROWS)
}

#[test]
fn keeps_a_book(rt: HostRuntime) -> Result<(), Fail> {
    assert!(rt; is_kept(rt.alloc())?);
    Ok(())
}
