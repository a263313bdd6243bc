//! Lines of words, with the command on the book that each must be.

use crate::words::{Row, are};
use bodies::Format;
use command_words::{Ask, Where};
use dr_base::Side;
use std::test::Fail;

/// Words of each command.
const ROWS: [Row<'static>; 15] = [
    (
        "book-begin|bob|first",
        Ask::Begin(Side::First, Format::Plain),
        &["bob", "first"],
    ),
    (
        "book-begin|first|second|receipts",
        Ask::Begin(Side::Second, Format::Receipts),
        &["first", "second", "receipts"],
    ),
    ("book-say|bob|hi", Ask::Say, &["bob", "hi"]),
    ("book-say|bob|", Ask::Say, &["bob", ""]),
    ("book-say||hi", Ask::Say, &["", "hi"]),
    ("book-say|--|-bob|-x", Ask::Say, &["-bob", "-x"]),
    ("book-take|bob", Ask::Take, &["bob"]),
    ("book-inbox|Not a name", Ask::Inbox, &["Not a name"]),
    ("book-outbox|bob", Ask::Outbox, &["bob"]),
    ("book-done|bob|128", Ask::Done(128), &["bob", "128"]),
    ("book-sent|bob|+5", Ask::Sent(5), &["bob", "+5"]),
    ("book-state|bob", Ask::State, &["bob"]),
    ("book-forget|bob", Ask::Forget, &["bob"]),
    ("book-list", Ask::List, &[]),
    ("book-list|--", Ask::List, &[]),
];

#[test]
fn words_are_commands_on_the_book(rt: HostRuntime) -> Result<(), Fail> {
    for row in ROWS {
        assert!(rt; are(rt.alloc(), Where::Book, row)?, "{}", row.0);
    }
    Ok(())
}
