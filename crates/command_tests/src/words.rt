//! Lines of words, with the command that each must be.

use bodies::Format;
use command_words::{Ask, Command, Where, parse};
use dr_base::Side;
use std::alloc::{AllocError, Global};
use std::test::Fail;

/// The words between bars.
pub fn words_of(alloc: Global, line: &str) -> Result<Vec<String>, AllocError> {
    let mut words = Vec::new(alloc);
    for word in line.split('|') {
        words.push(String::from_str(alloc, word)?)?;
    }
    Ok(words)
}

/// Words, what they ask for, and their values.
pub type Row<'a> = (&'a str, Ask, &'a [&'a str]);

/// Words of each command.
const ROWS: [Row<'static>; 43] = [
    (
        "begin|first",
        Ask::Begin(Side::First, Format::Plain),
        &["first"],
    ),
    (
        "begin|second",
        Ask::Begin(Side::Second, Format::Plain),
        &["second"],
    ),
    (
        "begin|--|second",
        Ask::Begin(Side::Second, Format::Plain),
        &["second"],
    ),
    (
        "begin|first|plain",
        Ask::Begin(Side::First, Format::Plain),
        &["first", "plain"],
    ),
    (
        "begin|second|receipts",
        Ask::Begin(Side::Second, Format::Receipts),
        &["second", "receipts"],
    ),
    (
        "begin|second|padded",
        Ask::Begin(Side::Second, Format::Padded),
        &["second", "padded"],
    ),
    (
        "begin|first|--|padded",
        Ask::Begin(Side::First, Format::Padded),
        &["first", "padded"],
    ),
    ("say|hi", Ask::Say, &["hi"]),
    ("say|two words", Ask::Say, &["two words"]),
    ("say|", Ask::Say, &[""]),
    ("say|-", Ask::Say, &["-"]),
    ("say|a-b", Ask::Say, &["a-b"]),
    ("say|--|-x", Ask::Say, &["-x"]),
    ("say|--|--", Ask::Say, &["--"]),
    ("say|hi|--", Ask::Say, &["hi"]),
    ("say|help", Ask::Say, &["help"]),
    ("take", Ask::Take, &[]),
    ("take|--", Ask::Take, &[]),
    ("inbox", Ask::Inbox, &[]),
    ("done|0", Ask::Done(0), &["0"]),
    ("done|128", Ask::Done(128), &["128"]),
    ("done|+5", Ask::Done(5), &["+5"]),
    ("done|007", Ask::Done(7), &["007"]),
    ("sent|32", Ask::Sent(32), &["32"]),
    ("outbox", Ask::Outbox, &[]),
    ("awaiting", Ask::Awaiting, &[]),
    ("relay-keys", Ask::RelayKeys, &[]),
    ("long|0", Ask::Long(0), &["0"]),
    ("long|4294967295", Ask::Long(4_294_967_295), &["4294967295"]),
    ("done-long|+7", Ask::DoneLong(7), &["+7"]),
    ("state", Ask::State, &[]),
    ("check", Ask::Check, &[]),
    ("sync|127.0.0.1:4000", Ask::Sync, &["127.0.0.1:4000"]),
    ("sync|--|-a", Ask::Sync, &["-a"]),
    ("duet", Ask::Duet, &[]),
    (
        "duet-make|1|0",
        Ask::DuetMake {
            rounds: 1,
            number: 0,
        },
        &["1", "0"],
    ),
    (
        "duet-make|1000|18446744073709551615",
        Ask::DuetMake {
            rounds: 1000,
            number: u64::MAX,
        },
        &["1000", "18446744073709551615"],
    ),
    (
        "duet-make|--|+7|007",
        Ask::DuetMake {
            rounds: 7,
            number: 7,
        },
        &["+7", "007"],
    ),
    (
        "relay|65535|1000000|a",
        Ask::Relay {
            port: 65_535,
            count: 1_000_000,
        },
        &["65535", "1000000", "a"],
    ),
    (
        "relay|+4000|007|a|b|c",
        Ask::Relay {
            port: 4000,
            count: 7,
        },
        &["+4000", "007", "a", "b", "c"],
    ),
    (
        "relay|4000|1||a||",
        Ask::Relay {
            port: 4000,
            count: 1,
        },
        &["4000", "1", "", "a", "", ""],
    ),
    (
        "relay|4000|1|a|--|-b|--",
        Ask::Relay {
            port: 4000,
            count: 1,
        },
        &["4000", "1", "a", "-b", "--"],
    ),
    (
        "relay|--|4000|1|--|a",
        Ask::Relay {
            port: 4000,
            count: 1,
        },
        &["4000", "1", "--", "a"],
    ),
];

/// Whether a command has just these values.
fn has(found: &Command<'_>, values: &[&str]) -> bool {
    for (at, &value) in values.iter().enumerate() {
        if found.value(at) != value {
            return false;
        }
    }
    found.values.len() == values.len()
}

/// Whether the words ask for this there, with these values.
pub fn are(alloc: Global, place: Where, (line, ask, values): Row<'_>) -> Result<bool, AllocError> {
    let words = words_of(alloc, line)?;
    match parse(alloc, words.as_slice())? {
        Some(found) => Ok(found.place == place && found.ask == ask && has(&found, values)),
        None => Ok(false),
    }
}

#[test]
fn words_are_commands(rt: HostRuntime) -> Result<(), Fail> {
    for row in ROWS {
        assert!(rt; are(rt.alloc(), Where::Folder, row)?, "{}", row.0);
    }
    Ok(())
}
