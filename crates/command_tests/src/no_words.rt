//! Lines of words that are no command.

use crate::words::words_of;
use command_words::parse;
use std::alloc::{AllocError, Global};
use std::test::Fail;

/// Whether the words are no command.
fn are_none(alloc: Global, line: &str) -> Result<bool, AllocError> {
    let words = words_of(alloc, line)?;
    let found = parse(alloc, words.as_slice())?;
    Ok(found == None)
}

/// Words of no command, a line each.
const NONE: &str = "\
-
--
--|take
--help
-h
help
help|say
--version
Take
tak
take|x
take|--help
take|-h
take|--|--
begin
begin|third
begin|First
begin|first|first
begin|first|other
begin|first|Plain
begin|first|receipt
begin|first|
begin|first|-padded
begin|padded|first
begin|plain
begin|first|plain|plain
begin|first|plain|--|x
say
say|--
say|-x
say|--text=hi
say|hi|there
say|hi|--|there
done
done|129
done|-1
done|--|-1
done|
done|+
done|++5
done|5 
awaiting|1
relay-keys|1
long
long|4294967296
long|-1
long|7|8
done-long
done-long|4294967296
done-long|seven
done|0x5
done|18446744073709551680
sent|33
sync
duet|x
duet-make
duet-make|0|1
duet-make|1001|1
duet-make|1|18446744073709551616
relay|4000|1
relay|0|1|a
relay|65536|1|a
relay|4000|0|a
relay|4000|1000001|a
relay|4000|1|a|-b
forget|bob
list
book-
book-bob
Book-list
book-list|bob
book-forget
book-forget|bob|x
book-begin|bob
book-begin|bob|third
book-begin|bob|first|other
book-begin|bob|first|plain|x
book-say|bob
book-say|bob|hi|there
book-say|-bob|hi
book-take
book-take|bob|00
book-inbox
book-outbox
book-state
book-done|bob|129
book-sent|bob|33
book-awaiting|bob
book-long|bob|7
book-done-long|bob|7
book-check|bob
book-sync|bob|127.0.0.1:4000
book-relay|4000|1|a
book-duet
book-book-list";

#[test]
fn other_words_are_none(rt: HostRuntime) -> Result<(), Fail> {
    let alloc = rt.alloc();
    for line in NONE.split('\n') {
        assert!(rt; are_none(alloc, line)?, "{line}");
    }
    assert!(rt; are_none(alloc, "")?);
    assert!(rt; parse(alloc, &[])? == None);
    Ok(())
}
