//! Each source, sink and draw once: what it gives with ample memory, and a fault where one is
//! planned.

use dr_base::Key32;
use dr_ports::{
    Draws, Failed, InputError, MemoryDraws, MemorySink, MemorySource, NullSink, ReaderSource, Sink,
    Source, SteadyDraws, SteadySource, WriterSink, read_whole, write_all,
};
use std::alloc::Global;
use std::fs::{File, OpenOptions};
use std::io::Cursor;

/// Whether a source of the text `text`, whose calls of these numbers fail, ends so for this limit.
fn ends(alloc: Global, fails: &[u64], limit: u16, error: InputError) -> bool {
    let Ok(mut source) = MemorySource::new(alloc, b"text", fails) else {
        return false;
    };
    match read_whole(alloc, &mut source, usize::from(limit)) {
        Ok(_) => false,
        Err(found) => found == error,
    }
}

/// Whether a source gives `text`.
fn gives<S: Source>(alloc: Global, source: &mut S, limit: u16) -> bool {
    match read_whole(alloc, source, usize::from(limit)) {
        Ok(text) => text.as_slice() == b"text".as_slice(),
        Err(_) => false,
    }
}

/// Whether a source that never fails gives its text.
fn gives_all(alloc: Global) -> bool {
    match SteadySource::new(alloc, b"text") {
        Ok(mut source) => gives(alloc, &mut source, 4),
        Err(_) => false,
    }
}

#[test]
fn reads(rt: HostRuntime) {
    let alloc = rt.alloc();
    assert!(rt; ends(alloc, &[], 3, InputError::TooLong));
    assert!(rt; ends(alloc, &[1], 4, InputError::Fault));
    assert!(rt; ends(alloc, &[2], 4, InputError::Fault));
    assert!(rt; gives_all(alloc));
    assert!(rt; gives(alloc, &mut ReaderSource::new(b"text".as_slice()), 9));
    assert!(rt; fails_to_read(&rt));
}

/// Whether a sink with room for five bytes that fails at its second call takes so.
fn takes(sink: &mut MemorySink) -> bool {
    write_all(sink, b"one") == Ok(())
        && write_all(sink, b"two") == Err(Failed)
        && write_all(sink, b"two") == Err(Failed)
        && sink.taken() == b"onetw".as_slice()
}

/// Whether there is such a sink.
fn takes_five(alloc: Global) -> bool {
    match MemorySink::new(alloc, 5, &[2]) {
        Ok(mut sink) => takes(&mut sink),
        Err(_) => false,
    }
}

#[test]
fn writes(rt: HostRuntime) {
    assert!(rt; takes_five(rt.alloc()));
    assert!(rt; NullSink::new().write(b"lost") == Ok(4));
    assert!(rt; takes_three());
    assert!(rt; fails_to_write(&rt));
}

/// Whether draws give seeds with these first bytes next, where 0 is a draw that fails.
fn give<D: Draws>(draws: &mut D, expected: &[u8]) -> bool {
    for &first in expected {
        let given = match draws.draw() {
            Ok(seed) => seed.bytes[0],
            Err(Failed) => 0,
        };
        if given != first {
            return false;
        }
    }
    true
}

const SEEDS: [Key32; 2] = [Key32 { bytes: [1; 32] }, Key32 { bytes: [2; 32] }];

/// Whether draws that never fail give both seeds again and again, and draws that fail once give the
/// seed that was to come the next time.
fn give_in_turn(alloc: Global) -> bool {
    match (
        SteadyDraws::new(alloc, &SEEDS),
        MemoryDraws::new(alloc, &SEEDS, &[2]),
    ) {
        (Ok(mut steady), Ok(mut faulty)) => {
            give(&mut steady, &[1, 2, 1, 2]) && give(&mut faulty, &[1, 0, 2, 1])
        }
        _ => false,
    }
}

#[test]
fn draws_in_turn(rt: HostRuntime) {
    assert!(rt; give_in_turn(rt.alloc()));
}

/// Whether a file that was opened to be written is no source.
fn fails_to_read(rt: &HostRuntime) -> bool {
    match OpenOptions::new().write(true).open(rt, "/dev/null") {
        Ok(file) => ReaderSource::new(file).read(&mut [0; 4]) == Err(Failed),
        Err(_) => false,
    }
}

/// Whether a file that was opened to be read is no sink.
fn fails_to_write(rt: &HostRuntime) -> bool {
    match File::open(rt, "/dev/null") {
        Ok(file) => WriterSink::new(file).write(b"lost") == Err(Failed),
        Err(_) => false,
    }
}

/// Whether a writer with room for three bytes fails to take four.
fn takes_three() -> bool {
    let mut bytes = [0; 3];
    let mut sink = WriterSink::new(Cursor::new(bytes.as_mut_slice()));
    write_all(&mut sink, b"four") == Err(Failed)
}
