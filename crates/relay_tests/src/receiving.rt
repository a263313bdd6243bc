//! Frames that come out of a link into a reader's own room.

use dr_ports::MemoryLink;
use relay_wire::FrameReader;
use std::alloc::Global;

/// A frame of 5 bytes and one of 3.
const STREAM: &[u8] = b"\x00\x03\x02\x01a\x00\x01\x83";

/// Whether this many bytes come, and no whole frame stood before.
fn comes(reader: &mut FrameReader, link: &mut MemoryLink, count: usize) -> bool {
    let wanted = reader.wanted();
    if wanted == 0 || !reader.fits(wanted) {
        return false;
    }
    match reader.receive(link) {
        Ok(came) => came == count,
        Err(_) => false,
    }
}

/// Whether a frame stands at this place, with these bytes.
fn gives(reader: &mut FrameReader, place: u64, bytes: &[u8]) -> bool {
    matches!(reader.next(), Some(frame) if frame.place() == place && frame.bytes() == bytes)
}

/// Whether each frame comes by its length and then its body, and nothing after them.
fn are_received(reader: &mut FrameReader, link: &mut MemoryLink) -> bool {
    comes(reader, link, 2)
        && comes(reader, link, 3)
        && gives(reader, 0, &STREAM[..5])
        && comes(reader, link, 2)
        && comes(reader, link, 1)
        && gives(reader, 5, &STREAM[5..])
        && comes(reader, link, 0)
}

/// The same of a link that gives both, and a new reader.
fn come_out(alloc: Global) -> bool {
    let Ok(mut reader) = FrameReader::new(alloc) else {
        return false;
    };
    match MemoryLink::new(alloc, STREAM, 0, &[]) {
        Ok(mut link) => are_received(&mut reader, &mut link),
        Err(_) => false,
    }
}

#[test]
fn frames_come_out_of_a_link(rt: HostRuntime) {
    assert!(rt; come_out(rt.alloc()));
}
