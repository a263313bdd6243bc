//! Frames from the format's worked examples: what each says, and the reasons against those that say
//! nothing.

ghost use Rattle.std.specs.Prelude.{◌≡◌, ◌<◌, ◌^◌, [], length};

use relay_wire::{
    Ask, Bad, BadReply, FRAME_LIMIT, Frame, FrameReader, Name, Reply, Request, parse_reply,
    parse_request, write_reply, write_request,
};
use std::alloc::Global;

/// The bytes of a frame, and the kind of what is wrong, 0 where it is a request.
const REQUESTS: [(&[u8], u8); 15] = [
    (b"\x00\x03\x02\x01a", 0),
    (b"\x00\x04\x01\x01a\x07", 0),
    (b"\x00\x0b\x03\x01a\x00\x00\x00\x00\x00\x00\x00\x01", 0),
    (b"\x00\x00", 1),
    (b"\x20\x01", 1),
    (b"\xff\xff", 1),
    (b"\x00\x01\x09", 2),
    (b"\x00\x03\x00\x02a", 2),
    (b"\x00\x01\x01", 3),
    (b"\x00\x03\x02\x02a", 3),
    (b"\x00\x03\x02\x01A", 3),
    (b"\x00\x03\x01\x01a", 4),
    (b"\x00\x04\x02\x01a\x00", 4),
    (b"\x00\x0a\x03\x01a\x00\x00\x00\x00\x00\x00\x01", 4),
    (
        b"\x00\x2c\x04\0\0\0\0\0\0\0\x09wwwwwwwwwwwwwwwwwwwwwwwwwwwwwwww\x02\x01a",
        0,
    ),
];

/// The bytes of a frame, and why it is no reply.
const REPLIES: [(&[u8], Option<BadReply>); 16] = [
    (b"\x00\x09\x81\x00\x00\x00\x00\x00\x00\x00\x01", None),
    (b"\x00\x0a\x82\x00\x00\x00\x00\x00\x00\x00\x01\x07", None),
    (b"\x00\x01\x83", None),
    (b"\x00\x01\x84", None),
    (b"\x00\x01\x85", None),
    (b"\x00\x01\x86", None),
    (b"\x00\x09\x87\x00\x00\x00\x00\x00\x00\x00\x01", None),
    (b"\x00\x02\x88\x02", None),
    (b"\x00\x0a\x89\x03\x00\x00\x00\x00\x00\x00\x00\x07", None),
    (b"\xff\xff", Some(BadReply::Frame)),
    (b"\x00\x01\x55", Some(BadReply::Kind)),
    (b"\x00\x02\x83\x00", Some(BadReply::Size)),
    (b"\x00\x01\x82", Some(BadReply::Size)),
    (b"\x00\x02\x88\x05", Some(BadReply::Size)),
    (b"\x00\x0a\x89\0\0\0\0\0\0\0\0\0", Some(BadReply::Size)),
    (b"\x00\x0a\x89\x04\0\0\0\0\0\0\0\0", Some(BadReply::Size)),
];

/// Feeds these bytes in two pieces to a reader that is cleared first.
fn feed(reader: &mut FrameReader, bytes: &[u8])
    requires { length bytes.now < 2 ^ 32 }
    ensures { reader.new.place ≡ 0 }
{
    reader.clear();
    let middle = bytes.len() / 2;
    let _front = reader.feed(&bytes[..middle]);
    let _rest = reader.feed(&bytes[middle..]);
}

/// Whether a request is written as these bytes.
fn is_asked(request: &Request<'_>, bytes: &[u8]) -> bool {
    let mut out = [0; FRAME_LIMIT];
    let len = write_request(request, &mut out);
    out.get(..len) == Some(bytes)
}

/// Whether a frame of these bytes is a request, written so again, or has this kind of fault.
fn is_request(frame: &Frame<'_>, bytes: &[u8], kind: u8) -> bool {
    match parse_request(frame) {
        Ok(request) => kind == 0 && is_asked(&request, bytes),
        Err(bad) => bad == Bad { kind },
    }
}

/// The same of the frame that a reader gives for these bytes.
fn gives_request(reader: &mut FrameReader, bytes: &[u8], kind: u8) -> bool
    requires { length bytes.now < 2 ^ 32 }
{
    feed(reader, bytes);
    match reader.next() {
        Some(frame) => is_request(&frame, bytes, kind),
        None => false,
    }
}

/// Whether each frame is the request that it should be, or none.
fn are_requests(reader: &mut FrameReader) -> bool {
    for (bytes, kind) in REQUESTS {
        if !gives_request(reader, bytes, kind) {
            return false;
        }
    }
    true
}

/// Whether a reply is written as these bytes.
fn is_replied(reply: &Reply<'_>, bytes: &[u8]) -> bool {
    let mut out = [0; FRAME_LIMIT];
    let len = write_reply(reply, &mut out);
    out.get(..len) == Some(bytes)
}

/// Whether a frame of these bytes is a reply, written so again, or none for this reason.
fn is_reply(frame: &Frame<'_>, bytes: &[u8], bad: Option<BadReply>) -> bool {
    match parse_reply(frame) {
        Ok(reply) => bad.is_none() && is_replied(&reply, bytes),
        Err(reason) => bad == Some(reason),
    }
}

/// The same of the frame that a reader gives for these bytes.
fn gives_reply(reader: &mut FrameReader, bytes: &[u8], bad: Option<BadReply>) -> bool
    requires { length bytes.now < 2 ^ 32 }
{
    feed(reader, bytes);
    match reader.next() {
        Some(frame) => is_reply(&frame, bytes, bad),
        None => false,
    }
}

/// Whether each frame is the reply that it should be, or none.
fn are_replies(reader: &mut FrameReader) -> bool {
    for (bytes, bad) in REPLIES {
        if !gives_reply(reader, bytes, bad) {
            return false;
        }
    }
    true
}

/// Two frames of one stream: of 5 bytes, and a post of three bytes to the box `a`.
const STREAM: &[u8] = b"\x00\x03\x02\x01a\x00\x06\x01\x01axyz";

/// Whether a request has its name and its packet at these places, and these bytes are that packet.
fn lies(request: &Request<'_>, name: u64, packet: u64, bytes: &[u8]) -> bool {
    match &request.ask {
        Ask::Post(posted) => {
            request.name.place() == name && posted.place() == packet && posted.bytes() == bytes
        }
        _ => false,
    }
}

/// Whether a frame is at this place, and a request that lies so in its stream.
fn is_placed(frame: &Frame<'_>, place: u64, name: u64, packet: u64, bytes: &[u8]) -> bool {
    match parse_request(frame) {
        Ok(request) => frame.place() == place && lies(&request, name, packet, bytes),
        Err(_) => false,
    }
}

/// Whether the second frame begins at 5, with its name at 9 and its packet at 10: behind its
/// length, its kind, the length of the name, and the name.
fn are_placed(reader: &mut FrameReader) -> bool
    requires { reader.old ≡ record { bytes = []; place = 0 } }
{
    if !reader.fits(STREAM.len()) {
        return false;
    }
    let taken = reader.feed(STREAM);
    if !matches!(reader.next(), Some(frame) if frame.place() == 0) {
        return false;
    }
    let _rest = reader.feed(&STREAM[taken..]);
    match reader.next() {
        Some(frame) => is_placed(&frame, 5, 9, 10, b"xyz"),
        None => false,
    }
}

/// Whether a new reader does all of that.
fn reads_all(alloc: Global) -> bool {
    match FrameReader::new(alloc) {
        Ok(mut reader) => {
            are_placed(&mut reader) && are_requests(&mut reader) && are_replies(&mut reader)
        }
        Err(_) => false,
    }
}

#[test]
fn frames_are_read_and_written(rt: HostRuntime) {
    assert!(rt; reads_all(rt.alloc()));
    assert!(rt; Name::new(b"").is_none());
    assert!(rt; Name::new(b"a-9").is_some());
}
