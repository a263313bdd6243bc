//! A worked connection, cut at every place.

ghost use Rattle.std.specs.Prelude.{◌≡◌, ◌<◌, ◌≤◌, ◌+◌, ◌^◌, length};

use relay_core::{BoxSpec, Relay, answer_frame};
use relay_wire::{FRAME_LIMIT, Frame, FrameReader, Name};
use std::alloc::Global;

/// Requests for the boxes `a` and `b`, bytes that are none, a frame of no lawful length, and one
/// request more.
const REQUESTS: &[u8] = b"\x00\x03\x02\x01a\x00\x04\x01\x01a\x07\x00\x03\x02\x01a\
    \x00\x0b\x03\x01a\x00\x00\x00\x00\x00\x00\x00\x01\x00\x0b\x03\x01a\x00\x00\x00\x00\x00\x00\x00\x01\
    \x00\x03\x02\x01b\x00\x01\x09\x00\x00\x00\x03\x02\x01a";

/// The replies of a relay with the box `a`, up to the one after which the connection ends.
const REPLIES: &[u8] = b"\x00\x01\x83\x00\x09\x81\x00\x00\x00\x00\x00\x00\x00\x01\
    \x00\x0a\x82\x00\x00\x00\x00\x00\x00\x00\x01\x07\x00\x01\x84\x00\x09\x87\x00\x00\x00\x00\x00\x00\x00\x01\
    \x00\x01\x86\x00\x02\x88\x02\x00\x02\x88\x01";

/// Appends the reply to a frame, and says whether the connection goes on.
fn answer(relay: &mut Relay, frame: &Frame<'_>, replies: &mut Vec<u8>) -> bool {
    let mut out = [0; FRAME_LIMIT];
    let answered = answer_frame(relay, frame, &mut out);
    match out.get(..answered.len) {
        Some(reply) => replies.extend_from_slice(reply).is_ok() && !answered.last,
        None => false,
    }
}

/// Appends the reply to the next frame, if there is one, and says whether the connection goes on.
fn answer_next(relay: &mut Relay, reader: &mut FrameReader, replies: &mut Vec<u8>) -> Option<bool>
    ensures { reader.new.place + length reader.new.bytes
        ≡ reader.old.place + length reader.old.bytes }
{
    match reader.next() {
        Some(frame) => Some(answer(relay, &frame, replies)),
        None => None,
    }
}

/// Appends the replies to a piece, and says whether the connection goes on.
fn answer_piece(
    relay: &mut Relay,
    reader: &mut FrameReader,
    piece: &[u8],
    replies: &mut Vec<u8>,
) -> bool
    requires { reader.old.place + length reader.old.bytes + length piece.now < 2 ^ 64 }
    ensures { reader.new.place + length reader.new.bytes
        ≤ reader.old.place + length reader.old.bytes + length piece.now }
{
    let mut rest = piece;
    'frames: for _ in 0..=piece.len() {
        let taken = reader.feed(rest);
        rest = &rest[taken..];
        match answer_next(relay, reader, replies) {
            Some(true) => {}
            Some(false) => return false,
            None => return true,
        }
    }
    true
}

/// A relay with the box `a`.
fn relay_of(alloc: Global) -> Option<Relay> {
    let Some(name) = Name::new(b"a") else {
        return None;
    };
    match Relay::new(alloc, &[BoxSpec { name, keys: None }]) {
        Ok(relay) => Some(relay),
        Err(_) => None,
    }
}

/// Whether a relay answers the requests in two pieces, which come to a reader that holds nothing.
fn answers(alloc: Global, reader: &mut FrameReader, front: &[u8], back: &[u8]) -> bool
    requires { length front.now + length back.now < 2 ^ 64 }
{
    let Some(mut relay) = relay_of(alloc) else {
        return false;
    };
    let mut replies = Vec::new(alloc);
    reader.clear();
    if answer_piece(&mut relay, reader, front, &mut replies) {
        let _end = answer_piece(&mut relay, reader, back, &mut replies);
    }
    replies.as_slice() == REPLIES
}

/// Whether it answers them wherever they are cut.
fn answer_all(alloc: Global, reader: &mut FrameReader) -> bool {
    for cut in 0..=REQUESTS.len() {
        let (front, back) = REQUESTS.split_at(cut);
        if !answers(alloc, reader, front, back) {
            return false;
        }
    }
    true
}

/// The same, with a reader.
fn are_answered(alloc: Global) -> bool {
    match FrameReader::new(alloc) {
        Ok(mut reader) => answer_all(alloc, &mut reader),
        Err(_) => false,
    }
}

#[test]
fn a_connection_in_any_pieces(rt: HostRuntime) {
    assert!(rt; are_answered(rt.alloc()));
}
