//! A request, and its reply.

ghost use Rattle.std.specs.Prelude.{◌≡◌, ◌≤◌, [], Err, IfErr, IfOk, OnOk, drop, length, take};
ghost use Rattle.relay_pipe.specs.Asking.{Asks, FailsToAsk, IsPulled, LeavesLink};
ghost use Rattle.relay_wire.specs.Frames.{IsFrame};
ghost use Rattle.relay_wire.specs.Framed.{reply_text, request_frame};
ghost use Rattle.relay_wire.specs.Replies.{IsLawfulReplied, read_reply};
ghost use Rattle.relay_wire.specs.Seen.{IsReplyLaid, asked_of, replied_of};
ghost use Rattle.relay_wire.specs.declared.limits.TheConstants.{FRAME_LIMIT};

use crate::faults::{AskFault, PeerFault, PeerKind, fault_of};
use crate::pulling::{pull, send_all};
use dr_ports::{Failed, Pipe};
use relay_wire::{
    BadReply, FRAME_LIMIT, Frame, FrameReader, Reply, Request, parse_reply, write_request,
};

/// Writes a request's frame, and answers how many bytes it has.
fn written(request: &Request<'_>, room: &mut [u8]) -> usize
    requires { FRAME_LIMIT ≤ length room.old }
    ensures fits { result ≤ length room.old }
    ensures room { length room.new ≡ length room.old }
    ensures frame { take result room.new ≡ request_frame (asked_of request.now) }
{
    write_request(request, room)
}

/// The reply of a frame, whose bytes these are.
fn read<'a>(frame: &Frame<'a>, bytes: &[u8]) -> Result<Reply<'a>, BadReply>
    requires { bytes.now ≡ frame.now.bytes.now }
    ensures reply { IfOk result (λ reply. bytes.now ≡ reply_text (replied_of reply)) }
    ensures lawful { IfOk result (λ reply. IsLawfulReplied (replied_of reply)) }
    ensures laid { IfOk result (λ reply. IsReplyLaid reply 11 frame.now.bytes.now frame.now.place) }
    ensures bad { IfErr result (λ bad. read_reply (drop 2 frame.now.bytes.now) ≡ Err bad) }
{
    match parse_reply(frame) {
        Err(bad) => Err(bad),
        Ok(reply) => Ok(reply),
    }
}

/// The reply that stands in the reader.
fn read_next(reader: &mut FrameReader) -> Result<Reply<'_>, BadReply>
    requires { IsFrame reader.old.bytes }
    ensures reply { IfOk result (λ reply. reader.old.bytes ≡ reply_text (replied_of reply)) }
    ensures lawful { IfOk result (λ reply. IsLawfulReplied (replied_of reply)) }
    ensures laid { IfOk result (λ reply. IsReplyLaid reply 11 reader.old.bytes reader.old.place) }
    ensures bad { IfErr result (λ bad. read_reply (drop 2 reader.old.bytes) ≡ Err bad) }
{
    match reader.next() {
        Some(frame) => read(&frame, frame.bytes()),
        None => unreachable!(),
    }
}

/// Sends a request by way of this room, and pulls its reply.
fn exchange<P: Pipe>(
    pipe: &mut P,
    reader: &mut FrameReader,
    room: &mut [u8],
    request: &Request<'_>,
) -> Result<(), AskFault>
    requires fresh { reader.old ≡ record { bytes = []; place = 0 } }
    requires room { FRAME_LIMIT ≤ length room.old }
    ensures pulled { OnOk result
        (IsPulled (asked_of request.now) reader.new (P.port pipe.old) (P.port pipe.new)) }
    ensures fails { IfErr result
        (FailsToAsk (asked_of request.now) (P.port pipe.old) (P.port pipe.new)) }
    ensures link { LeavesLink P.port P.behind pipe.old pipe.new }
{
    let size = written(request, room);
    match send_all(pipe, &room[..size]) {
        Err(Failed) => return Err(AskFault::Pipe),
        Ok(()) => {}
    }
    match pull(reader, pipe) {
        Err(Failed) => Err(AskFault::Pipe),
        Ok(false) => Err(AskFault::Peer(PeerFault {
            at: reader.held(),
            kind: PeerKind::Ended,
        })),
        Ok(true) => Ok(()),
    }
}

/// Sends a request, and reads its reply, which is lent from the reader. What that holds is dropped
/// first. The pipe fails only where its count rose; a fault of the peer's is that of the bytes that
/// came.
pub fn ask<'a, P: Pipe>(
    pipe: &mut P,
    reader: &'a mut FrameReader,
    request: &Request<'_>,
) -> Result<Reply<'a>, AskFault>
    ensures asks { Asks (asked_of request.now) (P.port pipe.old) (P.port pipe.new) result }
    ensures laid { IfOk result (λ reply. IsReplyLaid reply 11 (reply_text (replied_of reply)) 0) }
    ensures link { LeavesLink P.port P.behind pipe.old pipe.new }
{
    let mut room = [0; FRAME_LIMIT];
    reader.clear();
    match exchange(pipe, reader, &mut room, request) {
        Err(fault) => Err(fault),
        Ok(()) => match read_next(reader) {
            Err(bad) => Err(AskFault::Peer(fault_of(bad))),
            Ok(reply) => Ok(reply),
        },
    }
}
