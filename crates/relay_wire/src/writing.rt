//! Writing requests and replies.

ghost use Rattle.std.specs.Prelude.{◌≡◌, ◌+◌, ◌≤◌, ◌∷◌, ◌++◌, length, option_map};
ghost use Rattle.relay_guard.specs.Seen.{token_seen};
ghost use Rattle.dr_base.specs.Buffer.{Puts};
ghost use Rattle.grammar.specs.Printer.{HasRoom};
ghost use Rattle.relay_wire.specs.Frames.{framed};
ghost use Rattle.relay_wire.specs.Replies.{reply_body};
ghost use Rattle.relay_wire.specs.Requests.{plain_body, request_body, token_text};
ghost use Rattle.relay_wire.specs.Seen.{asked_of, replied_of};
ghost use Rattle.relay_wire.specs.declared.limits.TheConstants.{BODY_LIMIT, FRAME_LIMIT, TOKEN_LEN};

use crate::limits::TOKEN_LEN;
use crate::reply::Reply;
use crate::reply_reading::{ABSENT, ACKED, BAD, BOX_FULL, DENIED, EMPTY, ITEM, STORED, UNKNOWN};
use crate::request::{Ask, Request};
use crate::request_reading::{ACK, FETCH, POST, TOKEN};
use arrayvec::ArrayVec;
use dr_base::{put, put_u16};
use relay_guard::Token;

/// How many bytes stand before a request with a token: a byte that says so, and the token.
const HEAD_LEN: usize = 1 + TOKEN_LEN;

/// Writes the frame of a head, a first byte and three parts after it.
fn put_frame(out: &mut [u8], head: &[u8], first: u8, one: &[u8], two: &[u8], three: &[u8]) -> usize
    requires fits { length head.now + 1 + length one.now + length two.now + length three.now
        ≤ BODY_LIMIT }
    requires room { HasRoom FRAME_LIMIT
        (framed (head.now ++ (first ∷ (one.now ++ (two.now ++ three.now))))) (length out.old) }
    ensures { Puts out.old out.new 0
        (framed (head.now ++ (first ∷ (one.now ++ (two.now ++ three.now))))) result }
{
    let size = head.len() + 1 + one.len() + two.len() + three.len();
    let at_head = put_u16(out, 0, size as u16);
    let at_first = put(out, at_head, head);
    let at_one = put(out, at_first, &[first]);
    let at_two = put(out, at_one, one);
    let at_three = put(out, at_two, two);
    put(out, at_three, three)
}

/// What stands before a request with a token.
fn token_head(token: &Option<Token<'_>>) -> ArrayVec<u8, HEAD_LEN>
    ensures text { result.items ≡ token_text (option_map token_seen token.now) }
    ensures few { length result.items ≤ 1 + TOKEN_LEN }
{
    let mut head = ArrayVec::new();
    if let Some(token) = token {
        head.try_push(TOKEN).unwrap();
        head.try_extend_from_slice(&token.counter.to_be_bytes())
            .unwrap();
        let tag = token.tag;
        head.try_extend_from_slice(tag).unwrap();
    }
    head
}

/// Writes the frame of a request at the beginning, and answers how many bytes it has. A buffer of
/// `FRAME_LIMIT` bytes holds any.
#[tactic(auto, unfolding(crate::specs::Requests::request_body, crate::specs::Requests::plain_body))]
pub fn write_request(request: &Request<'_>, out: &mut [u8]) -> usize
    requires { HasRoom FRAME_LIMIT (framed (request_body (asked_of request.now))) (length out.old) }
    ensures { Puts out.old out.new 0 (framed (request_body (asked_of request.now))) result }
{
    let name = request.name.bytes();
    let size = [name.len() as u8];
    let head = token_head(&request.token);
    match &request.ask {
        Ask::Post(packet) => put_frame(out, head.as_slice(), POST, &size, name, packet.bytes()),
        Ask::Fetch => put_frame(out, head.as_slice(), FETCH, &size, name, &[]),
        Ask::Ack(number) => put_frame(
            out,
            head.as_slice(),
            ACK,
            &size,
            name,
            &number.to_be_bytes(),
        ),
    }
}

/// Writes the frame of a reply at the beginning, and answers how many bytes it has. A buffer of
/// `FRAME_LIMIT` bytes holds any.
#[tactic(auto, unfolding(crate::specs::Replies::reply_body))]
pub fn write_reply(reply: &Reply<'_>, out: &mut [u8]) -> usize
    requires { HasRoom FRAME_LIMIT (framed (reply_body (replied_of reply.now))) (length out.old) }
    ensures { Puts out.old out.new 0 (framed (reply_body (replied_of reply.now))) result }
{
    match reply {
        Reply::Stored(number) => put_frame(out, &[], STORED, &[], &number.to_be_bytes(), &[]),
        Reply::Item(number, packet) => {
            put_frame(out, &[], ITEM, &[], &number.to_be_bytes(), packet.bytes())
        }
        Reply::Empty => put_frame(out, &[], EMPTY, &[], &[], &[]),
        Reply::Acked => put_frame(out, &[], ACKED, &[], &[], &[]),
        Reply::BoxFull => put_frame(out, &[], BOX_FULL, &[], &[], &[]),
        Reply::Unknown => put_frame(out, &[], UNKNOWN, &[], &[], &[]),
        Reply::Absent(number) => put_frame(out, &[], ABSENT, &[], &number.to_be_bytes(), &[]),
        Reply::Bad(kind) => put_frame(out, &[], BAD, &[], &[*kind], &[]),
        Reply::Denied(denied) => {
            put_frame(
                out,
                &[],
                DENIED,
                &[denied.rule],
                &denied.last.to_be_bytes(),
                &[],
            )
        }
    }
}
