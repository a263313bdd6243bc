//! Reading a reply.

ghost use Rattle.std.specs.Prelude.{◌≡◌, ◌^◌, ◌<◌, ◌+◌, ℕ, drop, length, IfOk};
ghost use Rattle.relay_wire.specs.Replies.{bare, numbered, read_bad, read_denied, read_item, read_reply, read_reply_rest, stored, absent};
ghost use Rattle.relay_wire.specs.Seen.{IsReplyLaid, ParsesReply, replied_of};

use crate::frame::Frame;
use crate::packet::Packet;
use crate::reply::{BadReply, Reply};
use relay_guard::Denied;

/// The first byte of each reply.
pub(crate) const STORED: u8 = 0x81;

pub(crate) const ITEM: u8 = 0x82;

pub(crate) const EMPTY: u8 = 0x83;

pub(crate) const ACKED: u8 = 0x84;

pub(crate) const BOX_FULL: u8 = 0x85;

pub(crate) const UNKNOWN: u8 = 0x86;

pub(crate) const ABSENT: u8 = 0x87;

pub(crate) const BAD: u8 = 0x88;

pub(crate) const DENIED: u8 = 0x89;

/// A number, which is all that stands after the first byte.
fn parse_stored<'a>(rest: &[u8]) -> Result<Reply<'a>, BadReply>
    ensures reads { ParsesReply result (numbered stored rest.now) }
    ensures laid { (place : ℕ) → IfOk result (λ reply. IsReplyLaid reply 8 rest.now place) }
{
    match <&[u8; 8]>::try_from(rest) {
        Ok(bytes) => Ok(Reply::Stored(u64::from_be_bytes(*bytes))),
        Err(_) => Err(BadReply::Size),
    }
}

/// A number, which is all that stands after the first byte.
fn parse_absent<'a>(rest: &[u8]) -> Result<Reply<'a>, BadReply>
    ensures reads { ParsesReply result (numbered absent rest.now) }
    ensures laid { (place : ℕ) → IfOk result (λ reply. IsReplyLaid reply 8 rest.now place) }
{
    match <&[u8; 8]>::try_from(rest) {
        Ok(bytes) => Ok(Reply::Absent(u64::from_be_bytes(*bytes))),
        Err(_) => Err(BadReply::Size),
    }
}

/// A number, and a packet, which is all that stands after it.
fn parse_item(rest: &[u8], place: u64) -> Result<Reply<'_>, BadReply>
    requires ends { place + length rest.now < 2 ^ 64 }
    ensures reads { ParsesReply result (read_item rest.now) }
    ensures laid { IfOk result (λ reply. IsReplyLaid reply 8 rest.now place) }
{
    let Some((number, packet)) = rest.split_first_chunk::<8>() else {
        return Err(BadReply::Size);
    };
    match Packet::at(place + 8, packet) {
        Some(packet) => Ok(Reply::Item(u64::from_be_bytes(*number), packet)),
        None => Err(BadReply::Size),
    }
}

/// A kind in one byte, which is all that stands after the first byte.
fn parse_bad<'a>(rest: &[u8]) -> Result<Reply<'a>, BadReply>
    ensures reads { ParsesReply result (read_bad rest.now) }
    ensures laid { (place : ℕ) → IfOk result (λ reply. IsReplyLaid reply 8 rest.now place) }
{
    match rest {
        [kind] if *kind >= 1 && *kind <= 4 => Ok(Reply::Bad(*kind)),
        _ => Err(BadReply::Size),
    }
}

/// A rule in one byte and a number, which is all that stands after the first byte.
fn parse_denied<'a>(rest: &[u8]) -> Result<Reply<'a>, BadReply>
    ensures reads { ParsesReply result (read_denied rest.now) }
    ensures laid { (place : ℕ) → IfOk result (λ reply. IsReplyLaid reply 8 rest.now place) }
{
    let Some((rule, last)) = rest.split_first() else {
        return Err(BadReply::Size);
    };
    if *rule < 1 || *rule > 3 {
        return Err(BadReply::Size);
    }
    match <&[u8; 8]>::try_from(last) {
        Ok(bytes) => Ok(Reply::Denied(Denied {
            rule: *rule,
            last: u64::from_be_bytes(*bytes),
        })),
        Err(_) => Err(BadReply::Size),
    }
}

/// A reply after whose first byte nothing stands.
fn parse_bare<'a>(reply: Reply<'a>, rest: &[u8]) -> Result<Reply<'a>, BadReply>
    ensures reads { ParsesReply result (bare (replied_of reply.entry) rest.now) }
    ensures same { IfOk result (λ read. read ≡ reply.entry) }
{
    if rest.is_empty() {
        Ok(reply)
    } else {
        Err(BadReply::Size)
    }
}

/// A reply, by its first byte and what stands after it, at this place.
#[tactic(auto, unfolding(crate::specs::Replies::read_reply_rest))]
fn parse_rest(first: u8, rest: &[u8], place: u64) -> Result<Reply<'_>, BadReply>
    requires ends { place + length rest.now < 2 ^ 64 }
    ensures reads { ParsesReply result (read_reply_rest first rest.now) }
    ensures laid { IfOk result (λ reply. IsReplyLaid reply 8 rest.now place) }
{
    match first {
        STORED => parse_stored(rest),
        ITEM => parse_item(rest, place),
        EMPTY => parse_bare(Reply::Empty, rest),
        ACKED => parse_bare(Reply::Acked, rest),
        BOX_FULL => parse_bare(Reply::BoxFull, rest),
        UNKNOWN => parse_bare(Reply::Unknown, rest),
        ABSENT => parse_absent(rest),
        BAD => parse_bad(rest),
        DENIED => parse_denied(rest),
        _ => Err(BadReply::Kind),
    }
}

/// Reads a reply, whose packet is lent from the frame, or finds the first reason why the frame is
/// none.
#[tactic(auto, unfolding(crate::specs::Replies::read_reply))]
pub fn parse_reply<'a>(frame: &Frame<'a>) -> Result<Reply<'a>, BadReply>
    ensures reads { ParsesReply result (read_reply (drop 2 frame.now.bytes.now)) }
    // A packet stands after the length, the first byte and its number.
    ensures laid { IfOk result (λ reply. IsReplyLaid reply 11 frame.now.bytes.now frame.now.place) }
{
    let Some((first, rest)) = frame.body().split_first() else {
        return Err(BadReply::Frame);
    };
    parse_rest(*first, rest, frame.place() + 3)
}
