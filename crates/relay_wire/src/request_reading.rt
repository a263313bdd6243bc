//! Reading a request.

ghost use Rattle.std.specs.Prelude.{◌≡◌, ◌^◌, ◌<◌, ◌+◌, ◌≤◌, ℕ, drop, length, nat_le, true, Option, is_some, IfOk, IfSome};
ghost use Rattle.relay_guard.specs.Seen.{token_seen};
ghost use Rattle.relay_wire.specs.Requests.{read_guarded, read_inner, read_named, read_request, read_rest, token_of};
ghost use Rattle.relay_wire.specs.Seen.{IsAskLaid, IsLaid, ParsesAsk, ParsesRequest, name_place};
ghost use Rattle.relay_wire.specs.declared.limits.TheConstants.{TOKEN_LEN};

use crate::frame::Frame;
use crate::limits::TOKEN_LEN;
use crate::name::NameRef;
use crate::packet::Packet;
use crate::request::{Ask, Bad, Request};
use relay_guard::Token;

/// The first byte of a request that posts.
pub const POST: u8 = 1;

/// The first byte of a request that fetches.
pub const FETCH: u8 = 2;

/// The first byte of a request that acknowledges.
pub const ACK: u8 = 3;

/// The first byte of a request with a token.
pub(crate) const TOKEN: u8 = 4;

/// The kinds of what may be wrong, in the order in which they are looked for.
const LENGTH: u8 = 1;

const FIRST_BYTE: u8 = 2;

const NAME: u8 = 3;

const REST: u8 = 4;

/// A packet, which is all that stands after the name.
#[tactic(auto, unfolding(crate::specs::Requests::read_rest))]
fn posted(rest: &[u8], place: u64) -> Result<Ask<'_>, Bad>
    ensures reads { ParsesAsk result (read_rest 1 rest.now) }
    ensures laid { IfOk result (λ ask. IsAskLaid ask 0 rest.now place) }
{
    match Packet::at(place, rest) {
        Some(packet) => Ok(Ask::Post(packet)),
        None => Err(Bad { kind: REST }),
    }
}

/// A number, which is all that stands after the name.
#[tactic(auto, unfolding(crate::specs::Requests::read_rest))]
fn acknowledged<'a>(rest: &[u8]) -> Result<Ask<'a>, Bad>
    ensures reads { ParsesAsk result (read_rest 3 rest.now) }
    ensures laid { (place : ℕ) → IfOk result (λ ask. IsAskLaid ask 0 rest.now place) }
{
    match <&[u8; 8]>::try_from(rest) {
        Ok(bytes) => Ok(Ask::Ack(u64::from_be_bytes(*bytes))),
        Err(_) => Err(Bad { kind: REST }),
    }
}

/// What is asked, by the first byte and what stands after the name, at this place.
#[tactic(auto, unfolding(crate::specs::Requests::read_rest))]
fn parse_rest(first: u8, rest: &[u8], place: u64) -> Result<Ask<'_>, Bad>
    requires from { 1 ≤ first }
    requires to { first ≤ 3 }
    ensures reads { ParsesAsk result (read_rest first rest.now) }
    ensures laid { IfOk result (λ ask. IsAskLaid ask 0 rest.now place) }
{
    if first == POST {
        posted(rest, place)
    } else if first == FETCH {
        if rest.is_empty() {
            Ok(Ask::Fetch)
        } else {
            Err(Bad { kind: REST })
        }
    } else {
        acknowledged(rest)
    }
}

/// A name after its length, and what stands after it, from this place on.
#[tactic(auto, unfolding(crate::specs::Requests::read_named))]
fn parse_named(first: u8, bytes: &[u8], place: u64) -> Result<Request<'_>, Bad>
    requires from { 1 ≤ first }
    requires to { first ≤ 3 }
    requires ends { place + length bytes.now < 2 ^ 64 }
    ensures reads { ParsesRequest result (read_named first bytes.now) }
    ensures laid { IfOk result (λ request. IsLaid request 1 bytes.now place) }
    ensures bare { IfOk result (λ request. request.token ≡ Option.None) }
{
    let Some((size, rest)) = bytes.split_first() else {
        return Err(Bad { kind: NAME });
    };
    let size = usize::from(*size);
    if size > rest.len() {
        return Err(Bad { kind: NAME });
    }
    let (name, rest) = rest.split_at(size);
    let at = place + 1;
    let Some(name) = NameRef::at(at, name) else {
        return Err(Bad { kind: NAME });
    };
    match parse_rest(first, rest, at + size as u64) {
        Ok(ask) => Ok(Request {
            name,
            ask,
            token: None,
        }),
        Err(bad) => Err(bad),
    }
}

/// The request behind a token, which begins at this place.
#[tactic(auto, unfolding(crate::specs::Requests::read_inner))]
fn parse_inner(bytes: &[u8], place: u64) -> Result<Request<'_>, Bad>
    requires ends { place + length bytes.now < 2 ^ 64 }
    ensures reads { ParsesRequest result (read_inner bytes.now) }
    ensures laid { IfOk result (λ request. IsLaid request 2 bytes.now place) }
{
    let Some((first, rest)) = bytes.split_first() else {
        return Err(Bad { kind: REST });
    };
    if *first < POST || *first > ACK {
        return Err(Bad { kind: REST });
    }
    parse_named(*first, rest, place + 1)
}

/// A token, and what stands behind it; nothing where the token is cut short.
fn split_token(bytes: &[u8]) -> Option<(Token<'_>, &[u8])>
    ensures variant { is_some result ≡ nat_le TOKEN_LEN (length bytes.now) }
    ensures token { IfSome result (λ pair. token_seen pair.0 ≡ token_of bytes.now) }
    ensures inner { IfSome result (λ pair. pair.1.now ≡ drop TOKEN_LEN bytes.now) }
{
    let (counter, more) = bytes.split_first_chunk::<8>()?;
    let (tag, inner) = more.split_first_chunk::<32>()?;
    let counter = u64::from_be_bytes(*counter);
    Some((Token { counter, tag }, inner))
}

/// A token and the request behind it, which begin at this place.
#[tactic(auto, unfolding(crate::specs::Requests::read_guarded))]
fn parse_guarded(bytes: &[u8], place: u64) -> Result<Request<'_>, Bad>
    requires ends { place + length bytes.now < 2 ^ 64 }
    ensures reads { ParsesRequest result (read_guarded bytes.now) }
    ensures laid { IfOk result (λ request. IsLaid request (TOKEN_LEN + 2) bytes.now place) }
    ensures token { IfOk result (λ request. is_some request.token ≡ true) }
{
    let Some((token, inner)) = split_token(bytes) else {
        return Err(Bad { kind: REST });
    };
    match parse_inner(inner, place + TOKEN_LEN as u64) {
        Ok(request) => Ok(request.with_token(token)),
        Err(bad) => Err(bad),
    }
}

/// Reads a request, whose parts are lent from the frame, or finds the first kind of what is wrong
/// with the frame.
#[tactic(auto, unfolding(crate::specs::Requests::read_request))]
pub fn parse_request<'a>(frame: &Frame<'a>) -> Result<Request<'a>, Bad>
    ensures reads { ParsesRequest result (read_request (drop 2 frame.now.bytes.now)) }
    // The name stands after the length, a token, the first byte and its own length.
    ensures laid { IfOk result (λ request.
        IsLaid request (name_place request.token) frame.now.bytes.now frame.now.place) }
{
    let Some((first, rest)) = frame.body().split_first() else {
        return Err(Bad { kind: LENGTH });
    };
    if *first == TOKEN {
        return parse_guarded(rest, frame.place() + 3);
    }
    if *first < POST || *first > ACK {
        return Err(Bad { kind: FIRST_BYTE });
    }
    parse_named(*first, rest, frame.place() + 3)
}
