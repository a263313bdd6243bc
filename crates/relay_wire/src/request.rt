//! Requests to the relay.

ghost use Rattle.std.specs.Prelude.{◌≡◌, Option};
ghost use Rattle.relay_guard.specs.Seen.{token_seen};
ghost use Rattle.relay_wire.specs.Requests.{bare_request, posts, fetches, acks};
ghost use Rattle.relay_wire.specs.Seen.{asked_of};

use crate::name::NameRef;
use crate::packet::Packet;
use relay_guard::Token;
use thiserror::Error;

/// What is asked of a box.
#[derive(Drop)]
pub enum Ask<'a> {
    /// That it keeps a packet.
    Post(Packet<'a>),
    /// That it shows its oldest packet.
    Fetch,
    /// That it drops the packet of a number.
    Ack(u64),
}

/// A request: the name of a box, what is asked of it, and the token that goes along, if one does.
/// Its parts are lent.
#[derive(Drop)]
pub struct Request<'a> {
    pub name: NameRef<'a>,
    pub ask: Ask<'a>,
    pub token: Option<Token<'a>>,
}

/// A frame is no request. Its kind is the first of these that is so: 1 its length is 0 or above
/// `BODY_LIMIT`; 2 its first byte says nothing that may be asked; 3 no name stands after its
/// length; 4 what stands after the name isn't as it must be.
#[derive(Clone, Copy, Debug, PartialEq, Eq, Error)]
#[error("the frame is no request, for reason {kind}")]
pub struct Bad {
    pub kind: u8,
}

impl<'a> Request<'a> {
    /// Asks a box to keep a packet.
    pub fn post(name: NameRef<'a>, packet: Packet<'a>) -> Request<'a>
        ensures { asked_of result ≡ bare_request name.entry.bytes (posts packet.entry.bytes) }
    {
        let ask = Ask::Post(packet);
        Request {
            name,
            ask,
            token: None,
        }
    }

    /// Asks a box for its oldest packet.
    pub fn fetch(name: NameRef<'a>) -> Request<'a>
        ensures { asked_of result ≡ bare_request name.entry.bytes fetches }
    {
        let ask = Ask::Fetch;
        Request {
            name,
            ask,
            token: None,
        }
    }

    /// Asks a box to drop the packet of a number.
    pub fn ack(name: NameRef<'a>, number: u64) -> Request<'a>
        ensures { asked_of result ≡ bare_request name.entry.bytes (acks number) }
    {
        let ask = Ask::Ack(number);
        Request {
            name,
            ask,
            token: None,
        }
    }

    /// The same request with a token.
    pub fn with_token(self, token: Token<'a>) -> Request<'a>
        ensures asked { asked_of result
            ≡ record (asked_of self.entry) { token = Option.Some (token_seen token.entry) } }
        ensures name { result.name ≡ self.entry.name }
        ensures ask { result.ask ≡ self.entry.ask }
        ensures token { result.token ≡ Option.Some token.entry }
    {
        let Request {
            name,
            ask,
            token: _,
        } = self;
        Request {
            name,
            ask,
            token: Some(token),
        }
    }
}
