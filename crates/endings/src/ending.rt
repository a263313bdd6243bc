//! How a command can end, one row for each.

ghost use Rattle.std.specs.Prelude.{◌≡◌};
ghost use Rattle.endings.specs.Ending.{code_of};

use crate::peer_name::PeerName;
use long_text::LongRefusal;
use relay_pipe::PeerKind;
use session_model::Refusal;

/// How a command ended, but for a write that failed.
#[derive(Clone, Copy)]
pub enum Ending {
    /// It did its work.
    Done,
    /// The words aren't a command.
    Usage,
    /// The source holds more than this many bytes, the most that the command reads.
    InputTooLong(u32),
    /// The key isn't 64 hex digits.
    BadKey,
    /// The packet isn't an even number of hex digits.
    NotHex,
    /// The first name of a box, from 1, that is unlawful, equals one before, or is one too many.
    BadBox(u32),
    /// The first box, from 1, whose area holds another name.
    BoxName(u32),
    /// The first box, from 1, whose area holds it with another guard.
    BoxKeys(u32),
    /// The name of a session isn't lawful.
    BadName,
    /// A session of the book has the name.
    NameTaken,
    /// No session of the book has the name.
    NoName,
    /// Each of the book's rows, this many, has a session.
    BookFull(u32),
    /// A name is given twice for a fan.
    Twice,
    /// A fan has as many sessions as it may.
    FanFull,
    /// The session of a name refuses the text of a fan.
    PeerRefused { name: PeerName, refusal: Refusal },
    /// The script's first bad line, from 1.
    BadLine(u32),
    /// The session has no keys of its boxes at a relay.
    NoRelayKeys,
    /// A side refuses.
    Refused(Refusal),
    /// The inbox has no long text of the id.
    Unjoined(LongRefusal),
    /// The text has no part of the number: it has this many, from 1.
    NoSuchPart(u32),
    /// The peer's box at the relay is full.
    BoxFull,
    /// The relay has no such box.
    NoBox,
    /// A box at the relay doesn't serve the request, by this rule.
    Denied(u32),
    /// A read of the source failed.
    ReadFault,
    /// A call on a disk failed.
    DiskFault,
    /// A call on the link, or the door's listening or accepting, failed.
    LinkFault,
    /// No seed could be drawn.
    DrawFault,
    /// No session was begun.
    NoSession,
    /// A session was begun before.
    Exists,
    /// A client's table, 0 or 1, or its record is damaged at this place.
    Damaged { slot: u32, at: u64 },
    /// A table of a relay's area, from 0, or its record is damaged at this place.
    DamagedArea { area: u32, slot: u32, at: u64 },
    /// A table of the book, 0 or 1, is damaged at this place.
    DamagedBookTable { table: u32, at: u64 },
    /// The record of a row of the book, from 0, is damaged at this place.
    DamagedBookRow { row: u32, at: u64 },
    /// The relay sent bytes that are no reply, at this place of the reply's frame.
    Peer { kind: PeerKind, at: u32 },
    /// There was no memory.
    NoMemory,
}

impl Ending {
    /// The status that the program ends with.
    pub fn code(self) -> u8
        ensures { result ≡ code_of self }
    {
        match self {
            Ending::Done => 0,
            Ending::Usage => 2,
            Ending::InputTooLong(_) => 3,
            Ending::BadKey => 3,
            Ending::NotHex => 3,
            Ending::BadBox(_) => 3,
            Ending::BoxName(_) => 3,
            Ending::BoxKeys(_) => 3,
            Ending::BadName => 3,
            Ending::NameTaken => 3,
            Ending::NoName => 3,
            Ending::BookFull(_) => 3,
            Ending::Twice => 3,
            Ending::FanFull => 3,
            Ending::PeerRefused { .. } => 3,
            Ending::BadLine(_) => 3,
            Ending::NoRelayKeys => 3,
            Ending::Refused(_) => 3,
            Ending::Unjoined(_) => 3,
            Ending::NoSuchPart(_) => 3,
            Ending::BoxFull => 3,
            Ending::NoBox => 3,
            Ending::Denied(_) => 3,
            Ending::ReadFault => 4,
            Ending::DiskFault => 6,
            Ending::LinkFault => 7,
            Ending::DrawFault => 8,
            Ending::NoSession => 9,
            Ending::Exists => 10,
            Ending::Damaged { .. } => 11,
            Ending::DamagedArea { .. } => 11,
            Ending::DamagedBookTable { .. } => 11,
            Ending::DamagedBookRow { .. } => 11,
            Ending::Peer { .. } => 12,
            Ending::NoMemory => 13,
        }
    }
}
