//! What a command asks for.

ghost use Rattle.std.specs.Prelude.{◌≡◌, drop};
ghost use Rattle.clap.specs.Walk.{texts};
ghost use Rattle.command_words.specs.Commands.{value};

use bodies::Format;
use dr_base::Side;

/// Where the session is that a command speaks of.
#[derive(Clone, Copy, PartialEq, Eq)]
pub enum Where {
    /// It is the one of the folder.
    Folder,
    /// It is in the folder's book, under the name that is the first value.
    Book,
}

/// What a command asks for.
#[derive(Clone, Copy, PartialEq, Eq)]
pub enum Ask {
    /// A session of this side begins, which seals its texts in this format.
    Begin(Side, Format),
    /// The side says the text that is the first value, and in a book the second.
    Say,
    /// The side takes a packet.
    Take,
    /// The side shows its inbox.
    Inbox,
    /// This many of the oldest texts leave the inbox.
    Done(u32),
    /// This many of the oldest packets leave the outbox.
    Sent(u32),
    /// The side shows its outbox.
    Outbox,
    /// The side shows which of its texts wait for a receipt.
    Awaiting,
    /// The side shows the keys of its session's boxes at a relay.
    RelayKeys,
    /// The side shows what it holds, in numbers.
    State,
    /// The side shows how its disk stands, and changes nothing.
    Check,
    /// The side's boxes and those of the relay at the address that is the first value are brought
    /// together.
    Sync,
    /// A relay serves this many connections at a port, with the boxes that are the values from the
    /// third on, in order.
    Relay { port: u16, count: u32 },
    /// The long text of this id is shown.
    Long(u32),
    /// All parts of the long text of this id leave the inbox.
    DoneLong(u32),
    /// The side says the long text that is read, under this id, from this part of it on.
    SayLong { id: u32, from: u64 },
    /// The session leaves the book.
    Forget,
    /// The book shows the names of its sessions.
    List,
    /// A script plays both sides.
    Duet,
    /// A script of this many rounds, made from a number, plays both sides.
    DuetMake { rounds: u32, number: u64 },
    /// A fan to this many people is played, whose disk stops after so many writes and syncs, in the
    /// mode that is the third value.
    DuetFan { peers: u32, calls: u32 },
    /// The sessions of the book whose names are the values from the second on say the text that is
    /// the first value.
    Fan,
}

/// A command, with the values that stand after its name.
#[derive(PartialEq, Eq, Drop)]
pub struct Command<'a> {
    pub place: Where,
    pub ask: Ask,
    pub values: Vec<&'a str>,
}

impl<'a> Command<'a> {
    /// The value at a place, and no bytes where none stands there.
    pub fn value(&self, at: usize) -> &'a str
        ensures { result.now ≡ value (texts self.now.values.items) at }
    {
        match self.values.as_slice().get(at) {
            Some(value) => value,
            None => "",
        }
    }

    /// The values from the second on.
    pub fn values_after(&self) -> &[&'a str]
        ensures { texts result.now ≡ drop 1 (texts self.now.values.items) }
    {
        match self.values.as_slice() {
            [_, after @ ..] => after,
            _ => &[],
        }
    }

    /// The values from the third on.
    pub fn values_behind(&self) -> &[&'a str]
        ensures { texts result.now ≡ drop 2 (texts self.now.values.items) }
    {
        match self.values.as_slice() {
            [_, _, behind @ ..] => behind,
            _ => &[],
        }
    }
}
