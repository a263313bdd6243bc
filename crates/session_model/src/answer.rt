//! What an event is answered with.

use dr_base::Position;
use packet::Malformed;

/// The answer to an event of the conversation.
#[derive(Clone, Copy)]
pub enum Answer {
    /// The text has this position, and its packet is in the outbox.
    Said(Position),
    /// The packet of this position was opened.
    Opened(Position),
    /// These left their box.
    Dropped(Which),
    /// This many texts stand in the inbox.
    Inbox(u32),
    /// This many of its own texts wait for a receipt.
    Awaiting(u32),
    /// What a side holds.
    State(Summary),
    /// The next draw is a given seed; this has no line.
    Seeded,
    /// The side was cut off by a crash or a failing disk, and opened again.
    Stopped,
    /// The network holds no such packet.
    Nothing,
    /// Nothing changed, for this reason.
    Refused(Refusal),
}

/// Which items leave a box of a side.
#[derive(Clone, Copy)]
pub enum Which {
    /// This many of the oldest.
    Oldest(Items, u32),
    /// The parts of the long text of this id, from its inbox.
    OfId(u32),
}

impl Which {
    ghost use Rattle.std.specs.Prelude.{◌≡◌};
    ghost use Rattle.session_model.specs.Leaving.{drops_any};

    /// Whether any leave.
    pub fn drops_any(self) -> bool
        ensures { result ≡ drops_any self }
    {
        match self {
            Which::Oldest(_, n) => n > 0,
            Which::OfId(_) => true,
        }
    }
}

/// Of which box of a side items are.
#[derive(Clone, Copy)]
pub enum Items {
    /// Texts that were read leave its inbox.
    Texts,
    /// Packets that were sent leave its outbox.
    Packets,
}

/// What a side holds, in numbers.
#[derive(Clone, Copy)]
pub struct Summary {
    /// The greatest epoch that the side has reached.
    pub epoch: u32,
    /// How many message keys wait for texts that haven't come.
    pub missing: u32,
    /// How many texts stand in the inbox.
    pub inbox: u32,
    /// How many packets stand in the outbox.
    pub outbox: u32,
}

/// Why an event changed nothing.
#[derive(Clone, Copy, Debug, PartialEq, Eq)]
pub enum Refusal {
    /// Only a session with receipts says parts of long texts.
    NoParts,
    /// The text has more bytes than the longest may have, namely this many.
    TextTooLong(usize),
    /// The outbox is full.
    OutboxFull,
    /// As many texts were said in the epoch as it may have.
    EpochFull,
    /// No epoch follows.
    LastEpoch,
    /// The seed of the turn gives no pair of keys.
    NoPair,
    /// The bytes are no packet.
    Malformed(Malformed),
    /// The packet is of another session.
    OtherSession,
    /// The packet is of an epoch of the taker's own.
    OwnPacket(u32),
    /// The packet's epoch comes after the next one that may begin; `reached` is the greatest epoch
    /// that is reached.
    Ahead { epoch: u32, reached: u32 },
    /// The packet of this position was opened before.
    Spent(Position),
    /// The packet claims that the peer's last epoch has fewer texts than are known.
    Count { claimed: u32, known: u32 },
    /// This many message keys would have to be kept, which is more than the table has room for.
    SkipLimit(u32),
    /// The packet's tag differs from the one under its key.
    BadTag,
    /// The tag is right, but what the packet seals is no lawful body of its version.
    BadPadding,
    /// The inbox is full.
    InboxFull,
    /// Only this many stand, fewer than were to be taken out.
    Fewer(u32),
    /// No part of the long text stands.
    NoLong,
}

/// How many of the oldest items are taken out of a box.
#[derive(Clone, Copy)]
pub enum Amount {
    /// All that stand.
    All,
    /// Just this many.
    Exactly(u32),
}
