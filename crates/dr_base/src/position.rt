//! Who speaks, and where a text stands in the conversation.

ghost use Rattle.std.specs.Prelude.{◌≡◌, ◌%◌, ◌↔◌, IsTrue};
ghost use Rattle.dr_base.specs.Position.{is_own, side_of, peer_of};

/// One of the two parties. First says its texts in odd epochs, Second in even ones.
#[derive(Clone, Copy, PartialEq, Eq)]
pub enum Side {
    First,
    Second,
}

impl Side {
    /// The other party.
    pub fn peer(self) -> Side
        ensures { result ≡ peer_of self }
    {
        match self {
            Side::First => Side::Second,
            Side::Second => Side::First,
        }
    }

    /// Whether an epoch is one of the party's own, which holds its texts.
    pub fn owns(self, epoch: u32) -> bool
        ensures { result ≡ is_own self epoch }
    {
        match self {
            Side::First => epoch % 2 == 1,
            Side::Second => epoch % 2 == 0,
        }
    }

    /// The party whose texts an epoch holds.
    pub fn of_epoch(epoch: u32) -> Side
        ensures { result ≡ side_of epoch }
    {
        if epoch % 2 == 1 {
            Side::First
        } else {
            Side::Second
        }
    }
}

/// The place of a text: its epoch, and its index in the epoch, which begins at 1. It prints as
/// `epoch.index`.
#[derive(Clone, Copy, Debug, Default, PartialEq, Eq)]
pub struct Position {
    pub epoch: u32,
    pub index: u32,
}
