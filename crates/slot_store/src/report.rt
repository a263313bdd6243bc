//! What a look at an area reports.

/// A table's gate, as it was read.
#[derive(Clone, Copy, Debug, PartialEq, Eq)]
pub enum Gate {
    /// The table isn't open: its gate isn't a5, or its turn isn't 1, 2 or 3.
    Closed,
    /// The table is open, with this turn.
    Open { turn: u8 },
}

/// What an area is read as.
#[derive(Clone, Copy, Debug, PartialEq, Eq)]
pub enum Finding {
    /// A record of this length.
    Record { length: u32 },
    /// No record.
    Empty,
    /// Damage: the table, 0 or 1, and the first place in it that no record's table has, or 4,096
    /// and the first place in the record's pages.
    Damaged { slot: u32, at: u64 },
}

/// What was read of an area.
#[derive(Clone, Copy, Debug, PartialEq, Eq)]
pub struct Report {
    /// Table 0's gate.
    pub first: Gate,
    /// Table 1's gate.
    pub second: Gate,
    /// What opening would read.
    pub found: Finding,
    /// The area is at rest: all that what was found doesn't have is zeros. A damaged area never is.
    pub rest: bool,
}
