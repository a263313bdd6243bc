//! Why there is no long text.

use dr_base::Position;

/// Why an inbox has no long text of an id.
#[derive(Clone, Copy, PartialEq, Eq)]
pub enum LongRefusal {
    /// No part of it stands.
    NoLong,
    /// Two parts can't be of one text: they differ in their count, or in their bytes under one
    /// number.
    Clash { first: Position, second: Position },
    /// Of its `n` parts only `have` stand.
    Parts { have: u32, n: u32 },
}
