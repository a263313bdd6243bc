//! The kinds of calls, and the kinds of crashes.

/// A kind of call on a disk.
#[derive(Clone, Copy, Debug, PartialEq, Eq)]
pub enum Call {
    Read,
    Write,
    Sync,
}

/// What a crash makes of the bytes that no good sync has reached.
#[derive(Clone, Copy)]
pub enum Mode {
    /// What the last good sync left.
    Old,
    /// What a write last asked for.
    New,
    /// This byte everywhere.
    Fill(u8),
}
