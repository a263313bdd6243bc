//! What a call on the outside answers where it failed.

/// A call on a port or a disk failed. Its count of faults rose in that call.
#[derive(Clone, Copy, PartialEq, Eq)]
pub struct Failed;
