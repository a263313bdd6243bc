//! Why a sync broke off.

use dr_disk::Call;
use relay_pipe::PeerKind;
use thiserror::Error;

/// What a sync may meet that ends it.
#[derive(Clone, Copy, Debug, PartialEq, Eq, Error)]
pub enum SyncRefusal {
    /// The inbox has no room for the text of a packet, which stays at the relay.
    #[error("the inbox is full")]
    InboxFull,
    /// The peer's box keeps no further packet.
    #[error("the box is full")]
    BoxFull,
    /// The relay has no box of that name.
    #[error("the relay has no such box")]
    Unknown,
    /// The box doesn't serve the request, by this rule.
    #[error("the relay denies the request")]
    Denied { rule: u8 },
}

/// Why a sync broke off. What was done before stands.
#[derive(Clone, Copy, Debug, PartialEq, Eq, Error)]
pub enum SyncFault {
    /// A call on the disk failed before, of this kind: the client has to be opened again.
    #[error("the client is closed, since a call on the disk failed before: {call:?}")]
    Closed { call: Call },
    /// A call on the link failed.
    #[error("a call on the link failed")]
    Link,
    /// The relay sent bytes that are no reply to the request, at this place of the reply's frame.
    #[error("the relay sent no reply: {kind:?} at the byte {at}")]
    Peer { at: usize, kind: PeerKind },
    /// A box has no room, or there is none.
    #[error("the sync is refused: {0}")]
    Refused(SyncRefusal),
    /// A call on the disk failed, of this kind: the client is closed.
    #[error("a call on the disk failed: {call:?}")]
    Store { call: Call },
    /// A line could not be written.
    #[error("a line could not be written")]
    Write,
}

/// The reply doesn't answer the request, by its first byte.
pub(crate) const WRONG: SyncFault = SyncFault::Peer {
    at: 2,
    kind: PeerKind::Wrong,
};
