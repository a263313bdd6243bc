//! Why no reply was read.

ghost use Rattle.std.specs.Prelude.{◌≡◌};
ghost use Rattle.relay_pipe.specs.Asking.{peer_fault};

use relay_wire::BadReply;
use thiserror::Error;

/// What is wrong with what the peer sent.
#[derive(Clone, Copy, Debug, PartialEq, Eq)]
pub enum PeerKind {
    /// The reply's length is none that a body may have.
    Frame,
    /// The reply's first byte says nothing that may be replied.
    Kind,
    /// What stands after the reply's first byte isn't as it must be.
    Size,
    /// The reply doesn't answer the request.
    Wrong,
    /// The pipe ended before the reply was whole.
    Ended,
}

/// The first fault of what the peer sent, and its place in the reply.
#[derive(Clone, Copy, Debug, PartialEq, Eq)]
pub struct PeerFault {
    pub at: usize,
    pub kind: PeerKind,
}

/// Why no reply was read.
#[derive(Clone, Copy, Debug, Error)]
pub enum AskFault {
    /// A call on the pipe failed.
    #[error("a call on the pipe failed")]
    Pipe,
    /// The pipe gave no reply.
    #[error("no reply was given")]
    Peer(PeerFault),
}

/// The fault of a frame that is no reply.
pub(crate) fn fault_of(bad: BadReply) -> PeerFault
    ensures { result ≡ peer_fault bad }
{
    match bad {
        BadReply::Frame => PeerFault {
            at: 0,
            kind: PeerKind::Frame,
        },
        BadReply::Kind => PeerFault {
            at: 2,
            kind: PeerKind::Kind,
        },
        BadReply::Size => PeerFault {
            at: 3,
            kind: PeerKind::Size,
        },
    }
}
