//! Why a session refuses a text or a packet.

use crate::answer::Refusal;
use dr_base::{INDEX_LIMIT, KEPT_LIMIT, Position, TEXT_LIMIT};
use thiserror::Error;

/// Why a session says no text, or no part of a long one.
#[derive(Clone, Copy, Debug, PartialEq, Eq, Error)]
pub enum SendRefusal {
    /// Only a session with receipts says parts of long texts.
    #[error("a session without receipts says no part of a long text")]
    NoParts,
    /// The text has more bytes than the longest may have.
    #[error("the text has {len} bytes, more than {TEXT_LIMIT}")]
    TextTooLong { len: usize },
    /// As many texts were said in the epoch as it may have.
    #[error("{INDEX_LIMIT} texts were said in the epoch")]
    EpochFull,
    /// No epoch follows.
    #[error("no epoch follows")]
    LastEpoch,
}

/// Why a session opens no packet.
#[derive(Clone, Copy, Debug, PartialEq, Eq, Error)]
pub enum ReceiveRefusal {
    /// The packet is of another session.
    #[error("the packet is of another session")]
    OtherSession,
    /// The packet is of an epoch of the taker's own.
    #[error("the packet's epoch {epoch} is the taker's own")]
    OwnPacket { epoch: u32 },
    /// The packet's epoch comes after the next one that may begin; `reached` is the greatest epoch
    /// that is reached.
    #[error("the packet's epoch {epoch} comes more than one after the epoch {reached}")]
    Ahead { epoch: u32, reached: u32 },
    /// The packet of this position was opened before.
    #[error("the packet of {}.{} was opened before", .position.epoch, .position.index)]
    Spent { position: Position },
    /// The packet claims that the peer's last epoch has fewer texts than are known.
    #[error("the packet claims {claimed} texts of an epoch, fewer than the {known} known")]
    Count { claimed: u32, known: u32 },
    /// This many message keys would have to be kept, which is more than the table has room for.
    #[error("{would} keys would be kept, more than {KEPT_LIMIT}")]
    SkipLimit { would: u32 },
    /// The packet's tag differs from the one under its key.
    #[error("the packet's tag is wrong")]
    BadTag,
    /// The tag is right, but what the packet seals is no lawful body of its version.
    #[error("the packet seals no body of its version")]
    BadPadding,
}

impl From<SendRefusal> for Refusal {
    ghost use Rattle.std.specs.Prelude.{◌≡◌};
    ghost use Rattle.session_model.specs.Refusals.{send_refusal};

    ghost from_gives = { λ refusal answer. answer ≡ send_refusal refusal };

    fn from(refusal: SendRefusal) -> Refusal {
        match refusal {
            SendRefusal::NoParts => Refusal::NoParts,
            SendRefusal::TextTooLong { len } => Refusal::TextTooLong(len),
            SendRefusal::EpochFull => Refusal::EpochFull,
            SendRefusal::LastEpoch => Refusal::LastEpoch,
        }
    }
}

impl From<ReceiveRefusal> for Refusal {
    ghost use Rattle.std.specs.Prelude.{◌≡◌};
    ghost use Rattle.session_model.specs.Refusals.{receive_refusal};

    ghost from_gives = { λ refusal answer. answer ≡ receive_refusal refusal };

    fn from(refusal: ReceiveRefusal) -> Refusal {
        match refusal {
            ReceiveRefusal::OtherSession => Refusal::OtherSession,
            ReceiveRefusal::OwnPacket { epoch } => Refusal::OwnPacket(epoch),
            ReceiveRefusal::Ahead { epoch, reached } => Refusal::Ahead { epoch, reached },
            ReceiveRefusal::Spent { position } => Refusal::Spent(position),
            ReceiveRefusal::Count { claimed, known } => Refusal::Count { claimed, known },
            ReceiveRefusal::SkipLimit { would } => Refusal::SkipLimit(would),
            ReceiveRefusal::BadTag => Refusal::BadTag,
            ReceiveRefusal::BadPadding => Refusal::BadPadding,
        }
    }
}
