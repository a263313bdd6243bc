//! The greatest sizes of a record and of what it consists of, in bytes.

ghost use Rattle.session_record.specs.Limits.{HasLimits};

use dr_base::{
    AGREEMENT_LIMIT, AWAITING_LIMIT, INBOX_LIMIT, KEPT_LIMIT, OUTBOX_LIMIT, PACKET_LIMIT,
    SECRET_LIMIT, TEXT_LIMIT,
};
use session_model::RELAY_KEYS_SIZE;

/// The version, the side, the format, the session id, the root and the epoch.
pub(crate) const HEADING_SIZE: usize = 1 + 1 + 1 + 16 + 32 + 4;

/// A count of texts.
pub(crate) const COUNT_SIZE: usize = 4;

/// A stream: its chain key and how many texts it has had.
pub(crate) const STREAM_SIZE: usize = 32 + COUNT_SIZE;

/// The longest keys of an epoch: a secret, an agreement message and a stream.
pub(crate) const PHASE_LIMIT: usize = SECRET_LIMIT + AGREEMENT_LIMIT + STREAM_SIZE;

/// A position: an epoch and an index.
pub(crate) const PLACE_SIZE: usize = 4 + 4;

/// A kept key with its position.
pub(crate) const KEPT_SIZE: usize = PLACE_SIZE + 32;

/// The most kept keys, after their number.
pub(crate) const KEYS_LIMIT: usize = 2 + KEPT_SIZE * KEPT_LIMIT;

/// What a text of an inbox has before it: its position, its kind and its length.
pub(crate) const ENTRY_SIZE: usize = PLACE_SIZE + 1 + 2;

/// The longest text of an inbox, after what it has before it.
pub(crate) const ENTRY_LIMIT: usize = ENTRY_SIZE + TEXT_LIMIT;

/// The longest inbox: its texts after their number.
pub(crate) const ENTRIES_LIMIT: usize = 1 + ENTRY_LIMIT * INBOX_LIMIT;

/// The longest packet of an outbox, after its length.
pub(crate) const POST_LIMIT: usize = 2 + PACKET_LIMIT;

/// The longest outbox: its packets after their number.
pub(crate) const POSTS_LIMIT: usize = 1 + POST_LIMIT * OUTBOX_LIMIT;

/// The most positions of texts that wait, after their number.
pub(crate) const WAITING_LIMIT: usize = 1 + PLACE_SIZE * AWAITING_LIMIT;

/// The keys of the session's boxes, after the byte that says whether there are some.
pub(crate) const RELAY_LIMIT: usize = 1 + RELAY_KEYS_SIZE;

/// The longest record: its heading, the keys of the epoch, the previous count, the receiving
/// stream, the kept keys, the inbox, the outbox, the texts that wait and the keys of its boxes.
pub const RECORD_LIMIT: usize = HEADING_SIZE
    + PHASE_LIMIT
    + COUNT_SIZE
    + STREAM_SIZE
    + KEYS_LIMIT
    + ENTRIES_LIMIT
    + POSTS_LIMIT
    + WAITING_LIMIT
    + RELAY_LIMIT;

/// The limits of this crate as numbers. The function has no code.
pub fn limits_in_numbers()
    ensures { HasLimits }
{}
