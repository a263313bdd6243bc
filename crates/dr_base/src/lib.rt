//! The plain values that every crate of the messenger speaks of: sides, positions, keys of 32
//! bytes, bytes put at a place of a buffer, and the failure of a call on the outside.
#![tactic(auto)]

pub use buffer::{put, put_u8, put_u16, put_u32, put_u64};
pub use failed::Failed;
pub use key::{Kept, Key32};
pub use limits::{
    AGREEMENT_LIMIT, AWAITING_LIMIT, CARRIED_LIMIT, CIPHERTEXT_LIMIT, INBOX_LIMIT, INDEX_LIMIT,
    KEPT_LIMIT, LAST_EPOCH, OUTBOX_LIMIT, PACKET_FRAME, PACKET_LIMIT, PADDED, PADDED_LIMIT, PAGE,
    PLAIN, PUBLIC_LIMIT, RECEIPT_LIMIT, RECEIPTS, SEALED_LIMIT, SECRET_LIMIT, TEXT_LIMIT,
    limits_in_numbers,
};
pub use number::{read_u16, read_u32};
pub use position::{Position, Side};
pub use room::{array_at, in_room};

mod buffer;
mod failed;
mod key;
mod limits;
mod number;
mod position;
mod room;
