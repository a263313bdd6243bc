//! The limits of the product. Code and definitions cite these names.

ghost use Rattle.dr_base.specs.Limits.{HasLimits};

/// The longest text, in bytes.
pub const TEXT_LIMIT: usize = 4096;

/// The greatest index in an epoch, and so the most texts that one has.
pub const INDEX_LIMIT: u32 = 65535;

/// The last epoch.
pub const LAST_EPOCH: u32 = 4294967294;

/// The most message keys that are kept for texts which are still to come.
pub const KEPT_LIMIT: usize = 512;

/// The most texts in an inbox.
pub const INBOX_LIMIT: usize = 128;

/// The most packets in an outbox.
pub const OUTBOX_LIMIT: usize = 32;

/// The most texts of a side that wait until a receipt covers them.
pub const AWAITING_LIMIT: usize = 64;

/// The longest public key of a mechanism, in bytes.
pub const PUBLIC_LIMIT: usize = 1158;

/// The longest secret of a mechanism, in bytes.
pub const SECRET_LIMIT: usize = 1763;

/// The longest ciphertext of a mechanism, in bytes.
pub const CIPHERTEXT_LIMIT: usize = 1039;

/// The longest agreement message, in bytes: a ciphertext and a public key.
pub const AGREEMENT_LIMIT: usize = CIPHERTEXT_LIMIT + PUBLIC_LIMIT;

/// What a packet has beside its agreement message and its ciphertext, in bytes: its numbers, sizes
/// and session id, and its tag.
pub const PACKET_FRAME: usize = 33 + 32;

/// The version of a packet that seals its text as it is.
pub const PLAIN: u8 = 1;

/// The version of a packet that seals its text padded: filled up with zeros to steps of 256 bytes.
pub const PADDED: u8 = 2;

/// The version of a packet that seals a receipt, a kind and a text, padded together.
pub const RECEIPTS: u8 = 3;

/// The most bytes that a padded packet seals: a longest text, padded.
pub const PADDED_LIMIT: usize = 4352;

/// The most positions that a receipt lists.
pub const RECEIPT_LIMIT: usize = 32;

/// The most bytes that a packet seals: a longest text with a longest receipt, padded.
pub const SEALED_LIMIT: usize = 4608;

/// The longest packet, in bytes.
pub const PACKET_LIMIT: usize = PACKET_FRAME + AGREEMENT_LIMIT + SEALED_LIMIT;

/// The longest packet that a relay carries, in bytes.
pub const CARRIED_LIMIT: usize = 8000;

/// How many bytes a page of a disk's area has.
pub const PAGE: usize = 4096;

/// The limits of this crate as numbers. The function has no code.
pub fn limits_in_numbers()
    ensures { HasLimits }
{}
