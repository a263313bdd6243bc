//! The versions of a record, and what each of them allows.

ghost use Rattle.std.specs.Prelude.{◌≡◌, ◌≤◌, length};
ghost use Rattle.dr_base.specs.declared.limits.TheConstants.{PLAIN, TEXT_LIMIT};
ghost use Rattle.grammar.specs.Standing.{Reads};
ghost use Rattle.packet.specs.Packet.{Fields};
ghost use Rattle.session_record.specs.Fields.{version_field};
ghost use Rattle.session_record.specs.Versions.{has_format, has_keys, has_kinds, has_receipts, inbox_most, is_kind_of, is_newest, is_packet_of, kept_most, outbox_most, text_most, version_code};

use boxes::{PART_KIND, TEXT_KIND};
use dr_base::{INBOX_LIMIT, KEPT_LIMIT, OUTBOX_LIMIT, PADDED, PLAIN, TEXT_LIMIT};
use grammar::Cursor;

/// The longest text of version 1, in bytes. Each version keeps its limits when those of the product
/// grow: then there is a version more.
pub(crate) const FIRST_TEXT_LIMIT: usize = 1024;

/// The most kept keys of version 1.
pub(crate) const FIRST_KEPT_LIMIT: usize = 256;

/// The most texts in an inbox of version 1.
pub(crate) const FIRST_INBOX_LIMIT: usize = 64;

/// The most packets in an outbox of version 1.
pub(crate) const FIRST_OUTBOX_LIMIT: usize = 32;

/// A version, which a record begins with.
#[derive(Clone, Copy)]
pub(crate) enum Version {
    One,
    Two,
    Three,
    Four,
    Five,
}

/// The version that is written.
pub(crate) const NEWEST: Version = Version::Five;

impl Version {
    /// Its byte.
    pub(crate) fn code(self) -> u8
        ensures { result ≡ version_code self }
    {
        match self {
            Version::One => 1,
            Version::Two => 2,
            Version::Three => 3,
            Version::Four => 4,
            Version::Five => 5,
        }
    }

    /// Whether a byte says the session's format.
    pub(crate) fn has_format(self) -> bool
        ensures { result ≡ has_format self }
    {
        match self {
            Version::One | Version::Two => false,
            Version::Three | Version::Four | Version::Five => true,
        }
    }

    /// Whether a session may seal receipts, and own texts wait for those of the other side.
    pub(crate) fn has_receipts(self) -> bool
        ensures { result ≡ has_receipts self }
    {
        match self {
            Version::One | Version::Two | Version::Three => false,
            Version::Four | Version::Five => true,
        }
    }

    /// Whether a byte says the kind of each text of the inbox.
    pub(crate) fn has_kinds(self) -> bool
        ensures { result ≡ has_kinds self }
    {
        match self {
            Version::One | Version::Two | Version::Three => false,
            Version::Four | Version::Five => true,
        }
    }

    /// Whether a byte says if the session has keys of its boxes at a relay.
    pub(crate) fn has_keys(self) -> bool
        ensures { result ≡ has_keys self }
    {
        match self {
            Version::One | Version::Two | Version::Three | Version::Four => false,
            Version::Five => true,
        }
    }

    /// The longest text, in bytes.
    pub(crate) fn text_most(self) -> usize
        ensures value { result ≡ text_most self }
        ensures most { result ≤ TEXT_LIMIT }
    {
        match self {
            Version::One => FIRST_TEXT_LIMIT,
            Version::Two | Version::Three | Version::Four | Version::Five => TEXT_LIMIT,
        }
    }

    /// Whether the texts of its inbox may have a kind.
    pub(crate) fn has_kind(self, kind: u8) -> bool
        ensures { result ≡ is_kind_of self kind }
    {
        match self {
            Version::One | Version::Two | Version::Three | Version::Four => kind == TEXT_KIND,
            Version::Five => kind == TEXT_KIND || kind == PART_KIND,
        }
    }

    /// Whether its outbox may hold a packet of this version that seals so many bytes.
    pub(crate) fn holds(self, packet: u8, sealed: usize) -> bool
        ensures { (f : Fields) → f.version ≡ packet → length f.ciphertext ≡ sealed
            → (packet ≡ PLAIN → sealed ≤ TEXT_LIMIT) → is_packet_of self f ≡ result }
    {
        match self {
            Version::One | Version::Two => packet == PLAIN && sealed <= self.text_most(),
            Version::Three => packet == PLAIN || packet == PADDED,
            Version::Four | Version::Five => true,
        }
    }

    /// The most kept keys.
    pub(crate) fn kept_most(self) -> usize
        ensures value { result ≡ kept_most self }
        ensures most { result ≤ KEPT_LIMIT }
    {
        match self {
            Version::One => FIRST_KEPT_LIMIT,
            Version::Two | Version::Three | Version::Four | Version::Five => KEPT_LIMIT,
        }
    }

    /// The most texts in an inbox.
    pub(crate) fn inbox_most(self) -> usize
        ensures value { result ≡ inbox_most self }
        ensures most { result ≤ INBOX_LIMIT }
    {
        match self {
            Version::One => FIRST_INBOX_LIMIT,
            Version::Two | Version::Three | Version::Four | Version::Five => INBOX_LIMIT,
        }
    }

    /// The most packets in an outbox.
    pub(crate) fn outbox_most(self) -> usize
        ensures value { result ≡ outbox_most self }
        ensures most { result ≤ OUTBOX_LIMIT }
    {
        match self {
            Version::One => FIRST_OUTBOX_LIMIT,
            Version::Two | Version::Three | Version::Four | Version::Five => OUTBOX_LIMIT,
        }
    }
}

/// The version.
#[tactic(auto, unfolding(crate::specs::Fields::version_field))]
pub(crate) fn read_version(cursor: &mut Cursor<'_>) -> Result<Version, usize>
    ensures { Reads (λ v. v) version_field cursor.old cursor.new result }
{
    let at = cursor.at();
    match cursor.number8()? {
        1 => Ok(Version::One),
        2 => Ok(Version::Two),
        3 => Ok(Version::Three),
        4 => Ok(Version::Four),
        5 => Ok(Version::Five),
        _ => Err(at),
    }
}

/// Whether a record's text is in the version that is written. Another text is written anew where it
/// is opened.
pub fn is_newest(text: &[u8]) -> bool
    ensures { result ≡ is_newest text.now }
{
    match text.first() {
        Some(code) => *code == NEWEST.code(),
        None => false,
    }
}
