//! Room that a caller makes once and lends for each text. It has kilobytes: a draft that held it
//! would zero it and move it with each text.

ghost use Rattle.std.specs.Prelude.{◌≡◌, ◌↔◌, ◌≤◌, length, IsOk, OnOk};
ghost use Rattle.etm_aead.specs.Seal.{ciphertext_of, tag_of};

use crate::table::KeptRoom;
use arrayvec::ArrayVec;
use dr_base::{PACKET_LIMIT, SEALED_LIMIT};
use etm_aead::{BadTag, OpenKey};

/// Room for the packet of a text that is said, lent for each text. What it holds is overwritten by
/// the next one.
#[derive(Drop)]
pub struct PacketRoom {
    pub(crate) bytes: [u8; PACKET_LIMIT],
}

impl PacketRoom {
    /// Room of zeros.
    pub fn new() -> PacketRoom {
        PacketRoom {
            bytes: [0; PACKET_LIMIT],
        }
    }
}

/// The bytes that a packet seals.
pub(crate) type Message = ArrayVec<u8, SEALED_LIMIT>;

/// Room in which a packet is opened, lent for each packet: for its text, and for the kept keys,
/// where the packet changes them. What it holds, the text as the keys, is overwritten by the next
/// one that needs it.
#[derive(Drop)]
pub struct OpeningRoom {
    pub(crate) message: Message,
    pub(crate) kept: KeptRoom,
}

impl OpeningRoom {
    /// Room in which neither a text nor a key stands.
    pub fn new() -> OpeningRoom {
        OpeningRoom {
            message: ArrayVec::new(),
            kept: KeptRoom::new(),
        }
    }
}

/// Opens a ciphertext in room for it, if the tag is right.
pub(crate) fn open(
    key: OpenKey,
    ad: &[u8],
    ciphertext: &[u8],
    tag: &[u8; 32],
    message: &mut Message,
) -> Result<(), BadTag>
    requires { length ciphertext.now ≤ SEALED_LIMIT }
    ensures exact { IsOk result ↔ (tag.now ≡ tag_of key ad.now ciphertext.now) }
    ensures ok { OnOk result (message.new.items ≡ ciphertext_of key ciphertext.now) }
{
    message.clear();
    let _whole = message.try_extend_from_slice(ciphertext);
    key.open(ad, message.as_mut_slice(), tag)
}
