//! A packet that was read, and what it lends.

ghost use Rattle.std.specs.Prelude.{◌≡◌, true, ◌+◌, ◌-◌, ◌^◌, ◌<◌, ◌≤◌, length, IfOk};
ghost use Rattle.packet.specs.Packet.{Fields, IsLawful, ad_of, packet_of};
ghost use Rattle.packet.specs.Parts.{fields_of, HasAt, IsViewed};
ghost use Rattle.packet.specs.Reading.{read_packet};
ghost use Rattle.packet.specs.Versions.{is_version};

use crate::fault::Malformed;
use crate::parts::{self, Parts};
use dr_base::{INDEX_LIMIT, LAST_EPOCH, PLAIN, SEALED_LIMIT, TEXT_LIMIT};
use std::marker::Model;

/// The fields of a packet, lent from the bytes that were parsed, and where they stand in these.
#[derive(Drop)]
pub struct View<'a> {
    parts: Parts<'a>,
    bytes: &'a [u8],
}

impl<'a> Model for View<'a> {
    ghost Value = { Fields };

    ghost view = { λ v. fields_of v.parts };

    ghost invariant = { λ v. IsViewed v.bytes.now (fields_of v.parts) };
}

/// Reads a packet, or finds the first fault from left to right. The agreement messages of epochs
/// above 0 have the length `agreement`; those of epoch 0 are empty. No field is copied.
pub fn parse(bytes: &[u8], agreement: usize) -> Result<View<'_>, Malformed>
    ensures exact { result ≡ read_packet agreement bytes.now }
    ensures found { IfOk result (λ f. IsLawful agreement f × (bytes.now ≡ packet_of f)) }
{
    let parts = parts::read(bytes, agreement)?;
    Ok(View { parts, bytes })
}

impl View<'_> {
    /// The version.
    pub fn version(&self) -> u8
        ensures value { result ≡ self.now.version }
        ensures known { is_version result ≡ true }
    {
        self.parts.version
    }

    /// The session id.
    pub fn session(&self) -> &[u8; 16]
        ensures { result.now ≡ self.now.session }
    {
        self.parts.session
    }

    /// The offset of the session id in the packet.
    #[tactic(auto, using(crate::proofs::Places::session_at))]
    pub fn session_place(&self) -> usize
        ensures value { result ≡ 1 }
        ensures lent { HasAt (packet_of self.now) result self.now.session }
    {
        1
    }

    /// The epoch of the text.
    pub fn epoch(&self) -> u32
        ensures value { result ≡ self.now.epoch }
        ensures fits { result ≤ LAST_EPOCH }
    {
        self.parts.epoch
    }

    /// The number of texts of the sender's epoch before.
    pub fn previous(&self) -> u32
        ensures value { result ≡ self.now.previous }
        ensures fits { result ≤ INDEX_LIMIT }
        ensures none { self.now.epoch ≤ 1 → result ≡ 0 }
    {
        self.parts.previous
    }

    /// The index of the text in its epoch.
    pub fn index(&self) -> u32
        ensures value { result ≡ self.now.index }
        ensures from_one { 1 ≤ result }
        ensures fits { result ≤ INDEX_LIMIT }
    {
        self.parts.index
    }

    /// The agreement message, empty in epoch 0.
    pub fn agreement(&self) -> &[u8]
        ensures value { result.now ≡ self.now.agreement }
        ensures lawful { IsLawful (length result.now) self.now }
    {
        self.parts.agreement
    }

    /// The offset of the agreement message in the packet.
    #[tactic(auto, using(crate::proofs::Places::agreement_at))]
    pub fn agreement_place(&self) -> usize
        ensures value { result ≡ 31 }
        ensures lent { HasAt (packet_of self.now) result self.now.agreement }
    {
        let _session = &self.parts.session;
        31
    }

    /// The bytes before the ciphertext.
    pub fn ad(&self) -> &[u8]
        ensures { result.now ≡ ad_of self.now }
    {
        let end = self.ciphertext_place();
        &self.bytes[..end]
    }

    /// The ciphertext, as long as what is sealed.
    pub fn ciphertext(&self) -> &[u8]
        ensures value { result.now ≡ self.now.ciphertext }
        ensures fits { length result.now ≤ SEALED_LIMIT }
        ensures plain { self.now.version ≡ PLAIN → length result.now ≤ TEXT_LIMIT }
    {
        self.parts.ciphertext
    }

    /// The offset of the ciphertext in the packet.
    #[tactic(auto, using(crate::proofs::Places::ciphertext_at))]
    pub fn ciphertext_place(&self) -> usize
        ensures value { result ≡ 33 + length self.now.agreement }
        ensures lent { HasAt (packet_of self.now) result self.now.ciphertext }
    {
        33 + self.parts.agreement.len()
    }

    /// The tag over the bytes before it.
    pub fn tag(&self) -> &[u8; 32]
        ensures { result.now ≡ self.now.tag }
    {
        self.parts.tag
    }

    /// The offset of the tag in the packet.
    #[tactic(auto, using(crate::proofs::Places::tag_at))]
    pub fn tag_place(&self) -> usize
        ensures value { result ≡ 33 + length self.now.agreement + length self.now.ciphertext }
        ensures lent { HasAt (packet_of self.now) result self.now.tag }
    {
        self.ciphertext_place() + self.parts.ciphertext.len()
    }
}
