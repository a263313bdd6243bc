//! A body, sealed into its packet.

ghost use Rattle.std.specs.Prelude.{◌≡◌, ◌+◌, ◌^◌, ◌<◌, ◌≤◌, ◌++◌, length, take, drop};
ghost use Rattle.boxes.specs.Posts.{post_under};
ghost use Rattle.etm_aead.specs.Seal.{ciphertext_of, tag_of};
ghost use Rattle.packet.specs.Packet.{IsLawful};
ghost use Rattle.session_model.specs.Sealing.{posted, sealing};

use bodies::{Body, put_sealed, sealed_len};
use dr_base::{AGREEMENT_LIMIT, PACKET_LIMIT, Position, SEALED_LIMIT, TEXT_LIMIT, put};
use etm_aead::SealKey;
use packet::write_ad;

/// Seals what stands from a place on, in place, with what stands before it as the data that goes
/// along. Answers the tag.
fn seal_from(key: SealKey, bytes: &mut [u8], at: usize) -> [u8; 32]
    requires within { at ≤ length bytes.old }
    requires short { length bytes.old ≤ at + SEALED_LIMIT }
    ensures sealed { bytes.new ≡ take at bytes.old ++ ciphertext_of key (drop at bytes.old) }
    ensures tag { result ≡ tag_of key (take at bytes.old) (ciphertext_of key (drop at bytes.old)) }
{
    let (ad, sealed) = bytes.split_at_mut(at);
    key.seal(ad, sealed)
}

/// Prints the packet of a body that a session says into the front of its room, sealed in the form
/// of a version with a message key, and answers the packet's length. The body is put once, at its
/// place in the packet, and sealed there.
#[tactic(auto, unfolding(session_model::specs::Sealing::posted))]
pub fn seal_packet(
    version: u8,
    session: &[u8; 16],
    position: Position,
    previous: u32,
    agreement: &[u8],
    key: SealKey,
    body: &Body<'_>,
    room: &mut [u8; PACKET_LIMIT],
) -> usize
    requires agreement_fits { length agreement.now ≤ AGREEMENT_LIMIT }
    requires short { length body.now.content ≤ TEXT_LIMIT }
    requires lawful { IsLawful (length agreement.now) (sealing version session.now position previous
        agreement.now key body.now) }
    ensures packet { post_under position (take result room.new) ≡ posted version session.now
        position previous agreement.now key body.now }
    ensures fits { result ≤ PACKET_LIMIT }
{
    let len = sealed_len(version, body);
    let at_body = write_ad(version, session, position, previous, agreement, len, room);
    let at_tag = put_sealed(version, room, at_body, body);
    let tag = seal_from(key, &mut room[..at_tag], at_body);
    put(room, at_tag, &tag)
}
