//! Writing a packet into a buffer.

ghost use Rattle.std.specs.Prelude.{◌≡◌, true, ℕ, ◌+◌, ◌^◌, ◌<◌, ◌≤◌, length, take, drop};
ghost use Rattle.std.specs.Int.{w8, w16, to_be_bytes};
ghost use Rattle.dr_base.specs.Buffer.{Puts};
ghost use Rattle.packet.specs.Packet.{IsLawful, header_of, packet_of};
ghost use Rattle.packet.specs.Parts.{fields_at};
ghost use Rattle.packet.specs.Versions.{is_text_len};

use dr_base::{PACKET_FRAME, Position, put, put_u32};

/// Puts the two low bytes of a length at a place.
fn put_len(out: &mut [u8], at: usize, len: usize) -> usize
    requires { at + 2 ≤ length out.old }
    ensures { Puts out.old out.new at (to_be_bytes w16 len) result }
{
    put(out, at, &len.to_be_bytes()[6..])
}

/// Puts the version at the beginning.
fn put_version(out: &mut [u8], version: u8) -> usize
    requires { 1 ≤ length out.old }
    ensures { Puts out.old out.new 0 (to_be_bytes w8 version) result }
{
    put(out, 0, &[version])
}

/// Puts what stands before the ciphertext at the beginning.
fn put_header(
    version: u8,
    session: &[u8; 16],
    position: Position,
    previous: u32,
    agreement: &[u8],
    text_len: usize,
    out: &mut [u8],
) -> usize
    requires { 33 + length agreement.now ≤ length out.old }
    ensures { let header = header_of version session.now position.epoch previous position.index
        agreement.now text_len in
        Puts out.old out.new 0 header result }
{
    let at_session = put_version(out, version);
    let at_epoch = put(out, at_session, session);
    let at_previous = put_u32(out, at_epoch, position.epoch);
    let at_index = put_u32(out, at_previous, previous);
    let at_size = put_u32(out, at_index, position.index);
    let at_agreement = put_len(out, at_size, agreement.len());
    let at_text_len = put(out, at_agreement, agreement);
    put_len(out, at_text_len, text_len)
}

/// Writes what stands before the ciphertext, which sealing needs first, and answers its length.
pub fn write_ad(
    version: u8,
    session: &[u8; 16],
    position: Position,
    previous: u32,
    agreement: &[u8],
    text_len: usize,
    out: &mut [u8],
) -> usize
    requires agreement_fits { length agreement.now < 2 ^ 16 }
    requires text_fits { is_text_len version text_len ≡ true }
    requires room { 33 + length agreement.now ≤ length out.old }
    ensures len { let header = header_of version session.now position.epoch previous
        position.index agreement.now text_len in
        result ≡ length header }
    ensures size { result ≡ 33 + length agreement.now }
    ensures written { let header = header_of version session.now position.epoch previous
        position.index agreement.now text_len in
        take result out.new ≡ header }
    ensures rest { drop result out.new ≡ drop result out.old }
{
    put_header(
        version, session, position, previous, agreement, text_len, out,
    )
}

/// Writes a packet, and answers its length.
pub fn write_into(
    version: u8,
    session: &[u8; 16],
    position: Position,
    previous: u32,
    agreement: &[u8],
    ciphertext: &[u8],
    tag: &[u8; 32],
    out: &mut [u8],
) -> usize
    requires lawful { let f = fields_at version session.now position previous agreement.now
        ciphertext.now tag.now in
        IsLawful (length agreement.now) f }
    requires room { PACKET_FRAME + length agreement.now + length ciphertext.now ≤ length out.old }
    ensures len { let f = fields_at version session.now position previous agreement.now
        ciphertext.now tag.now in
        result ≡ length (packet_of f) }
    ensures size { result ≡ PACKET_FRAME + length agreement.now + length ciphertext.now }
    ensures written { let f = fields_at version session.now position previous agreement.now
        ciphertext.now tag.now in
        take result out.new ≡ packet_of f }
    ensures rest { drop result out.new ≡ drop result out.old }
{
    let at_ciphertext = put_header(
        version,
        session,
        position,
        previous,
        agreement,
        ciphertext.len(),
        out,
    );
    let at_tag = put(out, at_ciphertext, ciphertext);
    put(out, at_tag, tag)
}
