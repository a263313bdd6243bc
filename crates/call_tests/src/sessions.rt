//! Sessions over the stand-in.

ghost use Rattle.std.specs.Prelude.{◌≡◌, ◌≤◌, length, is_some};

use arrayvec::ArrayVec;
use bodies::{Format, TEXT_KIND};
use dr_base::{Key32, PACKET_LIMIT, Side, TEXT_LIMIT, in_room};
use kem_laws::{NoPair, OpenKem};
use packet::parse;
use ratchet::{NoPairFor, OpeningRoom, PacketRoom, Session};
use session_model::Refusal;

/// A packet in room of its own.
pub(crate) type Packet = ArrayVec<u8, PACKET_LIMIT>;

/// A text in room of its own.
pub(crate) type Text = ArrayVec<u8, TEXT_LIMIT>;

/// A side at the beginning, under the key of 32 zero bytes.
pub(crate) fn begin(side: Side, format: Format) -> Result<Session<OpenKem>, Refusal> {
    match Session::begin(&mut (), side, format, &Key32 { bytes: [0; 32] }) {
        Ok(session) => Ok(session),
        Err(NoPair) => Err(Refusal::NoPair),
    }
}

/// The seed of 32 bytes 01, if one is asked for.
fn seed_of(asked: bool) -> Option<Key32>
    ensures { is_some result ≡ asked }
{
    if asked {
        Some(Key32 { bytes: [1; 32] })
    } else {
        None
    }
}

/// Says a text, and answers its packet.
pub(crate) fn say(session: &mut Session<OpenKem>, text: &[u8]) -> Result<Packet, Refusal> {
    let asked = session.send_check(TEXT_KIND, text)?;
    let seed = seed_of(asked);
    let mut room = PacketRoom::new();
    match session.draft_send(&mut (), TEXT_KIND, text, seed, &mut room) {
        Err(NoPairFor { seed: _ }) => Err(Refusal::NoPair),
        Ok(draft) => {
            let packet = in_room(draft.packet());
            draft.accept(session);
            Ok(packet)
        }
    }
}

/// Takes a packet, and answers its text.
pub(crate) fn take(session: &mut Session<OpenKem>, packet: &[u8]) -> Result<Text, Refusal> {
    let mut room = OpeningRoom::new();
    match parse(packet, 64) {
        Err(fault) => Err(Refusal::Malformed(fault)),
        Ok(view) => match session.draft_receive(&mut (), &view, &mut room) {
            Err(refusal) => Err(refusal.into()),
            Ok(draft) => {
                let text = in_room(draft.text());
                draft.accept(session);
                Ok(text)
            }
        },
    }
}
