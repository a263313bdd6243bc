//! A peer takes what the hub has for it.

ghost use Rattle.std.specs.Prelude.{◌≤◌};
ghost use Rattle.hub.specs.Receiving.{AnswersAs, answer_of, answer_to};

use crate::peers::{PEERS_LIMIT, peer_key, peer_name};
use crate::playing::FanPlayError;
use bodies::Format;
use book::Book;
use client::{Core, CoreBeginError, Draft};
use dr_base::Side;
use kem_laws::Kem;
use ratchet::OpeningRoom;
use session_model::Answer;
use std::alloc::Global;

/// What a peer, as Second, answers to a packet.
fn taken<K: Kem>(alloc: Global, number: u32, packet: &[u8]) -> Result<Answer, FanPlayError>
    requires { number ≤ PEERS_LIMIT }
    ensures { AnswersAs K.mechanism number (answer_to K.mechanism number packet.now) result }
{
    let mut peer = match Core::<K>::begin(alloc, Side::Second, Format::Plain, &peer_key(number)) {
        Ok(peer) => peer,
        Err(CoreBeginError::Memory) => return Err(FanPlayError::Memory),
        Err(CoreBeginError::NoPair) => return Err(FanPlayError::NoPair),
    };
    let mut room = OpeningRoom::new();
    match peer.draft_take(packet, &mut room) {
        Ok(draft) => {
            let position = draft.position();
            peer.accept(Draft::Received(draft));
            Ok(Answer::Opened(position))
        }
        Err(refusal) => Ok(Answer::Refused(refusal)),
    }
}

/// What a peer answers to what a book has for it first; nothing where it has no packet.
pub(crate) fn answer<K: Kem>(
    alloc: Global,
    book: &Book<K>,
    number: u32,
) -> Result<Answer, FanPlayError>
    requires first { 1 ≤ number }
    requires few { number ≤ PEERS_LIMIT }
    ensures { AnswersAs K.mechanism number (answer_of K.mechanism number book.now.rows) result }
{
    match book.outbox(peer_name(number), 0) {
        Ok(Some((_, packet))) => taken::<K>(alloc, number, packet),
        _ => Ok(Answer::Nothing),
    }
}
