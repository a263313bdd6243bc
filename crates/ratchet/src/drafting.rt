//! Drafts of what is said: texts, and parts of long ones.

ghost use Rattle.std.specs.Prelude.{◌≡◌, ◌+◌, ◌-◌, ◌^◌, ◌<◌, ◌≤◌, length, take, [], Some, None, Ok, is_some, option_map, IfOk, IfErr, IfSome, OnErr, OnOk};
ghost use Rattle.cka.specs.Agreement.{turn_of};
ghost use Rattle.boxes.specs.Posts.{post_under};
ghost use Rattle.session_model.specs.Contents.{content_with};
ghost use Rattle.session_model.specs.Drafts.{IsSendDraft};
ghost use Rattle.session_model.specs.Saying.{draft_own, draft_send, draft_turn, send_check};
ghost use Rattle.session_model.specs.LawfulStates.{IsLawfulState};
ghost use Rattle.session_model.specs.Seen.{own_seen, phase_seen, seen};
ghost use Rattle.session_model.specs.States.{in_own, in_peers};
ghost use Rattle.ratchet.specs.Seen.{drafted, said_of, seed_bytes, went_on};

use crate::rooms::PacketRoom;
use crate::sealing::seal_packet;
use crate::sending::{NoPairFor, SendDraft};
use crate::session::Session;
use bodies::Body;
use cka::{Caller, PublicText};
use dr_base::{INDEX_LIMIT, Key32, LAST_EPOCH, PACKET_LIMIT, Position, RECEIPT_LIMIT, TEXT_LIMIT};
use fs_aead::SendStream;
use kem_laws::{Kem, laws};
use prf_prng::Root;
use session_model::{Head, Own, Phase, copy_of_key};

impl<K: Kem> Session<K> {
    /// Drafts bytes of a kind that `send_check` allows, a text or a part of a long one, with a seed
    /// exactly where it asks for one. Their packet stands in the room.
    // Inlined, the draft is built where the caller keeps it.
    #[inline(always)]
    pub fn draft_send<'a>(
        &self,
        work: &mut K::Work,
        kind: u8,
        text: &[u8],
        seed: Option<Key32>,
        room: &'a mut PacketRoom,
    ) -> Result<SendDraft<'a, K>, NoPairFor>
        requires { send_check self.now (content_with kind text.now) ≡ Ok (is_some seed) }
        ensures ok { IfOk result (λ draft.
            draft_send K.mechanism self.now (content_with kind text.now) (seed_bytes seed)
            ≡ Some (said_of self.now draft)) }
        ensures draft { IfOk result (λ draft.
            IsSendDraft K.mechanism self.now (said_of self.now draft)) }
        ensures err { OnErr result
            (draft_send K.mechanism self.now (content_with kind text.now) (seed_bytes seed)
            ≡ None) }
        ensures seed { IfErr result (λ e. seed ≡ Some e.seed) }
    {
        let part = &self.part;
        let body = Body {
            receipt: part.receipt(),
            kind,
            content: text,
        };
        let mut draft = SendDraft {
            position: Position { epoch: 0, index: 0 },
            packet: &[],
            head: part.head.copied(),
        };
        match &part.head.phase {
            Phase::Own(own) => {
                let (position, len) = say_on(own, &mut draft.head, &body, &mut room.bytes);
                draft.position = position;
                draft.packet = &room.bytes[..len];
                Ok(draft)
            }
            Phase::Peers(public) => {
                // `send_check` asks for a seed here
                let seed = seed.unwrap();
                match say_first(public, &mut draft.head, work, &body, seed, &mut room.bytes) {
                    Ok((position, len)) => {
                        draft.position = position;
                        draft.packet = &room.bytes[..len];
                        Ok(draft)
                    }
                    Err(none) => {
                        draft.discard();
                        Err(none)
                    }
                }
            }
        }
    }
}

/// An own epoch whose stream went on.
fn go_on(phase: &mut Phase, chain: Key32, sent: u32)
    ensures { phase.new ≡ went_on phase.old chain sent }
{
    match phase {
        Phase::Own(own) => {
            own.chain = chain;
            own.sent = sent;
        }
        Phase::Peers(_) => {}
    }
}

/// Says the next text of an own epoch.
fn say_on<K: Kem>(
    own: &Own,
    next: &mut Head<K>,
    body: &Body<'_>,
    room: &mut [u8; PACKET_LIMIT],
) -> (Position, usize)
    requires held { phase_seen next.old.phase ≡ in_own (own_seen own.now) }
    requires lawful { IsLawfulState K.mechanism (seen next.old []) }
    requires few { own.now.sent < INDEX_LIMIT }
    requires short { length body.now.content ≤ TEXT_LIMIT }
    requires listed { IfSome body.now.receipt (λ r. length r.listed ≤ RECEIPT_LIMIT) }
    ensures draft { drafted (post_under result.0 (take result.1 room.new)) (seen next.new [])
        ≡ draft_own (seen next.old []) (own_seen own.now) body.now }
    ensures lawful { IsLawfulState K.mechanism (seen next.new []) }
    ensures fits { result.1 ≤ PACKET_LIMIT }
{
    let position = Position {
        epoch: next.epoch,
        index: own.sent + 1,
    };
    let previous = next.previous;
    let version = next.format.version();
    let (stream, key) = SendStream::resume(copy_of_key(&own.chain), own.sent).next();
    let len = seal_packet(
        version,
        &next.session,
        position,
        previous,
        own.agreement.as_slice(),
        key,
        body,
        room,
    );
    let (chain, sent) = stream.rest();
    go_on(&mut next.phase, chain, sent);
    next.awaiting.wait(position);
    (position, len)
}

/// Says the first text of the next own epoch, which a turn begins. A function of its own, so that
/// its room is set only there.
#[inline(never)]
fn say_first<K: Kem>(
    public: &PublicText,
    next: &mut Head<K>,
    work: &mut K::Work,
    body: &Body<'_>,
    seed: Key32,
    room: &mut [u8; PACKET_LIMIT],
) -> Result<(Position, usize), NoPairFor>
    requires held { phase_seen next.old.phase ≡ in_peers public.now.items }
    requires lawful { IsLawfulState K.mechanism (seen next.old []) }
    requires more { next.old.epoch < LAST_EPOCH }
    requires short { length body.now.content ≤ TEXT_LIMIT }
    requires listed { IfSome body.now.receipt (λ r. length r.listed ≤ RECEIPT_LIMIT) }
    ensures ok { IfOk result (λ said.
        option_map (draft_turn (seen next.old []) body.now)
        (turn_of K.mechanism public.now.items seed.bytes)
        ≡ Some (drafted (post_under said.0 (take said.1 room.new)) (seen next.new []))) }
    ensures fits { IfOk result (λ said. said.1 ≤ PACKET_LIMIT) }
    ensures lawful { OnOk result (IsLawfulState K.mechanism (seen next.new [])) }
    ensures same { OnErr result (seen next.new [] ≡ seen next.old []) }
    ensures err { OnErr result (turn_of K.mechanism public.now.items seed.bytes ≡ None) }
    ensures seed { IfErr result (λ e. e.seed ≡ seed) }
{
    laws::<K>();
    // The proof takes the length of the seed from this.
    let _bytes = &seed.bytes;
    let position = Position {
        epoch: next.epoch + 1,
        index: 1,
    };
    match Caller::<K>::resume(public.as_slice()).turn(work, &seed) {
        Err(caller) => {
            let _public = caller.rest();
            Err(NoPairFor { seed })
        }
        Ok((holder, agreement, shared)) => {
            let (root, stream) = Root::resume(copy_of_key(&next.root)).up(&shared);
            let version = next.format.version();
            let (stream, key) = SendStream::resume(stream, 0).next();
            let len = seal_packet(
                version,
                &next.session,
                position,
                next.previous,
                agreement.as_slice(),
                key,
                body,
                room,
            );
            let (chain, sent) = stream.rest();
            next.root = root.rest();
            next.epoch = position.epoch;
            next.phase = Phase::Own(Own {
                secret: holder.rest(),
                agreement,
                chain,
                sent,
            });
            next.awaiting.wait(position);
            Ok((position, len))
        }
    }
}
