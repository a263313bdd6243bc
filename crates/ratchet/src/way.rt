//! Ways to the key of a packet. Everything is worked out on a copy of the session's head, and in
//! room that gets a copy of the kept keys where they change.

ghost use Rattle.std.specs.Prelude.{◌≡◌, ◌+◌, ◌<◌, ◌≤◌, false, None, Some, option_map};
ghost use Rattle.cka.specs.Agreement.{agreement_size};
ghost use Rattle.dr_base.specs.Position.{is_own};
ghost use Rattle.packet.specs.Packet.{IsLawful};
ghost use Rattle.session_model.specs.LawfulStates.{IsLawfulState};
ghost use Rattle.session_model.specs.Seen.{reception_seen, seen};
ghost use Rattle.session_model.specs.Ways.{chain_way, known_way, way_of};
ghost use Rattle.session_model.specs.States.{receiving_epoch};
ghost use Rattle.ratchet.specs.Seen.{kept_in, way_found};

use crate::entering::enter;
use crate::table::KeptRoom;
use dr_base::{INDEX_LIMIT, Position};
use etm_aead::OpenKey;
use fs_aead::Skipped;
use kem_laws::Kem;
use packet::View;
use session_model::{Head, Phase, ReceiveRefusal, Reception, SessionPart, copy_of_key};

/// Goes the way to the key of a packet, or answers the first reason why its tag isn't looked at.
/// `next` is a copy of the part's head, and becomes what the session keeps if the key opens the
/// packet; so does `table`, where the kept keys change.
pub(crate) fn find_key<K: Kem>(
    part: &SessionPart<K>,
    next: &mut Head<K>,
    table: &mut KeptRoom,
    work: &mut K::Work,
    view: &View<'_>,
) -> Result<OpenKey, ReceiveRefusal>
    requires copy { seen next.old part.now.kept ≡ part.now }
    requires same { table.old ≡ None }
    requires lawful { IsLawful (agreement_size K.mechanism) view.now }
    ensures way { way_found result (seen next.new (kept_in part.now.kept table.new))
        ≡ way_of K.mechanism part.now view.now }
    ensures state { IsLawfulState K.mechanism (seen next.new (kept_in part.now.kept table.new)) }
{
    let epoch = view.epoch();
    let head = &part.head;
    if *view.session() != head.session {
        return Err(ReceiveRefusal::OtherSession);
    }
    if head.side.owns(epoch) {
        return Err(ReceiveRefusal::OwnPacket { epoch });
    }
    if epoch > head.epoch + 1 {
        return Err(ReceiveRefusal::Ahead {
            epoch,
            reached: head.epoch,
        });
    }
    if epoch == head.epoch + 1 {
        return match &head.phase {
            Phase::Own(own) => enter(own, &head.receiving, &part.kept, next, table, work, view),
            Phase::Peers(_) => Err(ReceiveRefusal::OwnPacket { epoch }),
        };
    }
    let position = Position {
        epoch,
        index: view.index(),
    };
    find_known(&head.receiving, &part.kept, next, table, position)
}

/// Goes the way in the peer's epochs so far.
fn find_known<K: Kem>(
    receiving: &Option<Reception>,
    kept: &Skipped,
    next: &mut Head<K>,
    table: &mut KeptRoom,
    position: Position,
) -> Result<OpenKey, ReceiveRefusal>
    requires receiving { let before = seen next.old kept.now in
        before.receiving ≡ option_map reception_seen receiving.now }
    requires same { table.old ≡ None }
    requires state { IsLawfulState K.mechanism (seen next.old kept.now) }
    requires peers { is_own next.old.side position.epoch ≡ false }
    requires known { position.epoch ≤ next.old.epoch }
    requires most { position.index ≤ INDEX_LIMIT }
    ensures way { let before = seen next.old kept.now in
        way_found result (seen next.new (kept_in kept.now table.new))
        ≡ known_way before position before.receiving }
    ensures state { IsLawfulState K.mechanism (seen next.new (kept_in kept.now table.new)) }
{
    match receiving {
        None => Err(ReceiveRefusal::Spent { position }),
        Some(reception) => {
            if next.epoch <= position.epoch + 1 && reception.reach < position.index {
                go_along(reception, kept, next, table, position)
            } else {
                match table.take(kept, position) {
                    None => Err(ReceiveRefusal::Spent { position }),
                    Some(key) => Ok(key),
                }
            }
        }
    }
}

/// Goes along the chain, and puts the keys between into the table.
fn go_along<K: Kem>(
    reception: &Reception,
    kept: &Skipped,
    next: &mut Head<K>,
    table: &mut KeptRoom,
    position: Position,
) -> Result<OpenKey, ReceiveRefusal>
    requires held { (seen next.old kept.now).receiving ≡ Some (reception_seen reception.now) }
    requires same { table.old ≡ None }
    requires state { IsLawfulState K.mechanism (seen next.old kept.now) }
    requires latest { receiving_epoch next.old.side next.old.epoch ≡ Some position.epoch }
    requires above { reception.now.reach < position.index }
    requires most { position.index ≤ INDEX_LIMIT }
    ensures way { way_found result (seen next.new (kept_in kept.now table.new))
        ≡ chain_way (seen next.old kept.now) (reception_seen reception.now) position }
    ensures state { IsLawfulState K.mechanism (seen next.new (kept_in kept.now table.new)) }
{
    let reach = reception.reach;
    if let Err(limit) = kept.room_for(position.index - reach - 1) {
        return Err(ReceiveRefusal::SkipLimit { would: limit.would });
    }
    let chain = copy_of_key(&reception.chain);
    let (stream, key) = table
        .pass(kept, chain, reach, position.epoch, position.index - 1)
        .next();
    let (chain, reach) = stream.rest();
    next.receiving = Some(Reception { chain, reach });
    Ok(key)
}
