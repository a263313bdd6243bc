//! The way into the next epoch.

ghost use Rattle.std.specs.Prelude.{◌≡◌, ◌+◌, ◌-◌, ◌≤◌, ◌++◌, length, None, Some, option_map};
ghost use Rattle.cka.specs.Agreement.{agreement_size};
ghost use Rattle.dr_base.specs.declared.limits.TheConstants.{INDEX_LIMIT, KEPT_LIMIT};
ghost use Rattle.fs_aead.specs.Chain.{chain_of};
ghost use Rattle.fs_aead.specs.Table.{shelved};
ghost use Rattle.packet.specs.Packet.{IsLawful};
ghost use Rattle.session_model.specs.LawfulStates.{IsLawfulState};
ghost use Rattle.session_model.specs.Seen.{own_seen, phase_seen, reception_seen, seen};
ghost use Rattle.session_model.specs.Ways.{next_way, turned};
ghost use Rattle.session_model.specs.States.{in_own, receiving_epoch};
ghost use Rattle.ratchet.specs.Seen.{kept_in, on_way, way_found};

use crate::table::KeptRoom;
use cka::Holder;
use etm_aead::OpenKey;
use fs_aead::Skipped;
use kem_laws::{Kem, laws};
use packet::View;
use prf_prng::Root;
use session_model::{Head, Own, Phase, ReceiveRefusal, Reception, copy_of_key};

/// Goes into the next epoch, if the table has room for the keys that this passes.
pub(crate) fn enter<K: Kem>(
    own: &Own,
    receiving: &Option<Reception>,
    kept: &Skipped,
    next: &mut Head<K>,
    table: &mut KeptRoom,
    work: &mut K::Work,
    view: &View<'_>,
) -> Result<OpenKey, ReceiveRefusal>
    requires held { phase_seen next.old.phase ≡ in_own (own_seen own.now) }
    requires receiving { let before = seen next.old kept.now in
        before.receiving ≡ option_map reception_seen receiving.now }
    requires same { table.old ≡ None }
    requires state { IsLawfulState K.mechanism (seen next.old kept.now) }
    requires next { view.now.epoch ≡ next.old.epoch + 1 }
    requires lawful { IsLawful (agreement_size K.mechanism) view.now }
    ensures way { let before = seen next.old kept.now in
        way_found result (seen next.new (kept_in kept.now table.new))
        ≡ next_way K.mechanism before (own_seen own.now) view.now before.receiving }
    ensures state { IsLawfulState K.mechanism (seen next.new (kept_in kept.now table.new)) }
{
    let (previous, index) = (view.previous(), view.index());
    match receiving {
        None => match kept.room_for(index - 1) {
            Err(limit) => Err(ReceiveRefusal::SkipLimit { would: limit.would }),
            Ok(()) => Ok(turn(own, kept, next, table, work, view)),
        },
        Some(reception) => {
            if previous < reception.reach {
                return Err(ReceiveRefusal::Count {
                    claimed: previous,
                    known: reception.reach,
                });
            }
            match kept.room_for(previous - reception.reach + (index - 1)) {
                Err(limit) => Err(ReceiveRefusal::SkipLimit { would: limit.would }),
                Ok(()) => {
                    keep_to_end(reception, kept, next, table, view.epoch() - 2, previous);
                    Ok(turn(own, kept, next, table, work, view))
                }
            }
        }
    }
}

/// Keeps the keys of the peer's last epoch up to its end.
fn keep_to_end<K: Kem>(
    reception: &Reception,
    kept: &Skipped,
    next: &mut Head<K>,
    table: &mut KeptRoom,
    epoch: u32,
    end: u32,
)
    requires held { (seen next.old kept.now).receiving ≡ Some (reception_seen reception.now) }
    requires same { table.old ≡ None }
    requires state { IsLawfulState K.mechanism (seen next.old kept.now) }
    requires latest { receiving_epoch next.old.side next.old.epoch ≡ Some epoch }
    requires from { reception.now.reach ≤ end }
    requires most { end ≤ INDEX_LIMIT }
    requires room { length kept.now + (end - reception.now.reach) ≤ KEPT_LIMIT }
    ensures keys { let chain = reception.now.chain.bytes in
        let reach = reception.now.reach in
        seen next.new (kept_in kept.now table.new) ≡ record (seen next.old kept.now) {
          receiving = Some (record { chain = chain_of chain (end - reach); reach = end });
          kept = kept.now ++ shelved epoch chain reach (end - reach);
        } }
    ensures state { IsLawfulState K.mechanism (seen next.new (kept_in kept.now table.new)) }
{
    let chain = copy_of_key(&reception.chain);
    let (chain, reach) = table.pass(kept, chain, reception.reach, epoch, end).rest();
    next.receiving = Some(Reception { chain, reach });
}

/// Answers the agreement message of the next epoch, and goes to the index in it.
fn turn<K: Kem>(
    own: &Own,
    kept: &Skipped,
    next: &mut Head<K>,
    table: &mut KeptRoom,
    work: &mut K::Work,
    view: &View<'_>,
) -> OpenKey
    requires held { phase_seen next.old.phase ≡ in_own (own_seen own.now) }
    requires state { IsLawfulState K.mechanism (seen next.old (kept_in kept.now table.old)) }
    requires next { view.now.epoch ≡ next.old.epoch + 1 }
    requires lawful { IsLawful (agreement_size K.mechanism) view.now }
    requires room { length (kept_in kept.now table.old) + (view.now.index - 1) ≤ KEPT_LIMIT }
    ensures way { let before = seen next.old (kept_in kept.now table.old) in
        on_way result (seen next.new (kept_in kept.now table.new))
        ≡ turned K.mechanism before (own_seen own.now) view.now before.kept }
    ensures state { IsLawfulState K.mechanism (seen next.new (kept_in kept.now table.new)) }
{
    laws::<K>();
    let (epoch, index) = (view.epoch(), view.index());
    let root = Root::resume(copy_of_key(&next.root));
    let holder = Holder::<K>::resume(own.secret.as_slice());
    let (caller, shared) = holder.answer(work, view.agreement());
    let (root, stream) = root.up(&shared);
    let (stream, key) = table.pass(kept, stream, 0, epoch, index - 1).next();
    let (chain, reach) = stream.rest();
    next.root = root.rest();
    next.epoch = epoch;
    next.phase = Phase::Peers(caller.rest());
    next.previous = own.sent;
    next.receiving = Some(Reception { chain, reach });
    key
}
