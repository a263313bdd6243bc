//! Packets are taken.

ghost use Rattle.std.specs.Prelude.{◌≡◌, IfOk, Ok, OnOk};
ghost use Rattle.dr_base.specs.declared.position.Side.{Side};
ghost use Rattle.dr_model.specs.Machines.Acts.{act_on, taken_by, taking};
ghost use Rattle.dr_model.specs.Machines.WorldActs.{act_in};
ghost use Rattle.dr_model.specs.Machines.Worlds.{World};
ghost use Rattle.dr_model.specs.Theorems.Fairness.{IsUnforged};
ghost use Rattle.ratchet.specs.Seen.{received_of};
ghost use Rattle.session_model.specs.Clients.{accept_receive};
ghost use Rattle.client.specs.Acting.{IsKeeperAct};
ghost use Rattle.client.specs.Clients.{IsOpenOn, MayActOn};
ghost use Rattle.client.specs.Drafting.{IsReceivedOf, taken_of};
ghost use Rattle.client.specs.InWorlds.{ActsIn, IsIn, IsKeeperIn, KeeperActsIn};
ghost use Rattle.client.specs.Keepings.{IsKeeperOpen, MayKeeperAct, cell_of};
ghost use Rattle.client.specs.Outcomes.{Acts, KeeperActs, StaysPassing, taken_as};
ghost use Rattle.client.specs.Receipts.{HaveArrived};
ghost use Rattle.client.specs.Spent.{IsSpent, IsSpentInCell};

use crate::client::Client;
use crate::cores::Draft;
use crate::keepers::{Keeper, keep};
use crate::laws::grounds;
use crate::refusals::TakeRefusal;
use dr_base::Position;
use dr_disk::Disk;
use kem_laws::Kem;
use ratchet::{OpeningRoom, ReceiveDraft};
use session_model::Refusal;

impl<K: Kem> Client<K> {
    /// Opens the packet that the bytes are, and puts its text into the inbox. `Closed` exactly
    /// where a call on the disk failed before, then the first reason against the packet, then a
    /// full inbox. None of these changes anything or calls the disk. `StoreFault` only where a call
    /// on the disk failed: then the client is closed, and shows what it showed.
    pub fn take<D: Disk>(&mut self, disk: &mut D, packet: &[u8]) -> Result<Position, TakeRefusal>
        requires { MayActOn self.old (D.state disk.old) }
        // Exactly what the side makes of it, but for a failing call on the disk.
        ensures exact { Acts D.state (act_on K.mechanism self.old.kept (taking packet.now))
            self.old self.new disk.old disk.new (taken_as result) }
        ensures ready { OnOk result (IsOpenOn self.new (D.state disk.new)) }
        // In each world that the client stands for, at every moment, where no tag is forged.
        ensures in_worlds { (w : World) (side : Side) → IsIn K.mechanism w side self.old
            → IsUnforged K.mechanism w side packet.now
            → ActsIn K.mechanism w side (taking packet.now) self.old self.new (D.state disk.old)
            (D.state disk.new)
            (taken_as result) }
        // Once it is opened, the key of its position is used up, and nothing that a crash leaves
        // gives it.
        ensures spent { IfOk result (λ position. (w : World) (side : Side)
            → IsIn K.mechanism w side self.old
            → IsUnforged K.mechanism w side packet.now
            → IsSpent K.mechanism (act_in K.mechanism w side (taking packet.now)).next side position
            (D.state disk.new)) }
        // Each own text that doesn't wait for a receipt any more was opened by the other side.
        ensures arrived { (w : World) (side : Side) → IsIn K.mechanism w side self.old
            → IsUnforged K.mechanism w side packet.now
            → HaveArrived w side self.old.kept self.new.kept }
        ensures fate { StaysPassing (D.state disk.old) (D.state disk.new) (taken_as result) }
    {
        take::<K, Client<K>, D>(self, disk, packet)
    }
}

/// Opens the packet that the bytes are, and puts its text into the inbox. `Closed` exactly
/// where a call on the disk failed before, then the first reason against the packet, then a
/// full inbox. None of these changes anything or calls the disk. `StoreFault` only where a call
/// on the disk failed: then the client is closed, and shows what it showed.
pub fn take<K: Kem, Q: Keeper<K>, D: Disk>(
    keeper: &mut Q,
    disk: &mut D,
    packet: &[u8],
) -> Result<Position, TakeRefusal>
    requires { MayKeeperAct Q.keeping keeper.old (D.state disk.old) }
    // Exactly what the side makes of it, but for a failing call on the disk.
    ensures exact { KeeperActs Q.keeping D.state
        (act_on K.mechanism (Q.keeping.kept keeper.old) (taking packet.now))
        keeper.old keeper.new disk.old disk.new (taken_as result) }
    ensures ready { OnOk result (IsKeeperOpen Q.keeping keeper.new (D.state disk.new)) }
    // In each world that the keeper stands for, at every moment, where no tag is forged.
    ensures in_worlds { (w : World) (side : Side)
        → IsKeeperIn Q.keeping K.mechanism w side keeper.old
        → IsUnforged K.mechanism w side packet.now
        → KeeperActsIn Q.keeping K.mechanism w side (taking packet.now) keeper.old keeper.new
        (D.state disk.old) (D.state disk.new) (taken_as result) }
    // Once it is opened, the key of its position is used up, and nothing that a crash leaves
    // gives it.
    ensures spent { IfOk result (λ position. (w : World) (side : Side)
        → IsKeeperIn Q.keeping K.mechanism w side keeper.old
        → IsUnforged K.mechanism w side packet.now
        → IsSpentInCell (cell_of Q.keeping keeper.old) K.mechanism
        (act_in K.mechanism w side (taking packet.now)).next side position
        (D.state disk.new)) }
    // Each own text that doesn't wait for a receipt any more was opened by the other side.
    ensures arrived { (w : World) (side : Side) → IsKeeperIn Q.keeping K.mechanism w side keeper.old
        → IsUnforged K.mechanism w side packet.now
        → HaveArrived w side (Q.keeping.kept keeper.old) (Q.keeping.kept keeper.new) }
    ensures fate { StaysPassing (D.state disk.old) (D.state disk.new) (taken_as result) }
{
    grounds::<K>();
    Q::holds::<D>();
    take_exact::<K, Q, D>(keeper, disk, packet)
}

// A function of its own, so that its rooms aren't set while the client is opened.
#[inline(never)]
pub(crate) fn take_exact<K: Kem, Q: Keeper<K>, D: Disk>(
    keeper: &mut Q,
    disk: &mut D,
    packet: &[u8],
) -> Result<Position, TakeRefusal>
    requires { MayKeeperAct Q.keeping keeper.old (D.state disk.old) }
    ensures { IsKeeperAct Q.keeping D.state
        (act_on K.mechanism (Q.keeping.kept keeper.old) (taking packet.now))
        keeper.old keeper.new disk.old disk.new (taken_as result) }
{
    if let Some(call) = keeper.closed() {
        return Err(TakeRefusal::Closed { call });
    }
    let mut room = OpeningRoom::new();
    keeper.is_there(disk);
    let drafted = keeper.draft_take(packet, &mut room);
    take_drafted::<K, Q, D>(keeper, disk, drafted)
}

/// Takes what was drafted for a packet.
// Inlined, so that the draft stays where it is.
#[inline(always)]
pub(crate) fn take_drafted<K: Kem, Q: Keeper<K>, D: Disk>(
    keeper: &mut Q,
    disk: &mut D,
    drafted: Result<ReceiveDraft<'_, K>, Refusal>,
) -> Result<Position, TakeRefusal>
    requires drafted { IfOk drafted (IsReceivedOf K.mechanism (Q.keeping.kept keeper.old)) }
    requires open { IsKeeperOpen Q.keeping keeper.old (D.state disk.old) }
    ensures { let taken = taken_of (Q.keeping.kept keeper.old).state drafted.entry in
        IsKeeperAct Q.keeping D.state (taken_by (accept_receive (Q.keeping.kept keeper.old) taken))
        keeper.old keeper.new disk.old disk.new (taken_as result) }
{
    match drafted {
        Err(refusal) => Err(TakeRefusal::Refused(refusal)),
        Ok(draft) => receive::<K, Q, D>(keeper, disk, draft),
    }
}

/// Keeps a packet that opens. A function of its own, so that its room is set only there.
#[inline(never)]
fn receive<K: Kem, Q: Keeper<K>, D: Disk>(
    keeper: &mut Q,
    disk: &mut D,
    draft: ReceiveDraft<'_, K>,
) -> Result<Position, TakeRefusal>
    requires draft { IsReceivedOf K.mechanism (Q.keeping.kept keeper.old) draft }
    requires open { IsKeeperOpen Q.keeping keeper.old (D.state disk.old) }
    ensures { let taken = received_of (Q.keeping.kept keeper.old).state draft.entry in
        IsKeeperAct Q.keeping D.state
        (taken_by (accept_receive (Q.keeping.kept keeper.old) (Ok taken)))
        keeper.old keeper.new disk.old disk.new (taken_as result) }
{
    let position = draft.position();
    match keep::<K, Q, D>(keeper, disk, Draft::Received(draft)) {
        Err(call) => Err(TakeRefusal::StoreFault { call }),
        Ok(()) => Ok(position),
    }
}
