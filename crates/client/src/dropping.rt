//! Items leave a box.

ghost use Rattle.std.specs.Prelude.{◌≡◌, Ok, OnOk, true};
ghost use Rattle.dr_base.specs.declared.position.Side.{Side};
ghost use Rattle.dr_model.specs.Machines.Acts.{act_on, dropping};
ghost use Rattle.dr_model.specs.Machines.Steps.{has_effect};
ghost use Rattle.dr_model.specs.Machines.Worlds.{World};
ghost use Rattle.session_model.specs.declared.answer.Answer.TheVariants.{Dropped};
ghost use Rattle.session_model.specs.declared.answer.Items.TheVariants.{Packets, Texts};
ghost use Rattle.session_model.specs.declared.answer.Which.TheVariants.{OfId, Oldest};
ghost use Rattle.client.specs.Acting.{IsKeeperAct};
ghost use Rattle.client.specs.Clients.{IsOpenOn, MayActOn};
ghost use Rattle.client.specs.Drafting.{HasToDrop};
ghost use Rattle.client.specs.InWorlds.{ActsIn, IsIn, IsKeeperIn, KeeperActsIn};
ghost use Rattle.client.specs.Keepings.{IsKeeperOpen, MayKeeperAct};
ghost use Rattle.client.specs.Outcomes.{Acts, KeeperActs, StaysPassing, dropped_as, kept_as};

use crate::client::Client;
use crate::cores::Draft;
use crate::keepers::{Keeper, keep};
use crate::laws::grounds;
use crate::refusals::DropRefusal;
use dr_disk::{Call, Disk};
use kem_laws::Kem;
use session_model::{Items, Which};

impl<K: Kem> Client<K> {
    /// Drops the `n` oldest texts of the inbox. `Closed` exactly where a call on the disk failed
    /// before, then `Fewer` exactly where fewer stand. Neither changes anything or calls the disk,
    /// and dropping none doesn't either. `StoreFault` only where a call on the disk failed: then
    /// the client is closed, and shows what it showed.
    pub fn done<D: Disk>(&mut self, disk: &mut D, n: u32) -> Result<(), DropRefusal>
        requires { MayActOn self.old (D.state disk.old) }
        // Exactly what the side makes of it, but for a failing call on the disk.
        ensures exact { let which = Oldest Texts n in
            Acts D.state (act_on K.mechanism self.old.kept (dropping which))
            self.old self.new disk.old disk.new (dropped_as (Dropped which) result) }
        ensures ready { OnOk result (IsOpenOn self.new (D.state disk.new)) }
        // In each world that the client stands for, at every moment.
        ensures in_worlds { (w : World) (side : Side) → IsIn K.mechanism w side self.old
            → let which = Oldest Texts n in
            ActsIn K.mechanism w side (dropping which) self.old self.new (D.state disk.old)
            (D.state disk.new) (dropped_as (Dropped which) result) }
        ensures fate { StaysPassing (D.state disk.old) (D.state disk.new)
            (dropped_as (Dropped (Oldest Texts n)) result) }
    {
        self.drop_items(disk, Which::Oldest(Items::Texts, n))
    }

    /// Drops the `n` oldest packets of the outbox, which were sent. Refuses as `done` does.
    pub fn sent<D: Disk>(&mut self, disk: &mut D, n: u32) -> Result<(), DropRefusal>
        requires { MayActOn self.old (D.state disk.old) }
        // Exactly what the side makes of it, but for a failing call on the disk.
        ensures exact { let which = Oldest Packets n in
            Acts D.state (act_on K.mechanism self.old.kept (dropping which))
            self.old self.new disk.old disk.new (dropped_as (Dropped which) result) }
        ensures ready { OnOk result (IsOpenOn self.new (D.state disk.new)) }
        // In each world that the client stands for, at every moment.
        ensures in_worlds { (w : World) (side : Side) → IsIn K.mechanism w side self.old
            → let which = Oldest Packets n in
            ActsIn K.mechanism w side (dropping which) self.old self.new (D.state disk.old)
            (D.state disk.new) (dropped_as (Dropped which) result) }
        ensures fate { StaysPassing (D.state disk.old) (D.state disk.new)
            (dropped_as (Dropped (Oldest Packets n)) result) }
    {
        self.drop_items(disk, Which::Oldest(Items::Packets, n))
    }

    /// Drops each part of the long text of an id, by one change of the disk. `Closed` exactly where
    /// a call on the disk failed before, then `NoLong` exactly where none stands. Neither changes
    /// anything or calls the disk. `StoreFault` as for `done`.
    pub fn done_long<D: Disk>(&mut self, disk: &mut D, id: u32) -> Result<(), DropRefusal>
        requires { MayActOn self.old (D.state disk.old) }
        // Exactly what the side makes of it, but for a failing call on the disk.
        ensures exact { let which = OfId id in
            Acts D.state (act_on K.mechanism self.old.kept (dropping which))
            self.old self.new disk.old disk.new (dropped_as (Dropped which) result) }
        ensures ready { OnOk result (IsOpenOn self.new (D.state disk.new)) }
        // In each world that the client stands for, at every moment.
        ensures in_worlds { (w : World) (side : Side) → IsIn K.mechanism w side self.old
            → let which = OfId id in
            ActsIn K.mechanism w side (dropping which) self.old self.new (D.state disk.old)
            (D.state disk.new) (dropped_as (Dropped which) result) }
        ensures fate { StaysPassing (D.state disk.old) (D.state disk.new)
            (dropped_as (Dropped (OfId id)) result) }
    {
        self.drop_items(disk, Which::OfId(id))
    }

    /// Drops items of a box, as `done` and `sent` do.
    pub fn drop_items<D: Disk>(&mut self, disk: &mut D, which: Which) -> Result<(), DropRefusal>
        requires { MayActOn self.old (D.state disk.old) }
        ensures exact { Acts D.state (act_on K.mechanism self.old.kept (dropping which))
            self.old self.new disk.old disk.new (dropped_as (Dropped which) result) }
        ensures ready { OnOk result (IsOpenOn self.new (D.state disk.new)) }
        ensures in_worlds { (w : World) (side : Side) → IsIn K.mechanism w side self.old
            → ActsIn K.mechanism w side (dropping which) self.old self.new (D.state disk.old)
            (D.state disk.new) (dropped_as (Dropped which) result) }
        ensures fate { StaysPassing (D.state disk.old) (D.state disk.new)
            (dropped_as (Dropped which) result) }
    {
        drop_items::<K, Client<K>, D>(self, disk, which)
    }
}

/// Drops items of a box, as `done` and `sent` do.
pub fn drop_items<K: Kem, Q: Keeper<K>, D: Disk>(
    keeper: &mut Q,
    disk: &mut D,
    which: Which,
) -> Result<(), DropRefusal>
    requires { MayKeeperAct Q.keeping keeper.old (D.state disk.old) }
    // Exactly what the side makes of it, but for a failing call on the disk.
    ensures exact { KeeperActs Q.keeping D.state
        (act_on K.mechanism (Q.keeping.kept keeper.old) (dropping which))
        keeper.old keeper.new disk.old disk.new (dropped_as (Dropped which) result) }
    ensures ready { OnOk result (IsKeeperOpen Q.keeping keeper.new (D.state disk.new)) }
    // In each world that the keeper stands for, at every moment.
    ensures in_worlds { (w : World) (side : Side)
        → IsKeeperIn Q.keeping K.mechanism w side keeper.old
        → KeeperActsIn Q.keeping K.mechanism w side (dropping which) keeper.old keeper.new
        (D.state disk.old) (D.state disk.new) (dropped_as (Dropped which) result) }
    ensures fate { StaysPassing (D.state disk.old) (D.state disk.new)
        (dropped_as (Dropped which) result) }
{
    grounds::<K>();
    Q::holds::<D>();
    drop_exact::<K, Q, D>(keeper, disk, which)
}

/// Drops items of a box.
pub(crate) fn drop_exact<K: Kem, Q: Keeper<K>, D: Disk>(
    keeper: &mut Q,
    disk: &mut D,
    which: Which,
) -> Result<(), DropRefusal>
    requires { MayKeeperAct Q.keeping keeper.old (D.state disk.old) }
    ensures { IsKeeperAct Q.keeping D.state
        (act_on K.mechanism (Q.keeping.kept keeper.old) (dropping which))
        keeper.old keeper.new disk.old disk.new (dropped_as (Dropped which) result) }
{
    if let Some(call) = keeper.closed() {
        return Err(DropRefusal::Closed { call });
    }
    keeper.is_there(disk);
    match keeper.core().drop_check(which) {
        Err(refusal) => Err(DropRefusal::Refused(refusal)),
        Ok(()) => {
            if !which.drops_any() {
                return Ok(());
            }
            match keep_dropped::<K, Q, D>(keeper, disk, which) {
                Err(call) => Err(DropRefusal::StoreFault { call }),
                Ok(()) => Ok(()),
            }
        }
    }
}

/// Keeps what is left then. A function of its own, so that the room of a draft is set only
/// there.
#[inline(never)]
fn keep_dropped<K: Kem, Q: Keeper<K>, D: Disk>(
    keeper: &mut Q,
    disk: &mut D,
    which: Which,
) -> Result<(), Call>
    requires fits { HasToDrop (Q.keeping.kept keeper.old) which }
    requires effect { has_effect (Dropped which) ≡ true }
    requires open { IsKeeperOpen Q.keeping keeper.old (D.state disk.old) }
    ensures { IsKeeperAct Q.keeping D.state
        (act_on K.mechanism (Q.keeping.kept keeper.old) (dropping which))
        keeper.old keeper.new disk.old disk.new (kept_as (Dropped which) result) }
{
    keep::<K, Q, D>(keeper, disk, Draft::Dropped(which))
}
