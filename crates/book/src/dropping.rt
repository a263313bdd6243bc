//! Items leave a box under a name.

ghost use Rattle.std.specs.Prelude.{◌≡◌};
ghost use Rattle.dr_model.specs.Machines.Acts.{dropping};
ghost use Rattle.session_model.specs.declared.answer.Answer.TheVariants.{Dropped};
ghost use Rattle.session_model.specs.declared.answer.Items.TheVariants.{Packets, Texts};
ghost use Rattle.session_model.specs.declared.answer.Which.TheVariants.{Oldest};
ghost use Rattle.client.specs.Outcomes.{dropped_as};
ghost use Rattle.book.specs.Books.{MayBookAct};
ghost use Rattle.book.specs.Calling.{IsCallOn, RowDrops, row_in};
ghost use Rattle.book.specs.Stepping.{DropsAsStep};

use crate::book::Book;
use crate::refusals::BookRefusal;
use crate::shelf::Shelf;
use client::{DropRefusal, Keeper, drop_items};
use dr_disk::Disk;
use kem_laws::Kem;
use session_model::{Items, Which};

impl<K: Kem> Book<K> {
    /// Drops the `n` oldest texts of the inbox of a name's session, as `Client::done` does. Refuses
    /// as `say` does.
    pub fn done<D: Disk>(
        &mut self,
        disk: &mut D,
        name: &str,
        n: u32,
    ) -> Result<(), BookRefusal<DropRefusal>>
        requires { MayBookAct self.old (D.state disk.old) }
        ensures answers { IsCallOn self.old name.now
            ((self.new ≡ self.old) × (disk.new ≡ disk.old))
            (λ at. RowDrops D.state K.mechanism (dropping (Oldest Texts n))
            (dropped_as (Dropped (Oldest Texts n)))
            (row_in self.old at) (row_in self.new at) disk.old disk.new) result }
        ensures steps { DropsAsStep K.mechanism (Oldest Texts n) name.now self.old self.new result }
    {
        self.drop_items(disk, name, Which::Oldest(Items::Texts, n))
    }

    /// Drops the `n` oldest packets of the outbox of a name's session, as `Client::sent` does.
    /// Refuses as `say` does.
    pub fn sent<D: Disk>(
        &mut self,
        disk: &mut D,
        name: &str,
        n: u32,
    ) -> Result<(), BookRefusal<DropRefusal>>
        requires { MayBookAct self.old (D.state disk.old) }
        ensures answers { IsCallOn self.old name.now
            ((self.new ≡ self.old) × (disk.new ≡ disk.old))
            (λ at. RowDrops D.state K.mechanism (dropping (Oldest Packets n))
            (dropped_as (Dropped (Oldest Packets n)))
            (row_in self.old at) (row_in self.new at) disk.old disk.new) result }
        ensures steps { DropsAsStep K.mechanism (Oldest Packets n) name.now self.old self.new result }
    {
        self.drop_items(disk, name, Which::Oldest(Items::Packets, n))
    }

    /// Drops items of a box, as `done` and `sent` do.
    pub fn drop_items<D: Disk>(
        &mut self,
        disk: &mut D,
        name: &str,
        which: Which,
    ) -> Result<(), BookRefusal<DropRefusal>>
        requires { MayBookAct self.old (D.state disk.old) }
        ensures answers { IsCallOn self.old name.now
            ((self.new ≡ self.old) × (disk.new ≡ disk.old))
            (λ at. RowDrops D.state K.mechanism (dropping which) (dropped_as (Dropped which))
            (row_in self.old at) (row_in self.new at) disk.old disk.new) result }
        ensures steps { DropsAsStep K.mechanism which name.now self.old self.new result }
    {
        if let Some(call) = self.shelf.closed() {
            return Err(BookRefusal::Closed { call });
        }
        let Some(at) = self.shelf.place(name) else {
            return Err(BookRefusal::NoName);
        };
        self.shelf.use_row(at);
        match drop_items::<K, Shelf<K>, D>(&mut self.shelf, disk, which) {
            Ok(()) => return Ok(()),
            Err(refusal) => return Err(BookRefusal::Of(refusal)),
        }
    }
}
