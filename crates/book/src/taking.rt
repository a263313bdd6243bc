//! Packets are taken under a name.

ghost use Rattle.std.specs.Prelude.{◌≡◌};
ghost use Rattle.book.specs.Books.{MayBookAct};
ghost use Rattle.book.specs.Calling.{IsCallOn, RowTakes, row_in};
ghost use Rattle.book.specs.Stepping.{TakesAsStep};

use crate::book::Book;
use crate::refusals::BookRefusal;
use crate::shelf::Shelf;
use client::{Keeper, TakeRefusal, take};
use dr_base::Position;
use dr_disk::Disk;
use kem_laws::Kem;

impl<K: Kem> Book<K> {
    /// Opens the packet that the bytes are in the session of a name, as `Client::take` does.
    /// Refuses as `say` does.
    pub fn take<D: Disk>(
        &mut self,
        disk: &mut D,
        name: &str,
        packet: &[u8],
    ) -> Result<Position, BookRefusal<TakeRefusal>>
        requires { MayBookAct self.old (D.state disk.old) }
        // Who answers, and all that the row's session and its disk do.
        ensures answers { IsCallOn self.old name.now
            ((self.new ≡ self.old) × (disk.new ≡ disk.old))
            (λ at. RowTakes D.state K.mechanism packet.now (row_in self.old at)
            (row_in self.new at) disk.old disk.new) result }
        // It is a step of the machine of named rows.
        ensures steps { TakesAsStep K.mechanism packet.now name.now self.old self.new result }
    {
        if let Some(call) = self.shelf.closed() {
            return Err(BookRefusal::Closed { call });
        }
        let Some(at) = self.shelf.place(name) else {
            return Err(BookRefusal::NoName);
        };
        self.shelf.use_row(at);
        match take::<K, Shelf<K>, D>(&mut self.shelf, disk, packet) {
            Ok(position) => return Ok(position),
            Err(refusal) => return Err(BookRefusal::Of(refusal)),
        }
    }
}
