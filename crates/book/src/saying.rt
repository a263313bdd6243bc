//! Texts are said under a name.

ghost use Rattle.std.specs.Prelude.{◌≡◌};
ghost use Rattle.book.specs.Books.{MayBookAct};
ghost use Rattle.book.specs.Calling.{IsCallOn, RowSays, row_in};
ghost use Rattle.book.specs.Stepping.{SaysAsStep};

use crate::book::Book;
use crate::refusals::BookRefusal;
use crate::shelf::Shelf;
use boxes::TEXT_KIND;
use client::{Keeper, SayRefusal, say};
use dr_base::Position;
use dr_disk::Disk;
use dr_ports::Draws;
use kem_laws::Kem;

impl<K: Kem> Book<K> {
    /// Says a text in the session of a name, as `Client::say` does. `Closed` exactly where a call
    /// on the disk failed before, in whichever session, then `NoName` exactly where no row has the
    /// name: neither changes anything, draws or calls the disk. A `StoreFault` closes the book,
    /// which shows what it showed. All other rows stay.
    pub fn say<D: Disk, W: Draws>(
        &mut self,
        disk: &mut D,
        name: &str,
        text: &[u8],
        draws: &mut W,
    ) -> Result<Position, BookRefusal<SayRefusal>>
        requires { MayBookAct self.old (D.state disk.old) }
        // Who answers, and all that the row's session and its disk do.
        ensures answers { IsCallOn self.old name.now
            ((self.new ≡ self.old) × (disk.new ≡ disk.old) × (draws.new ≡ draws.old))
            (λ at. RowSays D.state W.at K.mechanism text.now (row_in self.old at)
            (row_in self.new at) disk.old disk.new draws.old draws.new) result }
        // It is a step of the machine of named rows, unless a draw failed.
        ensures steps { SaysAsStep W.at K.mechanism text.now name.now self.old self.new
            draws.old draws.new result }
    {
        if let Some(call) = self.shelf.closed() {
            return Err(BookRefusal::Closed { call });
        }
        let Some(at) = self.shelf.place(name) else {
            return Err(BookRefusal::NoName);
        };
        self.shelf.use_row(at);
        match say::<K, Shelf<K>, D, W>(&mut self.shelf, disk, TEXT_KIND, text, draws) {
            Ok(position) => return Ok(position),
            Err(refusal) => return Err(BookRefusal::Of(refusal)),
        }
    }
}
