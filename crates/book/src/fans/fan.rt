//! A text is said in all sessions of a fan.

ghost use Rattle.book.specs.Books.{MayBookAct};
ghost use Rattle.book.specs.Fanning.{FansIn};
ghost use Rattle.book.specs.Fans.{AreListed};

use super::asking::Seeds;
use super::list::FanOut;
use crate::book::Book;
use crate::refusals::FanRefusal;
use client::Keeper;
use dr_disk::Disk;
use dr_ports::Draws;
use kem_laws::Kem;

impl<K: Kem> Book<K> {
    /// Says one text in all sessions of a fan, or in none: after a crash at any moment all of them
    /// have said it, or none has, and all other rows are as they were. The fan's sessions are those
    /// of this book as it stands.
    ///
    /// `Closed` exactly where a call on the disk failed before, then `Nobody` exactly where the fan
    /// has no session, then `Peer` with the first of them that refuses the text, by its place from
    /// 0, and its refusal. None of these changes anything or calls the disk; what was drawn for the
    /// sessions before is used up. A `StoreFault` closes the book, which shows what it showed. No
    /// memory is taken.
    pub fn fan<D: Disk, W: Draws>(
        &mut self,
        disk: &mut D,
        list: &FanOut,
        text: &[u8],
        draws: &mut W,
    ) -> Result<(), FanRefusal>
        requires may { MayBookAct self.old (D.state disk.old) }
        requires listed { AreListed self.old.rows list.now }
        ensures { FansIn D.state W.at K.mechanism text.now list.now self.old self.new
            disk.old disk.new draws.old draws.new result }
    {
        if let Some(call) = self.shelf.closed() {
            return Err(FanRefusal::Closed { call });
        }
        if list.is_empty() {
            return Err(FanRefusal::Nobody);
        }
        list.is_fair();
        let mut seeds = Seeds::new();
        match self.shelf.ask_all(list, text, draws, &mut seeds) {
            Ok(()) => {}
            Err(refusal) => return Err(refusal),
        }
        match self.shelf.fan_out(disk, list, text, &seeds) {
            Ok(()) => return Ok(()),
            Err(fault) => return Err(FanRefusal::StoreFault { call: fault.call }),
        }
    }
}
