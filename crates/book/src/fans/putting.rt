//! The records of a fan's sessions are staged and committed, and then the sessions say the text.

ghost use Rattle.std.specs.Prelude.{◌≡◌, ◌<◌, ◌≤◌, List, Option, is_some, length, slice_set, true};
ghost use Rattle.book_store.specs.Committing.{ReadsOutsideBook, StagesRow, call_of};
ghost use Rattle.book_store.specs.Shown.{BookRow};
ghost use Rattle.book_store.specs.Staging.{IsStagedOver, MayStage};
ghost use Rattle.book_store.specs.Store.{IsNewName, IsUnstaged};
ghost use Rattle.book_store.specs.declared.layout.TheConstants.{BOOK_ROWS};
ghost use Rattle.dr_disk.specs.Called.{Called};
ghost use Rattle.dr_disk.specs.declared.call.Call.TheVariants.{Write};
ghost use Rattle.pages.specs.Runs.{FailsBy, only};
ghost use Rattle.book.specs.Books.{IsBookOpen, IsBookReady, IsStoreReady};
ghost use Rattle.book.specs.Changing.{TakesPlaceOf};
ghost use Rattle.book.specs.Fanning.{FansOut};
ghost use Rattle.book.specs.Fans.{AllSay, Says, fan_of, fanned_rows, said_row, said_writes, staged_said};
ghost use Rattle.book.specs.Putting.{PutsFan, StagesFan, closed_by, with_rows, with_store};
ghost use Rattle.book.specs.RowKeepings.{kept_of, known_name, name_of, row_at};

use super::asking::{Seeds, seed_at};
use super::list::FanOut;
use super::rows::{accept_said, stage_said};
use crate::shelf::Shelf;
use crate::storing::settle;
use book_store::{StoreFault, resting_books};
use dr_base::Key32;
use dr_disk::{Call, Disk};
use kem_laws::Kem;

impl<K: Kem> Shelf<K> {
    /// Stages the record that a row's session has once it said a text with this seed, as it may.
    fn stage_at<D: Disk>(
        &mut self,
        disk: &mut D,
        at: usize,
        text: &[u8],
        seed: Option<Key32>,
    ) -> Result<(), StoreFault>
        requires there { is_some (row_at self.old.book.rows at) ≡ true }
        requires says { Says K.mechanism text.now (kept_of (row_at self.old.book.rows at)) seed }
        requires inside { at < self.old.book.store.rows }
        requires once { IsUnstaged self.old.book.store at }
        requires name { IsNewName self.old.book.store at
            (known_name (name_of (row_at self.old.book.rows at))) }
        requires may { MayStage self.old.book.store (D.state disk.old) }
        ensures next { self.new ≡ with_store self.old (staged_said K.mechanism text.now seed
            (row_at self.old.book.rows at) at self.old.book.store) }
        ensures stages { (standing : List (Option BookRow))
            → IsStagedOver self.old.book.store standing (D.state disk.old)
            → StagesRow self.new.book.store standing (D.state disk.old) (D.state disk.new) result }
        ensures reads { ReadsOutsideBook self.old.book.store.rows
            (D.state disk.old) (D.state disk.new) }
        ensures calls { Called (said_writes K.mechanism text.now seed
            (row_at self.old.book.rows at) at self.old.book.store) call_of
            (D.state disk.old) (D.state disk.new) result }
        ensures kind { FailsBy call_of (only Write) (D.state disk.old) (D.state disk.new) result }
    {
        match &mut self.rows[at] {
            Some(row) => stage_said(row, at, text, seed, &mut self.store, &mut self.text, disk),
            None => unreachable!(),
        }
    }

    /// A row's session says a text, which it may, with this seed.
    fn accept_at(&mut self, at: usize, text: &[u8], seed: Option<Key32>)
        requires there { is_some (row_at self.old.book.rows at) ≡ true }
        requires says { Says K.mechanism text.now (kept_of (row_at self.old.book.rows at)) seed }
        ensures { self.new ≡ with_rows self.old (slice_set self.old.book.rows at
            (said_row K.mechanism text.now seed (row_at self.old.book.rows at))) }
    {
        match &mut self.rows[at] {
            Some(row) => accept_said(row, text, seed),
            None => unreachable!(),
        }
    }

    /// Over a book at rest rows may be staged. A caller that needs this calls it.
    fn may_stage<D: Disk>(&self, disk: &D)
        requires { IsStoreReady self.now.book.store (D.state disk.now) }
        ensures { IsStagedOver self.now.book.store self.now.book.store.held (D.state disk.now) }
    {
        self.store.may_stage(disk);
    }

    /// Stages the records that all sessions of a list have once they said a text with these seeds.
    fn stage_fan<D: Disk>(
        &mut self,
        disk: &mut D,
        list: &FanOut,
        text: &[u8],
        seeds: &Seeds,
    ) -> Result<(), StoreFault>
        requires say { AllSay K.mechanism
            (fan_of self.old.book.rows list.now text.now seeds.now.items) }
        requires ready { IsBookReady self.old.book (D.state disk.old) }
        ensures { StagesFan K.mechanism
            (fan_of self.old.book.rows list.now text.now seeds.now.items)
            self.old self.new (D.state disk.old) (D.state disk.new) result }
    {
        resting_books();
        self.may_stage(disk);
        'list: for i in 0..list.len() {
            match self.stage_at(disk, list.place(i), text, seed_at(seeds, i)) {
                Ok(()) => {}
                Err(fault) => return Err(fault),
            }
        }
        Ok(())
    }

    /// All sessions of a list say a text with these seeds.
    fn accept_fan(&mut self, list: &FanOut, text: &[u8], seeds: &Seeds)
        requires { AllSay K.mechanism
            (fan_of self.old.book.rows list.now text.now seeds.now.items) }
        ensures { self.new ≡ with_rows self.old (fanned_rows K.mechanism
            (fan_of self.old.book.rows list.now text.now seeds.now.items) (length list.now)) }
    {
        'list: for i in 0..list.len() {
            self.accept_at(list.place(i), text, seed_at(seeds, i));
        }
    }

    /// Commits what is staged, and retires what it takes the place of.
    fn settle_fan<D: Disk>(&mut self, disk: &mut D) -> Result<(), StoreFault>
        requires few { self.old.book.store.rows ≤ BOOK_ROWS }
        requires may { MayStage self.old.book.store (D.state disk.old) }
        ensures takes { (standing : List (Option BookRow))
            → IsStagedOver self.old.book.store standing (D.state disk.old)
            → TakesPlaceOf 0 self.old.book.store self.new.book.store standing
            (D.state disk.old) (D.state disk.new) result }
        ensures same { self.new ≡ with_store self.old self.new.book.store }
    {
        settle(&mut self.store, disk)
    }

    /// Puts the records that all sessions of a list have once they said a text with these seeds,
    /// in one commit.
    fn put_fan<D: Disk>(
        &mut self,
        disk: &mut D,
        list: &FanOut,
        text: &[u8],
        seeds: &Seeds,
    ) -> Result<(), StoreFault>
        requires say { AllSay K.mechanism
            (fan_of self.old.book.rows list.now text.now seeds.now.items) }
        requires ready { IsBookReady self.old.book (D.state disk.old) }
        ensures { PutsFan K.mechanism
            (fan_of self.old.book.rows list.now text.now seeds.now.items)
            self.old self.new (D.state disk.old) (D.state disk.new) result }
    {
        match self.stage_fan(disk, list, text, seeds) {
            Ok(()) => {}
            Err(fault) => return Err(fault),
        }
        self.settle_fan(disk)
    }

    /// All sessions of a list say a text with these seeds. A call on the disk that fails closes the
    /// book, and then none of them said it.
    pub(super) fn fan_out<D: Disk>(
        &mut self,
        disk: &mut D,
        list: &FanOut,
        text: &[u8],
        seeds: &Seeds,
    ) -> Result<(), StoreFault>
        requires say { AllSay K.mechanism
            (fan_of self.old.book.rows list.now text.now seeds.now.items) }
        requires open { IsBookOpen self.old.book (D.state disk.old) }
        ensures { FansOut K.mechanism
            (fan_of self.old.book.rows list.now text.now seeds.now.items)
            self.old.book self.new.book (D.state disk.old) (D.state disk.new) result }
    {
        match self.put_fan(disk, list, text, seeds) {
            Ok(()) => {
                self.accept_fan(list, text, seeds);
                return Ok(());
            }
            Err(fault) => {
                self.close(fault.call);
                return Err(fault);
            }
        }
    }

    /// Closes the book, since a call on the disk failed, of this kind.
    fn close(&mut self, call: Call)
        ensures { self.new ≡ closed_by self.old call }
    {
        self.closed = Some(call);
    }
}
