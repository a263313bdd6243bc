//! A book's rows change: they are staged, one after the other, committed all at once, and then what
//! they replaced is retired.

ghost use Rattle.std.specs.Prelude.{◌≡◌, ◌<◌, List, Option, OnOk, length, take};
ghost use Rattle.dr_disk.specs.Called.{Called};
ghost use Rattle.dr_disk.specs.Spans.{Span};
ghost use Rattle.dr_disk.specs.State.{Always};
ghost use Rattle.dr_disk.specs.declared.call.Call.TheVariants.{Write};
ghost use Rattle.pages.specs.Runs.{FailsBy, only};
ghost use Rattle.pages.specs.Stops.{put_call, puts, retire_call};
ghost use Rattle.paged_records.specs.Bounded.{HasRecordMemory, HasText};
ghost use Rattle.book_store.specs.AtRest.{IsBookMarked};
ghost use Rattle.book_store.specs.Committing.{CommitsRows, HasRetired, KeepsRows, ReadsOutsideBook, StagesRow, call_of};
ghost use Rattle.book_store.specs.Kept.{row_bounds};
ghost use Rattle.book_store.specs.Layout.{HasBook};
ghost use Rattle.book_store.specs.Shown.{BookRow};
ghost use Rattle.book_store.specs.Staging.{AwaitsRetire, IsStagedOver, MayStage};
ghost use Rattle.book_store.specs.Store.{IsNewName, IsUnstaged, all_drops, committed, retire_calls, retired, with_row, without_row, writes_at};

use crate::errors::StoreFault;
use crate::gathering::gather;
use crate::store::BookStore;
use dr_disk::Disk;
use relay_wire::Name;

impl BookStore {
    /// Stages a row: under this name it is to have the first `len` bytes of a text, and what of
    /// them changes is written. The text's room is taken over with it, and the room of the record
    /// before is handed back. Until a commit each crash leaves the rows that stand.
    pub fn stage<D: Disk>(
        &mut self,
        disk: &mut D,
        row: usize,
        name: Name,
        text: &mut Vec<u8>,
        len: usize,
    ) -> Result<(), StoreFault>
        requires row { row < self.old.rows }
        requires once { IsUnstaged self.old row }
        requires name { IsNewName self.old row name }
        requires text { HasText row_bounds text.old len }
        requires may { MayStage self.old (D.state disk.old) }

        // What the store holds now, whether or not a call failed; and what the disk stands for.
        ensures next { self.new ≡ with_row self.old row name (take len text.old.items) }
        ensures stages { (standing : List (Option BookRow))
            → IsStagedOver self.old standing (D.state disk.old)
            → StagesRow self.new standing (D.state disk.old) (D.state disk.new) result }
        ensures reads { ReadsOutsideBook self.old.rows (D.state disk.old) (D.state disk.new) }
        ensures room { HasRecordMemory row_bounds text.new }

        // How the calls went.
        ensures calls { Called (writes_at self.old row (take len text.old.items)) call_of
            (D.state disk.old) (D.state disk.new) result }
        ensures kind { FailsBy call_of (only Write) (D.state disk.old) (D.state disk.new) result }
    {
        let _size = disk.size();
        let held = &mut self.rows[row];
        let done = held.stage(
            &mut self.desk,
            disk,
            row,
            name,
            &mut self.draft,
            &mut self.fresh,
            text,
            len,
        );
        self.staged[row] = true;
        match done {
            Ok(()) => {}
            Err(call) => return Err(StoreFault { call }),
        }
        Ok(())
    }

    /// Stages that a row is absent. No call on the disk is made.
    pub fn stage_empty(&mut self, row: usize)
        requires row { row < self.old.rows }
        requires once { IsUnstaged self.old row }
        ensures { self.new ≡ without_row self.old row }
    {
        let held = &mut self.rows[row];
        held.clear();
        self.desk.stage_empty(row);
        self.staged[row] = true;
    }

    /// Commits: all rows that were staged take the place of those that stand, or none does.
    pub fn commit<D: Disk>(&mut self, disk: &mut D) -> Result<(), StoreFault>
        requires may { MayStage self.old (D.state disk.old) }
        ensures next { self.new ≡ committed self.old }
        ensures marked { IsBookMarked self.new.rows self.new.mark self.new.held }
        ensures commits { (standing : List (Option BookRow))
            → IsStagedOver self.old standing (D.state disk.old)
            → CommitsRows self.new standing (D.state disk.old) (D.state disk.new) result }
        ensures reads { ReadsOutsideBook self.old.rows (D.state disk.old) (D.state disk.new) }

        // How the calls went.
        ensures calls { Called (puts 0) call_of (D.state disk.old) (D.state disk.new) result }
        ensures kind { FailsBy call_of (put_call 0) (D.state disk.old) (D.state disk.new) result }
    {
        let _size = disk.size();
        self.replaced = self.desk.turn != 0;
        match self.desk.commit(disk) {
            Ok(()) => {}
            Err(call) => return Err(StoreFault { call }),
        }
        Ok(())
    }

    /// Closes the table that was replaced, if there is one, and wipes it and the pages that it
    /// alone names. It is called once after each commit.
    pub fn retire<D: Disk>(&mut self, disk: &mut D) -> Result<(), StoreFault>
        requires within { HasBook self.old.rows (D.state disk.old) }
        requires awaits { Always (AwaitsRetire self.old) (D.state disk.old) }
        ensures next { self.new ≡ retired self.old }

        // Each crash meanwhile leaves the store's rows; once it is done, the book is at rest.
        ensures any_moment { Span (D.state disk.old) (D.state disk.new)
            (KeepsRows self.old.rows self.old.held (D.state disk.old)) }
        ensures at_rest { OnOk result (Always (HasRetired self.new (D.state disk.old))
            (D.state disk.new)) }
        ensures reads { ReadsOutsideBook self.old.rows (D.state disk.old) (D.state disk.new) }

        // How the calls went.
        ensures calls { Called (retire_calls self.old) call_of
            (D.state disk.old) (D.state disk.new) result }
        ensures kind { FailsBy call_of (retire_call (length (all_drops self.old)))
            (D.state disk.old) (D.state disk.new) result }
    {
        gather(self.desk.rows, &self.rows, &self.staged, &mut self.dropped);
        self.staged.fill(false);
        if !self.replaced {
            return Ok(());
        }
        let _size = disk.size();
        match self.desk.retire(disk, &self.dropped, &self.zeros) {
            Ok(()) => {}
            Err(call) => return Err(StoreFault { call }),
        }
        Ok(())
    }
}
