//! A row in memory: its name, its record, and the pages that it dropped when it was staged.

ghost use Rattle.std.specs.Prelude.{◌≡◌, ◌<◌, [], ℕ, true, All, None, Some, List, IfOk, OnOk, length, take, vec_capacity};
ghost use Rattle.dr_disk.specs.declared.call.Call.TheVariants.{Write};
ghost use Rattle.dr_disk.specs.State.{OnSeen};
ghost use Rattle.pages.specs.Layouts.{IsSound};
ghost use Rattle.pages.specs.Runs.{Makes, only};
ghost use Rattle.pages.specs.Snapshots.{Snapshot};
ghost use Rattle.pages.specs.Writing.{AreBeside, AreUnnamed, Stages};
ghost use Rattle.record_pages.specs.Pages.{pages_in};
ghost use Rattle.paged_records.specs.Bounded.{HasRecordMemory, HasText};
ghost use Rattle.book_store.specs.Kept.{AreOwnNumbers, HasStagingRoom, IsReplacedBy, IsRowRecord, row_bounds, row_free, row_fresh, row_writes, text_of};
ghost use Rattle.book_store.specs.Layout.{book_layout};
ghost use Rattle.book_store.specs.Rows.{book_names, row_in, row_names, row_text, with_row_in};
ghost use Rattle.relay_wire.specs.Names.{is_name};
ghost use Rattle.book_store.specs.declared.layout.TheConstants.{BOOK_ROWS, ROW_MOST};

use crate::desk::Desk;
use crate::layout::{BOOK_ROWS, ROW_MOST};
use crate::record::{row_bounds, stage_record};
use dr_disk::{Call, Disk};
use paged_records::{Draft, Kept};
use relay_wire::Name;
use std::alloc::{AllocError, Global};
use std::mem::swap;

/// A row's name, if it is present, its record, which is empty if it isn't, and the numbers of the
/// pages that it dropped when it was staged last.
#[derive(Drop)]
pub(crate) struct HeldRow {
    pub(crate) name: Option<Name>,
    pub(crate) kept: Kept,
    pub(crate) dropped: Vec<u32>,
    ghost record: { IsRowRecord kept },
    ghost none: { name ≡ None → kept.len ≡ 0 },
    ghost gone: { AreOwnNumbers dropped.items },
    ghost room: { ROW_MOST < vec_capacity dropped },
}

/// All rows of a book, absent, with room for their records.
pub(crate) fn absent_rows(alloc: Global) -> Result<Vec<HeldRow>, AllocError>
    ensures long { IfOk result (λ rows. length rows.items ≡ BOOK_ROWS) }
    ensures absent { IfOk result (λ rows. All (λ row. row.name ≡ None) rows.items) }
{
    let mut rows = Vec::with_capacity(alloc, BOOK_ROWS as usize)?;
    'rows: for i in 0..BOOK_ROWS {
        rows.push(HeldRow::absent(alloc)?)?;
    }
    Ok(rows)
}

impl HeldRow {
    ghost use Rattle.book_store.specs.Desk.{IsWithBody, KeepsOthers, StandsStaged, holding};

    /// An absent row, with room for a record.
    pub(crate) fn absent(alloc: Global) -> Result<HeldRow, AllocError>
        ensures { IfOk result (λ row. row.name ≡ None) }
    {
        Ok(HeldRow {
            name: None,
            kept: Kept::none(alloc, row_bounds())?,
            dropped: Vec::with_capacity(alloc, ROW_MOST as usize + 1)?,
        })
    }

    /// Stages a row under a name with a text.
    pub(crate) fn stage<D: Disk>(
        &mut self,
        desk: &mut Desk,
        disk: &mut D,
        row: usize,
        name: Name,
        draft: &mut Draft,
        fresh: &mut Vec<u32>,
        text: &mut Vec<u8>,
        len: usize,
    ) -> Result<(), Call>
        requires row { row < desk.old.rows }
        requires text { HasText row_bounds text.old len }
        requires rooms { HasStagingRoom draft.old fresh.old }
        requires sound { IsSound (book_layout desk.old.rows) (D.state disk.old).size }
        requires free { AreUnnamed book_names (book_layout desk.old.rows)
            (row_free row self.old.kept) (D.state disk.old) }

        // The disk, and the table to come.
        ensures staged { (was : Snapshot) (held : ℕ → List (List ℕ))
            → StandsStaged desk.old.rows desk.old.second desk.old.turn desk.old.body.items was held
            (D.state disk.old)
            → AreBeside book_names (book_layout desk.old.rows) (row_free row self.old.kept) was
            → row_names (row_in desk.old.body.items row) ≡ self.old.kept.numbers.items
            → held row ≡ pages_in (text_of self.old.kept)
            → OnOk result (StandsStaged desk.new.rows desk.new.second desk.new.turn
            desk.new.body.items was (holding held row (pages_in (take len text.old.items)))
            (D.state disk.new)) }
        ensures next { IsWithBody desk.old desk.new (with_row_in desk.old.body.items row
            (row_text name len self.new.kept.numbers.items)) }

        // What was written.
        ensures stages { Stages book_names (book_layout desk.old.rows)
            (row_fresh row self.old.kept (take len text.old.items))
            (D.state disk.old) (D.state disk.new) }
        ensures rest { OnOk result (OnSeen (KeepsOthers desk.old.rows
            (row_fresh row self.old.kept (take len text.old.items))
            (D.state disk.old)) (D.state disk.new)) }
        ensures makes { Makes (row_writes self.old.kept (take len text.old.items)) (only Write)
            (D.state disk.old) (D.state disk.new) result }

        // The row in memory, and the rooms.
        ensures lawful { is_name name ≡ true }
        ensures name { self.new.name ≡ Some name }
        ensures replaced { IsReplacedBy self.old.kept self.new.kept (take len text.old.items)
            self.new.dropped.items }
        ensures rooms { HasStagingRoom draft.new fresh.new }
        ensures room { HasRecordMemory row_bounds text.new }
    {
        let done = stage_record(
            desk,
            disk,
            row,
            name.bytes(),
            &mut self.kept,
            draft,
            fresh,
            text,
            len,
        );
        swap(&mut self.dropped, &mut draft.plan.dropped);
        self.name = Some(name);
        done
    }

    /// Makes a row absent in memory.
    pub(crate) fn clear(&mut self)
        ensures name { self.new.name ≡ None }
        ensures numbers { self.new.kept.numbers.items ≡ [] }
        ensures dropped { self.new.dropped.items ≡ self.old.kept.numbers.items }
    {
        let HeldRow {
            name,
            kept,
            dropped,
        } = self;
        dropped.clear();
        dropped.extend_from_slice(&kept.numbers).unwrap();
        *name = None;
        kept.len = 0;
        kept.numbers.clear();
    }
}
