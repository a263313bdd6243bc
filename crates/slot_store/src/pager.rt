//! A record in memory, and its way to the disk: what changes of it is put into pages that it
//! doesn't name, then the table that names them, and then the old table is wiped with the pages
//! that it alone names.

ghost use Rattle.std.specs.Prelude.{◌≡◌, ◌≤◌, ◌*◌, [], length, take, vec_capacity, None, Option, OnOk};
ghost use Rattle.dr_base.specs.declared.limits.TheConstants.{PAGE};
ghost use Rattle.dr_disk.specs.State.{Always};
ghost use Rattle.dr_disk.specs.Spans.{Span};
ghost use Rattle.dr_disk.specs.Called.{Called};
ghost use Rattle.record_pages.specs.Tables.{entry_fault};
ghost use Rattle.slot_store.specs.Areas.{HasRecordMemory, HasText, IsArea};
ghost use Rattle.slot_store.specs.Memory.{HasPlanRoom};
ghost use Rattle.pages.specs.Runs.{FailsBy};
ghost use Rattle.pages.specs.Stops.{put_call};
ghost use Rattle.slot_store.specs.Stops.{putting, writes_of};

use crate::area::{Area, bounds, layout};
use crate::errors::StoreFault;
use crate::table::RecordTable;
use dr_base::PAGE;
use dr_disk::Disk;
use paged_records::{Draft, Kept, replan};
use pages::next_turn;
use record_pages::lay_out_table;

/// The record of an area of a disk, with the memory that was taken at opening.
#[derive(Drop)]
pub(crate) struct Pager {
    pub(crate) area: Area,
    /// The current table is table 1.
    pub(crate) second: bool,
    /// The current table's turn, 1, 2 or 3; 0 where there is no record.
    pub(crate) turn: u8,
    pub(crate) kept: Kept,
    /// What the last put changed.
    pub(crate) draft: Draft,
    /// The last put replaced a record, which stands until it is retired.
    pub(crate) replaced: bool,
    ghost lawful: { IsArea area },
    ghost turns: { turn ≤ 3 },
    ghost none: { turn ≡ 0 → kept.len ≡ 0 },
    ghost few: { kept.len ≤ PAGE * area.most },
    ghost long: { HasRecordMemory area kept.bytes },
    ghost entries: { entry_fault 2 area.pages [] 6 kept.numbers.items ≡ None },
    ghost numbers: { area.most ≤ vec_capacity kept.numbers },
    ghost drops: { entry_fault 2 area.pages [] 6 draft.plan.dropped.items ≡ None },
    ghost room: { HasPlanRoom area draft },
}

impl Pager {
    ghost use Rattle.slot_store.specs.Pager.{content, IsLaidFor, Awaits};
    ghost use Rattle.slot_store.specs.Store.{HasArea, ReadsOutsideArea};
    ghost use Rattle.slot_store.specs.Putting.{HasPut, HasRested, IsStaged, KeepsRecord, Replaces, call_of, retire_calls, retire_kind};
    ghost use Rattle.slot_store.specs.Kept.{content_or_empty};

    /// The record that was opened or put last; empty where there is none.
    pub(crate) fn content(&self) -> &[u8]
        ensures { result.now ≡ content_or_empty (content self.now) }
    {
        self.kept.text()
    }

    /// Puts a text in place of the record in memory: what is written, what is wiped, and the table
    /// that is to come.
    fn stage(&mut self, text: &mut Vec<u8>, len: usize)
        requires { HasText self.old.area text.old len }
        ensures staged { IsStaged self.old self.new (take len text.old.items) }
        ensures room { HasRecordMemory self.old.area text.new }
    {
        let turn = next_turn(self.turn);
        self.replaced = self.turn != 0;
        replan(
            bounds(self.area),
            &mut self.kept,
            &mut self.draft,
            text,
            len,
        );
        lay_out_table(&mut self.draft.body, turn, len as u32, &self.kept.numbers);
        self.turn = turn;
        self.second = !self.second;
    }

    /// Puts a record: what changes into pages that no table names, then the table that isn't
    /// current, behind a closed gate, and then the gate is opened.
    pub(crate) fn put<D: Disk>(
        &mut self,
        disk: &mut D,
        text: &mut Vec<u8>,
        len: usize,
    ) -> Result<(), StoreFault>
        requires text { HasText self.old.area text.old len }
        requires within { HasArea self.old.area (D.state disk.old) }
        requires at_rest { Always (IsLaidFor self.old) (D.state disk.old) }

        // Each crash meanwhile leaves the old record or the new, and after a call that failed it is
        // known which; once it is done, the new one.
        ensures replaces { Replaces self.old.area
            (content self.old) (Option.Some (take len text.old.items))
            (D.state disk.old) (D.state disk.new) result }
        ensures done { OnOk result (Always (HasPut self.old self.new (take len text.old.items)
            (D.state disk.old)) (D.state disk.new)) }
        ensures staged { IsStaged self.old self.new (take len text.old.items) }
        ensures room { HasRecordMemory self.old.area text.new }

        // How the calls went.
        ensures calls { Called
            (putting (content self.old) (Option.Some (take len text.old.items))) call_of
            (D.state disk.old) (D.state disk.new) result }
        ensures kind { FailsBy call_of
            (put_call (writes_of (content self.old) (Option.Some (take len text.old.items))))
            (D.state disk.old) (D.state disk.new) result }
    {
        let _size = disk.size();
        let was = self.second;
        self.stage(text, len);
        let pager = &*self;
        let fresh = &pager.draft.free[..pager.draft.plan.places.len()];
        match pages::put::<RecordTable, D>(
            disk,
            layout(pager.area),
            was,
            fresh,
            &pager.draft.plan.places,
            &pager.kept.bytes,
            &pager.draft.body,
        ) {
            Ok(()) => Ok(()),
            Err(call) => Err(StoreFault { call }),
        }
    }

    /// Closes the gate of the table whose record was replaced, if there is one, and wipes it and
    /// the pages that it alone names.
    pub(crate) fn retire<D: Disk>(&mut self, disk: &mut D) -> Result<(), StoreFault>
        requires within { HasArea self.old.area (D.state disk.old) }
        requires awaits { Always (Awaits self.old) (D.state disk.old) }

        // Each crash meanwhile leaves the record, read without damage; once it is done, the area is
        // at rest.
        ensures any_moment { Span (D.state disk.old) (D.state disk.new)
            (KeepsRecord self.old (D.state disk.old)) }
        ensures at_rest { OnOk result (Always (HasRested self.old self.new
            (D.state disk.old)) (D.state disk.new)) }
        ensures reads { ReadsOutsideArea self.old.area (D.state disk.old) (D.state disk.new) }
        ensures same { self.new ≡ self.old }

        // No image has another record where a call failed.
        ensures calls { Called (retire_calls self.old) call_of
            (D.state disk.old) (D.state disk.new) result }
        ensures kind { FailsBy call_of (retire_kind self.old)
            (D.state disk.old) (D.state disk.new) result }
    {
        if !self.replaced {
            return Ok(());
        }
        let _size = disk.size();
        let pager = &*self;
        match pages::retire::<RecordTable, D>(
            disk,
            layout(pager.area),
            pager.second,
            &pager.draft.plan.dropped,
            &pager.draft.zeros,
            &pager.draft.zeros[..PAGE - 1],
        ) {
            Ok(()) => Ok(()),
            Err(call) => Err(StoreFault { call }),
        }
    }
}
