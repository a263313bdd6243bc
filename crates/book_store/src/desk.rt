//! A book's table and its disk: rows are staged, one after the other, and one table is committed.
//! What each row's record is, and which of its pages change, is the concern of the callers.

ghost use Rattle.std.specs.Prelude.{◌≡◌, ◌≢◌, ◌+◌, ◌-◌, ◌*◌, ◌≤◌, ◌<◌, [], ℕ, true, All, IfOk, List, OnOk, length, not, replicate, slice_index, slice_set};
ghost use Rattle.dr_base.specs.declared.limits.TheConstants.{PAGE};
ghost use Rattle.dr_disk.specs.State.{Always, OnSeen};
ghost use Rattle.dr_disk.specs.Called.{itself};
ghost use Rattle.pages.specs.Commits.{TakesPlace};
ghost use Rattle.pages.specs.Layouts.{IsSound};
ghost use Rattle.pages.specs.Retiring.{IsNewest, IsOver, Retires};
ghost use Rattle.pages.specs.Runs.{FailsBy, Makes, RunsCalls, only};
ghost use Rattle.pages.specs.Snapshots.{Snapshot};
ghost use Rattle.pages.specs.Stops.{put_call, puts, retire_call, retires};
ghost use Rattle.pages.specs.Tables.{Table, turn_after};
ghost use Rattle.pages.specs.Writing.{AreFree, AreToWrite, Stages};
ghost use Rattle.dr_disk.specs.declared.call.Call.TheVariants.{Write};
ghost use Rattle.record_pages.specs.declared.limits.TheConstants.{NUMBER_LIMIT};
ghost use Rattle.record_pages.specs.Pages.{page_count};
ghost use Rattle.book_store.specs.Layout.{book_layout};
ghost use Rattle.book_store.specs.Rows.{absent_row, book_names, row_in, row_names, row_text, with_row_in};
ghost use Rattle.book_store.specs.declared.layout.TheConstants.{BOOK_ROWS, BOOK_TABLE, ROW_MOST};
ghost use Rattle.relay_wire.specs.declared.limits.TheConstants.{NAME_LIMIT};

use crate::layout::{BOOK_TABLE, book_layout};
use crate::table::{BookTable, blank_row, put_row};
use dr_base::PAGE;
use dr_disk::{Call, Disk};
use pages::{commit, retire, write_pages};
use std::alloc::{AllocError, Global};

/// The table to come after its gate, which table counts, and its turn.
#[derive(Drop)]
pub struct Desk {
    pub(crate) rows: u32,
    pub(crate) second: bool,
    pub(crate) turn: u8,
    pub(crate) body: Vec<u8>,
    ghost few: { rows ≤ BOOK_ROWS },
    ghost turns: { turn ≤ 3 },
    ghost long: { length body.items + 1 ≡ BOOK_TABLE },
}

/// The turn that follows.
fn next(turn: u8) -> u8
    requires { turn ≤ 3 }
    ensures next { result ≡ turn_after turn }
    ensures low { 1 ≤ result }
    ensures high { result ≤ 3 }
{
    if turn == 3 { 1 } else { turn + 1 }
}

/// Gives a table a turn.
fn set_turn(body: &mut [u8], turn: u8)
    requires { 1 ≤ length body.old }
    ensures turn { slice_index body.new 0 ≡ turn }
    ensures rows { (r : ℕ) → row_in body.new r ≡ row_in body.old r }
    ensures whole { body.new ≡ slice_set body.old 0 turn }
    ensures long { length body.new ≡ length body.old }
{
    body[0] = turn;
}

impl Desk {
    ghost use Rattle.book_store.specs.Desk.{IsRowPlan, IsWithBody, KeepsOthers, StandsStaged, book_shot, holding};

    /// For a disk on which no table is open: all rows are absent, and table 0 comes first, with
    /// turn 1.
    pub fn new(alloc: Global, rows: u32) -> Result<Desk, AllocError>
        requires { rows ≤ BOOK_ROWS }
        ensures rows { IfOk result (λ desk. desk.rows ≡ rows) }
        ensures second { IfOk result (λ desk. desk.second ≡ true) }
        ensures turn { IfOk result (λ desk. desk.turn ≡ 0) }
        ensures body { IfOk result (λ desk. desk.body.items ≡ replicate (BOOK_TABLE - 1) 0) }
    {
        Ok(Desk {
            rows,
            second: true,
            turn: 0,
            body: vec![in alloc; 0; BOOK_TABLE as usize - 1]?,
        })
    }

    /// Stages a row: writes pages of a text to these numbers of the book, which no open table
    /// names, and puts the row into the table to come.
    pub fn stage<D: Disk>(
        &mut self,
        disk: &mut D,
        row: usize,
        name: &[u8],
        len: u32,
        numbers: &[u32],
        fresh: &[u32],
        places: &[u32],
        pages: &[u8],
    ) -> Result<(), Call>
        requires row { row < BOOK_ROWS }
        requires named { length name.now ≤ NAME_LIMIT }
        requires few { length numbers.now ≤ ROW_MOST }
        requires small { All (λ n. n < NUMBER_LIMIT) numbers.now }
        requires each { length numbers.now ≡ page_count len }
        requires writes { AreToWrite book_names (book_layout self.old.rows) fresh.now places.now
            pages.now (D.state disk.old) }
        ensures stages { Stages book_names (book_layout self.old.rows) fresh.now
            (D.state disk.old) (D.state disk.new) }
        ensures makes { Makes (length fresh.now) (only Write)
            (D.state disk.old) (D.state disk.new) result }
        ensures staged { (was : Snapshot) (held : ℕ → List (List ℕ)) (next : List (List ℕ))
            → StandsStaged self.old.rows self.old.second self.old.turn self.old.body.items was held
            (D.state disk.old)
            → IsRowPlan self.old.rows row (row_names (row_in self.old.body.items row)) numbers.now
            fresh.now places.now pages.now was (held row) next
            → OnOk result (StandsStaged self.new.rows self.new.second self.new.turn
            self.new.body.items was (holding held row next) (D.state disk.new)) }
        ensures rest { OnOk result (OnSeen (KeepsOthers self.old.rows fresh.now
            (D.state disk.old)) (D.state disk.new)) }
        ensures next { IsWithBody self.old self.new
            (with_row_in self.old.body.items row (row_text name.now len numbers.now)) }
    {
        put_row(&mut self.body, row, name, len, numbers);
        match write_pages::<BookTable, D>(disk, book_layout(self.rows), fresh, places, pages) {
            Ok(()) => {}
            Err(call) => return Err(call),
        }
        Ok(())
    }

    /// Stages that a row is absent. No call on the disk is made.
    pub fn stage_empty(&mut self, row: usize)
        requires { row < BOOK_ROWS }
        ensures next { IsWithBody self.old self.new
            (with_row_in self.old.body.items row absent_row) }
        ensures others { (r : ℕ) → r ≢ row
            → row_in self.new.body.items r ≡ row_in self.old.body.items r }
        ensures none { row_names (row_in self.new.body.items row) ≡ [] }
    {
        blank_row(&mut self.body, row);
    }

    /// Commits the table to come: all rows that were staged take the place of what they were, or
    /// none does.
    pub fn commit<D: Disk>(&mut self, disk: &mut D) -> Result<(), Call>
        requires sound { IsSound (book_layout self.old.rows) (D.state disk.old).size }
        ensures takes_place { (was : Snapshot) (held : ℕ → List (List ℕ))
            → StandsStaged self.old.rows self.old.second self.old.turn self.old.body.items was held
            (D.state disk.old)
            → TakesPlace book_names (book_layout self.old.rows) [] was
            (book_shot was self.new.body.items held) (D.state disk.old) (D.state disk.new) result }
        ensures runs { RunsCalls (book_layout self.old.rows) (puts 0)
            (D.state disk.old) (D.state disk.new) result }
        ensures kind { FailsBy itself (put_call 0) (D.state disk.old) (D.state disk.new) result }
        ensures rows { self.new.rows ≡ self.old.rows }
        ensures second { self.new.second ≡ not self.old.second }
        ensures turn { self.new.turn ≡ turn_after self.old.turn }
        ensures body { self.new.body.items
            ≡ slice_set self.old.body.items 0 (turn_after self.old.turn) }
    {
        let was = self.second;
        let turn = next(self.turn);
        set_turn(&mut self.body, turn);
        self.turn = turn;
        self.second = !was;
        match commit::<BookTable, D>(disk, book_layout(self.rows), was, &self.body) {
            Ok(()) => Ok(()),
            Err(call) => Err(call),
        }
    }

    /// Closes the table that doesn't count, and wipes it and these pages, which it alone names. It
    /// is called after a commit.
    pub fn retire<D: Disk>(&self, disk: &mut D, dropped: &[u32], zeros: &[u8]) -> Result<(), Call>
        requires free { AreFree book_names (book_layout self.now.rows) dropped.now
            (D.state disk.old) }
        requires newest { Always (IsNewest (book_layout self.now.rows) self.now.second)
            (D.state disk.old) }
        requires zero { zeros.now ≡ replicate (BOOK_TABLE - 1) 0 }
        ensures retires { (table : Table) (pages : List (List ℕ))
            → IsOver book_names (book_layout self.now.rows) self.now.second dropped.now table pages
            (D.state disk.old)
            → Retires book_names (book_layout self.now.rows) dropped.now
            (record { second = self.now.second; table = table; pages = pages })
            (D.state disk.old) (D.state disk.new) result }
        ensures runs { RunsCalls (book_layout self.now.rows) (retires (length dropped.now))
            (D.state disk.old) (D.state disk.new) result }
        ensures kind { FailsBy itself (retire_call (length dropped.now))
            (D.state disk.old) (D.state disk.new) result }
    {
        match retire::<BookTable, D>(
            disk,
            book_layout(self.rows),
            self.second,
            dropped,
            &zeros[..PAGE],
            zeros,
        ) {
            Ok(()) => Ok(()),
            Err(call) => Err(call),
        }
    }
}
