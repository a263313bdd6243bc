//! A book's store: its rows are read from memory, and several change under one commit.

ghost use Rattle.std.specs.Prelude.{◌≡◌, ◌-◌, ◌*◌, ◌≤◌, false, replicate, vec_capacity};
ghost use Rattle.book_store.specs.Held.{store_seen};
ghost use Rattle.book_store.specs.Kept.{HasStagingRoom};
ghost use Rattle.book_store.specs.Store.{IsLawfulStore, body_of};
ghost use Rattle.book_store.specs.declared.layout.TheConstants.{BOOK_ROWS, BOOK_TABLE, ROW_MOST};

use crate::desk::Desk;
use crate::held::{HeldRow, absent_rows};
use crate::layout::{BOOK_ROWS, BOOK_TABLE, ROW_MOST, ROW_PAGES};
use crate::record::row_bounds;
use dr_disk::Disk;
use paged_records::{Draft, take_draft};
use relay_wire::Name;
use std::alloc::{AllocError, Global};
use std::marker::Model;

/// A book's store, in memory that was taken when it was made. A contract sees its rows, where they
/// lie, and which of them are staged.
///
/// Rows are staged, one after the other, committed all at once, and then what they replaced is
/// retired. After a call that failed it has to be opened again.
#[derive(Drop)]
pub struct BookStore {
    pub(crate) desk: Desk,
    pub(crate) rows: Vec<HeldRow>,
    pub(crate) staged: Vec<bool>,
    /// The last commit took the place of an open table.
    pub(crate) replaced: bool,
    pub(crate) draft: Draft,
    pub(crate) fresh: Vec<u32>,
    pub(crate) dropped: Vec<u32>,
    pub(crate) zeros: Vec<u8>,
    ghost lawful: { IsLawfulStore
        (store_seen desk.rows desk.second desk.turn rows.items staged.items replaced) },
    ghost laid: { desk.body.items
        ≡ body_of (store_seen desk.rows desk.second desk.turn rows.items staged.items replaced) },
    ghost rooms: { HasStagingRoom draft fresh },
    ghost gathered: { ROW_MOST * BOOK_ROWS ≤ vec_capacity dropped },
    ghost zero: { zeros.items ≡ replicate (BOOK_TABLE - 1) 0 },
}

impl Model for BookStore {
    ghost use Rattle.book_store.specs.Held.{store_seen};
    ghost use Rattle.book_store.specs.Store.{BookStore as Stored, IsLawfulStore};

    ghost Value = { Stored };

    ghost view = { λ s. store_seen s.desk.rows s.desk.second s.desk.turn
        s.rows.items s.staged.items s.replaced };

    ghost invariant = { λ s. IsLawfulStore (store_seen s.desk.rows s.desk.second s.desk.turn
        s.rows.items s.staged.items s.replaced) };
}

/// A name, as text.
pub fn words(name: &Name) -> &str
    ensures { result.now ≡ name.now }
{
    match str::from_utf8(name.bytes()) {
        Ok(words) => words,
        Err(_) => "",
    }
}

/// The rooms that a store works in.
#[derive(Drop)]
pub(crate) struct Rooms {
    pub(crate) staged: Vec<bool>,
    pub(crate) draft: Draft,
    pub(crate) fresh: Vec<u32>,
    pub(crate) dropped: Vec<u32>,
    pub(crate) zeros: Vec<u8>,
    ghost clear: { staged.items ≡ replicate BOOK_ROWS false },
    ghost rooms: { HasStagingRoom draft fresh },
    ghost gathered: { ROW_MOST * BOOK_ROWS ≤ vec_capacity dropped },
    ghost zero: { zeros.items ≡ replicate (BOOK_TABLE - 1) 0 },
}

impl Rooms {
    /// Takes them. No row is staged.
    pub(crate) fn take(alloc: Global) -> Result<Rooms, AllocError> {
        Ok(Rooms {
            staged: vec![in alloc; false; BOOK_ROWS as usize]?,
            draft: take_draft(alloc, row_bounds())?,
            fresh: Vec::with_capacity(alloc, ROW_PAGES as usize)?,
            dropped: Vec::with_capacity(alloc, ROW_MOST as usize * BOOK_ROWS as usize)?,
            zeros: vec![in alloc; 0; BOOK_TABLE as usize - 1]?,
        })
    }
}

impl BookStore {
    ghost use Rattle.std.specs.Prelude.{◌≡◌, ◌<◌, false, Some, List, Option, IfOk, IfSome, is_some};
    ghost use Rattle.dr_disk.specs.State.{Always};
    ghost use Rattle.book_store.specs.AtRest.{IsBookMarked};
    ghost use Rattle.book_store.specs.Layout.{HasBook};
    ghost use Rattle.book_store.specs.Locating.{IsStoreWith, store_with};
    ghost use Rattle.book_store.specs.Shown.{BookRow};
    ghost use Rattle.book_store.specs.Staging.{IsStagedOver, MayStage, Rests};
    ghost use Rattle.book_store.specs.Store.{IsUnstaged, empty_store, name_at, text_at, without_row};

    /// For a disk of which all tables and pages are zeros: all rows are absent, and the first
    /// commit goes to table 0, with turn 1. Takes all memory that the other calls work in.
    pub fn new(alloc: Global, rows: u32) -> Result<BookStore, AllocError>
        requires { rows ≤ BOOK_ROWS }
        ensures { IfOk result (λ store. store ≡ empty_store rows) }
    {
        let desk = Desk::new(alloc, rows)?;
        let rows = absent_rows(alloc)?;
        let rooms = Rooms::take(alloc)?;
        Ok(BookStore::of_rows(desk, rows, rooms))
    }

    /// A store of these rows, of which none is staged.
    pub(crate) fn of_rows(desk: Desk, rows: Vec<HeldRow>, rooms: Rooms) -> BookStore
        requires { IsStoreWith desk rows.items }
        ensures { result ≡ store_with desk rows.items }
    {
        let Rooms {
            staged,
            draft,
            fresh,
            dropped,
            zeros,
        } = rooms;
        BookStore {
            desk,
            rows,
            staged,
            replaced: false,
            draft,
            fresh,
            dropped,
            zeros,
        }
    }

    /// The name of a row; none exactly where the row is absent.
    pub fn name(&self, row: usize) -> Option<&str>
        ensures variant { is_some result ≡ is_some (name_at self.now.held row) }
        ensures value { IfSome result (λ name. name_at self.now.held row ≡ Some name.now) }
    {
        match self.rows.get(row) {
            Some(held) => match &held.name {
                Some(name) => Some(words(name)),
                None => None,
            },
            None => None,
        }
    }

    /// The record of a row; empty where the row is absent.
    pub fn content(&self, row: usize) -> &[u8]
        ensures { result.now ≡ text_at self.now.held row }
    {
        match self.rows.get(row) {
            Some(held) => held.kept.text(),
            None => &[],
        }
    }

    /// Of a row that is to be staged absent: it is then staged over the rows that stand. A caller
    /// that needs this calls it before `stage_empty`.
    pub fn staged_empty<D: Disk>(&self, disk: &D, row: usize)
        requires row { row < self.now.rows }
        requires once { IsUnstaged self.now row }
        ensures { (standing : List (Option BookRow))
            → IsStagedOver self.now standing (D.state disk.now)
            → IsStagedOver (without_row self.now row) standing (D.state disk.now) }
    {
        let _rows = self.desk.rows;
    }

    /// Over a book at rest, of which no row is staged, rows may be staged. A caller that needs this
    /// calls it.
    pub fn may_stage<D: Disk>(&self, disk: &D)
        requires within { HasBook self.now.rows (D.state disk.now) }
        requires none { self.now.staged ≡ replicate BOOK_ROWS false }
        requires marked { IsBookMarked self.now.rows self.now.mark self.now.held }
        requires at_rest { Always (Rests self.now) (D.state disk.now) }
        ensures over { IsStagedOver self.now self.now.held (D.state disk.now) }
        ensures may { MayStage self.now (D.state disk.now) }
    {
        let _rows = self.desk.rows;
    }
}
