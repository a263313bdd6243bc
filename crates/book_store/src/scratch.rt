//! Memory that opening needs besides a store's.

ghost use Rattle.std.specs.Prelude.{IfOk};
ghost use Rattle.book_store.specs.Scratch.{IsScratch};

use crate::layout::{BOOK_ROWS, BOOK_TABLE, ROW_PAGES};
use dr_base::PAGE;
use pages::ROW_PAGES as READ_PAGES;
use std::alloc::{AllocError, Global};

/// Both tables after their gates, room for the pages that are read at once, and a mark for each
/// page.
#[derive(Drop)]
pub(crate) struct Scratch {
    pub(crate) first: Vec<u8>,
    pub(crate) second: Vec<u8>,
    pub(crate) room: Vec<u8>,
    pub(crate) named: Vec<bool>,
}

impl Scratch {
    /// Takes it, with no page marked.
    pub(crate) fn take(alloc: Global) -> Result<Scratch, AllocError>
        ensures { IfOk result IsScratch }
    {
        Ok(Scratch {
            first: vec![in alloc; 0; BOOK_TABLE as usize - 1]?,
            second: vec![in alloc; 0; BOOK_TABLE as usize - 1]?,
            room: vec![in alloc; 0; PAGE * READ_PAGES as usize]?,
            named: vec![in alloc; false; ROW_PAGES as usize * BOOK_ROWS as usize]?,
        })
    }
}
