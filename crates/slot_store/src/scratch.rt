//! Memory that opening needs besides a store's.

ghost use Rattle.std.specs.Prelude.{IfOk};
ghost use Rattle.slot_store.specs.Scratch.{IsScratch};

use crate::area::{Area, page_total};
use dr_base::PAGE;
use pages::ROW_PAGES;
use std::alloc::{AllocError, Global};

/// Both tables after their gates, room for the pages that are read at once, and a mark for each
/// page.
#[derive(Drop)]
pub(crate) struct Scratch {
    pub(crate) first: Vec<u8>,
    pub(crate) second: Vec<u8>,
    pub(crate) room: Vec<u8>,
    pub(crate) named: Vec<bool>,
}

impl Scratch {
    /// Room for the pages of an area, none of which is marked.
    pub(crate) fn take(alloc: Global, area: Area) -> Result<Scratch, AllocError>
        ensures { IfOk result (IsScratch area) }
    {
        Ok(Scratch {
            first: vec![in alloc; 0; PAGE - 1]?,
            second: vec![in alloc; 0; PAGE - 1]?,
            room: vec![in alloc; 0; PAGE * ROW_PAGES as usize]?,
            named: vec![in alloc; false; page_total(area) as usize]?,
        })
    }
}
