//! Memory for the records of an area.

ghost use Rattle.std.specs.Prelude.{◌≡◌, ◌≤◌, ◌*◌, length, IfOk};
ghost use Rattle.dr_base.specs.declared.limits.TheConstants.{PAGE};
ghost use Rattle.record_pages.specs.Pages.{page_count};
ghost use Rattle.slot_store.specs.Areas.{HasRecordMemory};

use crate::area::{Area, bounds};
use std::alloc::{AllocError, Global};

/// Memory for the longest record of an area, in which nothing stands yet.
pub fn record_memory(alloc: Global, area: Area) -> Result<Vec<u8>, AllocError>
    ensures { IfOk result (HasRecordMemory area) }
{
    match paged_records::record_memory(alloc, bounds(area)) {
        Ok(room) => Ok(room),
        Err(e) => Err(e),
    }
}

/// Makes the room in which a record of `len` bytes is put together as long as the record's pages,
/// in the memory that it has.
pub fn lengthen(area: Area, room: &mut Vec<u8>, len: usize)
    requires memory { HasRecordMemory area room.old }
    requires few { len ≤ PAGE * area.most }
    ensures room { length room.new.items ≡ PAGE * page_count len }
    ensures memory { HasRecordMemory area room.new }
{
    paged_records::lengthen(bounds(area), room, len);
}
