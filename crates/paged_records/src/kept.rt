//! A record in memory, as it lies in pages.

ghost use Rattle.std.specs.Prelude.{◌≡◌, ◌≤◌, ◌<◌, ◌+◌, ◌-◌, ◌*◌, length, take, drop, replicate, vec_capacity, IfOk};
ghost use Rattle.dr_base.specs.declared.limits.TheConstants.{PAGE};
ghost use Rattle.record_pages.specs.Pages.{page_count};
ghost use Rattle.paged_records.specs.Bounded.{HasRecordMemory};

use crate::bounds::{Bounds, record_most};
use dr_base::PAGE;
use record_pages::page_count;
use std::alloc::{AllocError, Global};
use std::mem::swap;

/// A record and the numbers of its pages, in memory that was taken at opening.
#[derive(Drop)]
pub struct Kept {
    /// The record, and zeros behind it up to the end of its last page. What was read ends there;
    /// what was put has all the room of its text.
    pub bytes: Vec<u8>,
    pub len: usize,
    pub numbers: Vec<u32>,
    ghost fits: { PAGE * length numbers.items ≤ length bytes.items },
    ghost blank: { drop len (take (PAGE * length numbers.items) bytes.items)
        ≡ replicate (PAGE * length numbers.items - len) 0 },
    ghost covers: { len ≤ PAGE * length numbers.items },
    ghost least: { PAGE * length numbers.items < len + PAGE },
}

impl Kept {
    ghost use Rattle.paged_records.specs.Memory.{HasRoomToLoad};

    /// No record, with room for one within bounds.
    pub fn none(alloc: Global, bounds: Bounds) -> Result<Kept, AllocError>
        ensures len { IfOk result (λ kept. kept.len ≡ 0) }
        ensures room { IfOk result (HasRoomToLoad bounds) }
    {
        Ok(Kept {
            bytes: record_memory(alloc, bounds)?,
            len: 0,
            numbers: Vec::with_capacity(alloc, record_most(bounds) as usize)?,
        })
    }

    /// The record.
    pub fn text(&self) -> &[u8]
        ensures { result.now ≡ take self.now.len self.now.bytes.items }
    {
        &self.bytes[..self.len]
    }
}

/// Memory for the longest record within bounds, in which nothing stands yet.
pub fn record_memory(alloc: Global, bounds: Bounds) -> Result<Vec<u8>, AllocError>
    ensures { IfOk result (HasRecordMemory bounds) }
{
    Vec::with_capacity(alloc, PAGE * record_most(bounds) as usize)
}

/// Makes a room as long as so many pages, in the memory that it has: what stands in it stays, with
/// zeros behind it, which are put there a page at a time.
pub(crate) fn stretch(room: &mut Vec<u8>, pages: usize)
    requires memory { PAGE * pages ≤ vec_capacity room.old }
    ensures long { length room.new.items ≡ PAGE * pages }
    ensures memory { vec_capacity room.old ≤ vec_capacity room.new }
{
    let zeros = [0; PAGE];
    let end = PAGE * pages;
    room.truncate(end);
    'pages: while room.len() < end {
        let count = (end - room.len()).min(PAGE);
        room.extend_from_slice(&zeros[..count]).unwrap();
    }
}

/// Makes the room in which a record of `len` bytes is put together as long as the record's pages,
/// in the memory that it has.
pub fn lengthen(bounds: Bounds, room: &mut Vec<u8>, len: usize)
    requires memory { HasRecordMemory bounds room.old }
    requires few { len ≤ PAGE * bounds.most }
    ensures room { length room.new.items ≡ PAGE * page_count len }
    ensures memory { HasRecordMemory bounds room.new }
{
    let _most = record_most(bounds);
    stretch(room, page_count(len));
}

/// Makes the bytes from a place up to another one zeros.
fn blank(bytes: &mut [u8], from: usize, end: usize)
    requires order { from ≤ end }
    requires inside { end ≤ length bytes.old }
    ensures before { take from bytes.new ≡ take from bytes.old }
    ensures blank { drop from (take end bytes.new) ≡ replicate (end - from) 0 }
{
    bytes[from..end].fill(0);
}

/// Takes a text in place of a record: their rooms are swapped, and what stands behind the text in
/// the pages that end there is made zeros.
pub(crate) fn take_over(bytes: &mut Vec<u8>, text: &mut Vec<u8>, len: usize, end: usize)
    requires inside { len ≤ end }
    requires room { end ≤ length text.old.items }
    ensures text { take len bytes.new.items ≡ take len text.old.items }
    ensures blank { drop len (take end bytes.new.items) ≡ replicate (end - len) 0 }
    ensures long { length bytes.new.items ≡ length text.old.items }
    ensures memory { vec_capacity bytes.new ≡ vec_capacity text.old }
    ensures room { text.new ≡ bytes.old }
{
    swap(bytes, text);
    blank(bytes, len, end);
}
