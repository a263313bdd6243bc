//! Stores whose records are any bytes but none.

ghost use Rattle.std.specs.Prelude.{◌≡◌, ◌==◌, ◌<◌, ◌≤◌, ◌+◌, ◌*◌, ⊤, length, Some, None, if◌then◌else◌, IfOk};
ghost use Rattle.slot_store.specs.Areas.{HasText};
ghost use Rattle.slot_store.specs.Store.{HasArea};

use dr_disk::Disk;
use slot_store::{
    Area, Found, Grammar, InspectError, OpenError, Report, SlotStore, inspect, lengthen,
    record_memory,
};
use std::alloc::{AllocError, Global};

/// How many bytes the disk has, which is one area.
pub(crate) const SIZE: u64 = 393_216;

/// How many bytes the disk of a relay's boxes has.
pub(crate) const BOXES_SIZE: u64 = 16_777_216;

/// Every text but the empty one.
#[derive(Drop)]
pub(crate) struct Texts;

impl Grammar for Texts {
    ghost fault_at = { λ text. if length text == 0 then Some 0 else None };

    ghost is_new = { λ _. ⊤ };

    ghost has_read = { λ _ _. ⊤ };

    fn read(&mut self, text: &[u8]) -> Result<(), u32> {
        if text.is_empty() {
            return Err(0);
        }
        Ok(())
    }
}

/// The area: 96 pages, of which a record has at most 46.
pub(crate) fn area() -> Area
    ensures { result ≡ record { start = 0; upper = 524288; pages = 96; most = 46 } }
{
    Area {
        start: 0,
        upper: 524_288,
        pages: 96,
        most: 46,
    }
}

/// An area of four pages, for a record of one.
fn small_area() -> Area
    ensures { result ≡ record { start = 0; upper = 524288; pages = 4; most = 1 } }
{
    Area {
        start: 0,
        upper: 524_288,
        pages: 4,
        most: 1,
    }
}

/// Room for a record, with a text at its beginning.
pub(crate) fn room_with(alloc: Global, text: &[u8]) -> Result<Vec<u8>, AllocError>
    requires { length text.now ≤ 188416 }
    ensures { IfOk result (λ room.
        HasText (record { start = 0; upper = 524288; pages = 96; most = 46 }) room
        (length text.now)) }
{
    let mut room = record_memory(alloc, area())?;
    lengthen(area(), &mut room, text.len());
    room[..text.len()].copy_from_slice(text);
    Ok(room)
}

/// Opens an area, and replaces its record. Answers whether it did.
fn puts_in<D: Disk>(alloc: Global, disk: &mut D, area: Area, text: &[u8]) -> bool
    requires within { HasArea area (D.state disk.old) }
    requires fits { length text.now ≤ 4096 * area.most }
{
    let Ok(mut room) = record_memory(alloc, area) else {
        return false;
    };
    lengthen(area, &mut room, text.len());
    room[..text.len()].copy_from_slice(text);
    match SlotStore::open(alloc, disk, area, &mut Texts) {
        Ok((mut store, _)) => store.replace(disk, &mut room, text.len()).is_ok(),
        Err(_) => false,
    }
}

/// The same with the area of 96 pages.
pub(crate) fn puts<D: Disk>(alloc: Global, disk: &mut D, text: &[u8]) -> bool {
    disk.size() >= SIZE && text.len() <= 188_416 && puts_in(alloc, disk, area(), text)
}

/// The area of a relay's box: 256 pages, of which the upper half lies apart.
fn box_area(k: u64) -> Area
    requires { k < 16 }
    ensures { result ≡ record {
      start = 524288 * k;
      upper = 8388608 + 524288 * k;
      pages = 256;
      most = 126;
    } }
{
    Area {
        start: 524_288 * k,
        upper: 8_388_608 + 524_288 * k,
        pages: 256,
        most: 126,
    }
}

/// The same as it was once: the lower half alone.
fn lower_area(k: u64) -> Area
    requires { k < 16 }
    ensures { result ≡ record {
      start = 524288 * k;
      upper = 8388608 + 524288 * k;
      pages = 128;
      most = 63;
    } }
{
    Area {
        pages: 128,
        most: 63,
        ..box_area(k)
    }
}

/// Replaces the record of a box in its area. Answers whether it did.
pub(crate) fn puts_box<D: Disk>(alloc: Global, disk: &mut D, k: u64, text: &[u8]) -> bool
    requires { k < 16 }
{
    disk.size() >= BOXES_SIZE && text.len() <= 516_096 && puts_in(alloc, disk, box_area(k), text)
}

/// The same in the lower half.
pub(crate) fn puts_lower<D: Disk>(alloc: Global, disk: &mut D, k: u64, text: &[u8]) -> bool
    requires { k < 16 }
{
    disk.size() >= BOXES_SIZE && text.len() <= 258_048 && puts_in(alloc, disk, lower_area(k), text)
}

/// Whether the area of a box opens with this text.
pub(crate) fn has_box<D: Disk>(alloc: Global, disk: &mut D, k: u64, text: &[u8]) -> bool
    requires { k < 16 }
{
    if disk.size() < BOXES_SIZE {
        return false;
    }
    match SlotStore::open(alloc, disk, box_area(k), &mut Texts) {
        Ok((store, _)) => store.content() == text,
        Err(_) => false,
    }
}

/// What a look at the area reports.
pub(crate) fn looks<D: Disk>(alloc: Global, disk: &mut D) -> Result<Report, InspectError> {
    if disk.size() < SIZE {
        return Err(InspectError::Memory);
    }
    inspect(alloc, disk, area(), &mut Texts)
}

/// Whether an opening of the small area finds this content, with this text; or why it isn't opened.
pub(crate) fn finds<D: Disk>(
    alloc: Global,
    disk: &mut D,
    content: Found,
    text: &[u8],
) -> Result<bool, OpenError> {
    if disk.size() < 16_384 {
        return Err(OpenError::Memory);
    }
    let (store, found) = SlotStore::open(alloc, disk, small_area(), &mut Texts)?;
    Ok(found == content && store.content() == text)
}
