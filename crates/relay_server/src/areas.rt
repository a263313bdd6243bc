//! The stores of a relay's areas are opened, one after the other.

ghost use Rattle.std.specs.Prelude.{◌≡◌, ◌<◌, ◌≤◌, ◌*◌, ⊤, ℕ, List, Option, IfErr, IfOk, length};
ghost use Rattle.dr_disk.specs.Calls.{Unwritten};
ghost use Rattle.dr_disk.specs.Spans.{Span};
ghost use Rattle.slot_store.specs.AtRest.{IsReadAtRest};
ghost use Rattle.slot_store.specs.Reading.{IsEntryOrLike, IsLikeRead};
ghost use Rattle.slot_store.specs.Store.{HasArea};
ghost use Rattle.relay_core.specs.declared.limits.TheConstants.{RELAY_LIMIT};
ghost use Rattle.relay_server.specs.Areas.{AreOpened, AreRefused, HasLooked, IsAreaOpened, IsAreaRefused};
ghost use Rattle.relay_server.specs.Places.{HasRoomForAreas, area_of};
ghost use Rattle.relay_server.specs.Reading.{box_fault};

use crate::errors::ServerOpenError;
use crate::limits::{BOX_PAGES, HALF_SIZE, RECORD_PAGES, UPPER_START};
use dr_disk::Disk;
use relay_core::check_box;
use slot_store::{Area, Grammar, OpenError, SlotStore, locality};
use std::alloc::Global;

/// The area of the first box.
pub(crate) const FIRST_AREA: Area = Area {
    start: 0,
    upper: UPPER_START,
    pages: BOX_PAGES,
    most: RECORD_PAGES,
};

/// The records of boxes, as a store's grammar. It keeps nothing of what it reads.
#[derive(Drop)]
struct BoxRecords;

impl Grammar for BoxRecords {
    ghost fault_at = { λ text. box_fault text };

    ghost is_new = { λ _. ⊤ };

    ghost has_read = { λ _ _. ⊤ };

    fn read(&mut self, text: &[u8]) -> Result<(), u32> {
        check_box(text)
    }
}

/// Opens the store of an area.
fn open_area<D: Disk>(alloc: Global, disk: &mut D, k: usize) -> Result<SlotStore, ServerOpenError>
    requires few { k < RELAY_LIMIT }
    requires within { HasArea (area_of k) (D.state disk.old) }
    ensures opened { IfOk result
        (λ store. IsAreaOpened k store (D.state disk.old) (D.state disk.new)) }
    ensures refused { IfErr result (IsAreaRefused k (D.state disk.old) (D.state disk.new)) }
    ensures any_moment { Span (D.state disk.old) (D.state disk.new)
        (IsEntryOrLike (area_of k) (D.state disk.old)) }
    ensures still { IsReadAtRest (area_of k) (D.state disk.old)
        → Unwritten (D.state disk.old) (D.state disk.new) }
    ensures reads { (s : List ℕ) → (D.state disk.new).seen ≡ Option.Some s
        → IsLikeRead (area_of k) (D.state disk.old) s }
{
    let area = Area {
        start: HALF_SIZE * k as u64,
        upper: UPPER_START + HALF_SIZE * k as u64,
        ..FIRST_AREA
    };
    match SlotStore::open(alloc, disk, area, &mut BoxRecords) {
        Ok((store, _found)) => Ok(store),
        Err(OpenError::Memory) => Err(ServerOpenError::Memory),
        Err(OpenError::StoreFault { call }) => Err(ServerOpenError::StoreFault { call }),
        Err(OpenError::Damaged { slot, at }) => Err(ServerOpenError::Damaged {
            area: k as u32,
            slot,
            at,
        }),
    }
}

/// Opens the stores of this many areas, up to the first one that is refused.
pub(crate) fn open_areas<D: Disk>(
    alloc: Global,
    disk: &mut D,
    count: usize,
) -> Result<Vec<SlotStore>, ServerOpenError>
    requires few { count ≤ RELAY_LIMIT }
    requires within { HasRoomForAreas count (D.state disk.old) }
    ensures opened { IfOk result
        (λ stores. AreOpened count count stores.items (D.state disk.old) (D.state disk.new)) }
    ensures refused { IfErr result (AreRefused count (D.state disk.old) (D.state disk.new)) }
    ensures looks { HasLooked count (D.state disk.old) (D.state disk.new) }
{
    locality();
    let mut stores = Vec::new(alloc);
    'areas: for k in 0..count {
        let store = match open_area(alloc, disk, k) {
            Ok(store) => store,
            Err(error) => return Err(error),
        };
        let Ok(()) = stores.push(store) else {
            return Err(ServerOpenError::Memory);
        };
    }
    Ok(stores)
}
