//! Whether an area is at rest for a pager's record, or for none.

ghost use Rattle.std.specs.Prelude.{◌≡◌, ◌+◌, ◌*◌, ◌↔◌, ◌&&◌, ◌==◌, ℕ, false, length, get_or, replicate, if◌then◌else◌, IsTrue};
ghost use Rattle.dr_base.specs.declared.limits.TheConstants.{PAGE};
ghost use Rattle.dr_disk.specs.State.{OnSeen};
ghost use Rattle.pages.specs.Clearing.{AreBlank};
ghost use Rattle.pages.specs.Tables.{wiped};
ghost use Rattle.record_pages.specs.Plans.{is_among};
ghost use Rattle.slot_store.specs.Areas.{layout_of};
ghost use Rattle.pages.specs.Counted.{lookings};
ghost use Rattle.pages.specs.Finds.{Finds};
ghost use Rattle.pages.specs.Judged.{table_with};
ghost use Rattle.slot_store.specs.Pager.{IsLaidFor};
ghost use Rattle.slot_store.specs.Scratch.{HasTables};
ghost use Rattle.slot_store.specs.Settling.{HasShot};
ghost use Rattle.slot_store.specs.Store.{HasArea};

use crate::area::layout;
use crate::pager::Pager;
use crate::scratch::Scratch;
use crate::settling::mark_pages;
use dr_disk::{Call, Disk};
use pages::{ROW_PAGES, are_blank, is_blank};

/// Whether a table is zeros that was read with this gate, and with these bytes after it.
fn is_wiped(gate: u8, body: &[u8]) -> bool
    requires { length body.now + 1 ≡ PAGE }
    ensures { IsTrue result ↔ (table_with gate body.now ≡ wiped PAGE) }
{
    gate == 0 && is_blank(body)
}

/// Whether each table is zeros but for a pager's, by whether each is.
fn others_wiped(pager: &Pager, first: bool, second: bool) -> bool
    ensures { result ≡ (if pager.now.turn == 0 then first && second
        else if pager.now.second then first else second) }
{
    if pager.turn == 0 {
        return first && second;
    }
    if pager.second { first } else { second }
}

/// Whether each page is zeros but for those of a pager's record, which are marked.
fn others_blank<D: Disk>(
    disk: &mut D,
    pager: &Pager,
    named: &mut [bool],
    room: &mut [u8],
) -> Result<bool, Call>
    requires within { HasArea pager.now.area (D.state disk.old) }
    requires marks { named.old ≡ replicate pager.now.area.pages false }
    requires room { length room.old ≡ PAGE * ROW_PAGES }
    ensures marks { (n : ℕ) → get_or named.new n false
        ≡ is_among pager.now.kept.numbers.items n }
    ensures blank { Finds (lookings (layout_of pager.now.area)) (λ disk blank. OnSeen (λ s. IsTrue blank
        ↔ AreBlank (layout_of pager.now.area) named.new s) disk)
        (D.state disk.old) (D.state disk.new) result }
{
    let _size = disk.size();
    mark_pages(&pager.kept.numbers, named);
    match are_blank(disk, layout(pager.area), named, room) {
        Ok(blank) => Ok(blank),
        Err(call) => Err(call),
    }
}

/// Whether an area is at rest for the pager of what counts in it. Its tables were read, with these
/// gates.
pub(crate) fn rests<D: Disk>(
    disk: &mut D,
    pager: &Pager,
    first_gate: u8,
    second_gate: u8,
    scratch: &mut Scratch,
) -> Result<bool, Call>
    requires tables { HasTables pager.now.area first_gate second_gate scratch.old
        (D.state disk.old) }
    requires shown { OnSeen (HasShot pager.now) (D.state disk.old) }
    ensures { Finds (lookings (layout_of pager.now.area))
        (λ disk rests. OnSeen (λ s. IsTrue rests ↔ IsLaidFor pager.now s) disk)
        (D.state disk.old) (D.state disk.new) result }
{
    let first = is_wiped(first_gate, &scratch.first);
    let second = is_wiped(second_gate, &scratch.second);
    if !others_wiped(pager, first, second) {
        return Ok(false);
    }
    match others_blank(disk, pager, &mut scratch.named, &mut scratch.room) {
        Ok(laid) => Ok(laid),
        Err(call) => Err(call),
    }
}
