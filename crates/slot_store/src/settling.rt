//! What doesn't count is wiped: the other table, and the pages that the record doesn't have.

ghost use Rattle.std.specs.Prelude.{◌≡◌, ◌≢◌, ◌+◌, ◌-◌, ◌*◌, ◌<◌, ◌||◌, ℕ, All, false, true, not, length, replicate, get_or, OnOk};
ghost use Rattle.dr_base.specs.declared.limits.TheConstants.{PAGE};
ghost use Rattle.dr_disk.specs.State.{Always, IsSettled, OnSeen};
ghost use Rattle.pages.specs.declared.layout.TheConstants.{OPEN};
ghost use Rattle.pages.specs.Clearing.{AreReadBlank, AreUnmarked, KeepsShots};
ghost use Rattle.pages.specs.Counted.{MakesAtMost, ReadsAtMost, lookings, one_of, tidyings};
ghost use Rattle.pages.specs.Runs.{IsUntouched};
ghost use Rattle.pages.specs.Tables.{table_at};
ghost use Rattle.pages.specs.Tidying.{AreNamed, IsMute, IsTidied};
ghost use Rattle.record_pages.specs.Plans.{is_among};
ghost use Rattle.record_pages.specs.Tables.{record_names};
ghost use Rattle.slot_store.specs.Areas.{layout_of};
ghost use Rattle.pages.specs.Judged.{table_with};
ghost use Rattle.slot_store.specs.Settling.{AreTablesRead, IsSettledArea, MaySettle, Settles};

use crate::area::{Area, layout};
use crate::pager::Pager;
use crate::table::RecordTable;
use dr_base::PAGE;
use dr_disk::{Call, Disk};
use pages::{ROW_PAGES, is_blank};

/// Marks the pages of these numbers.
pub(crate) fn mark_pages(numbers: &[u32], named: &mut [bool])
    requires inside { All (λ n. n < length named.old) numbers.now }
    ensures marks { (n : ℕ) → get_or named.new n false
        ≡ (get_or named.old n false || is_among numbers.now n) }
    ensures long { length named.new ≡ length named.old }
{
    'numbers: for i in 0..numbers.len() {
        named[numbers[i] as usize] = true;
    }
}

/// Wipes a table that doesn't count, and all pages without a mark. It was read with this gate, and
/// with these bytes after it.
fn wipe_table<D: Disk>(
    disk: &mut D,
    area: Area,
    second: bool,
    gate: u8,
    body: &[u8],
    named: &[bool],
    room: &mut [u8],
    zeros: &[u8],
) -> Result<(), Call>
    requires ready { IsSettledArea area (D.state disk.old) }
    requires long { length body.now + 1 ≡ PAGE }
    requires marks { length named.now ≡ area.pages }
    requires room { length room.old ≡ PAGE * ROW_PAGES }
    requires zero { zeros.now ≡ replicate PAGE 0 }
    requires read { OnSeen (λ s. table_at (layout_of area) second s ≡ table_with gate body.now)
        (D.state disk.old) }
    requires counts { Always (AreNamed record_names (layout_of area)) (D.state disk.old) }
    requires unnamed { AreUnmarked record_names (layout_of area) named.now (D.state disk.old) }
    requires mute { gate ≡ OPEN → Always (IsMute (layout_of area) second) (D.state disk.old) }
    ensures shots { KeepsShots record_names (layout_of area)
        (D.state disk.old) (D.state disk.new) result }
    ensures done { OnOk result (Always
        (IsTidied (layout_of area) second named.now (D.state disk.old)) (D.state disk.new)) }
    ensures settled { OnOk result (IsSettled (D.state disk.new)) }
    ensures still { gate ≡ 0 → body.now ≡ replicate (PAGE - 1) 0
        → AreReadBlank (layout_of area) named.now (D.state disk.old)
        → IsUntouched (D.state disk.old) (D.state disk.new) }
    ensures reads { ReadsAtMost (lookings (layout_of area)) (D.state disk.old) (D.state disk.new) }
    ensures few { MakesAtMost (tidyings (layout_of area)) one_of
        (D.state disk.old) (D.state disk.new) result }
{
    let _size = disk.size();
    let blank = is_blank(body);
    match pages::tidy::<RecordTable, D>(
        disk,
        layout(area),
        second,
        gate,
        blank,
        named,
        room,
        zeros,
        &zeros[..PAGE - 1],
    ) {
        Ok(()) => Ok(()),
        Err(call) => Err(call),
    }
}

/// Wipes what doesn't count beside a pager's record: the other table, which was read with this gate
/// and with these bytes after it, and all pages that the record doesn't have.
pub(crate) fn settle_newer<D: Disk>(
    disk: &mut D,
    pager: &Pager,
    gate: u8,
    other: &[u8],
    named: &mut [bool],
    room: &mut [u8],
) -> Result<(), Call>
    requires settling { MaySettle pager.now (D.state disk.old) }
    requires turn { pager.now.turn ≢ 0 }
    requires long { length other.now + 1 ≡ PAGE }
    requires marks { named.old ≡ replicate pager.now.area.pages false }
    requires room { length room.old ≡ PAGE * ROW_PAGES }
    requires read { OnSeen (λ s. table_at (layout_of pager.now.area) (not pager.now.second) s
        ≡ table_with gate other.now) (D.state disk.old) }
    ensures { Settles pager.now (D.state disk.old) (D.state disk.new) result }
{
    mark_pages(&pager.kept.numbers, named);
    wipe_table(
        disk,
        pager.area,
        !pager.second,
        gate,
        other,
        named,
        room,
        &pager.draft.zeros,
    )
}

/// Wipes all of the area of a pager that has no record.
pub(crate) fn settle_empty<D: Disk>(
    disk: &mut D,
    pager: &Pager,
    first_gate: u8,
    first: &[u8],
    second_gate: u8,
    second: &[u8],
    named: &[bool],
    room: &mut [u8],
) -> Result<(), Call>
    requires settling { MaySettle pager.now (D.state disk.old) }
    requires turn { pager.now.turn ≡ 0 }
    requires first_long { length first.now + 1 ≡ PAGE }
    requires second_long { length second.now + 1 ≡ PAGE }
    requires marks { named.now ≡ replicate pager.now.area.pages false }
    requires room { length room.old ≡ PAGE * ROW_PAGES }
    requires read { AreTablesRead pager.now.area (table_with first_gate first.now)
        (table_with second_gate second.now) (D.state disk.old) }
    ensures { Settles pager.now (D.state disk.old) (D.state disk.new) result }
{
    match wipe_table(
        disk,
        pager.area,
        false,
        first_gate,
        first,
        named,
        room,
        &pager.draft.zeros,
    ) {
        Ok(()) => {}
        Err(call) => return Err(call),
    }
    wipe_table(
        disk,
        pager.area,
        true,
        second_gate,
        second,
        named,
        room,
        &pager.draft.zeros,
    )
}
