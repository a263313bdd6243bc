//! What counts in an area whose tables were read: a record, none, or damage.

ghost use Rattle.std.specs.Prelude.{◌≡◌, ◌≤◌, ◌+◌, [], None, true, length, IfOk};
ghost use Rattle.dr_base.specs.declared.limits.TheConstants.{PAGE};
ghost use Rattle.dr_disk.specs.State.{OnSeen};
ghost use Rattle.pages.specs.Tables.{counts, is_open, open_table, tables_standing};
ghost use Rattle.record_pages.specs.Tables.{entry_fault};
ghost use Rattle.slot_store.specs.Areas.{layout_of};
ghost use Rattle.pages.specs.Finds.{Finds};
ghost use Rattle.slot_store.specs.Memory.{HasRoomToLoad};
ghost use Rattle.slot_store.specs.Locating.{IsLocated, IsLocatedBy};
ghost use Rattle.slot_store.specs.Memory.{HasPlanRoom};
ghost use Rattle.slot_store.specs.Outcome.{IsForStore};
ghost use Rattle.slot_store.specs.Scratch.{HasTables};
ghost use Rattle.slot_store.specs.Store.{HasArea};

use crate::area::{Area, bounds, layout, record_most};
use crate::pager::Pager;
use crate::scratch::Scratch;
use crate::table::number;
use dr_disk::{Call, Disk};
use paged_records::{Draft, Grammar, Kept, Loaded, load};
use pages::{Judged, judge};

/// A pager of what counts, a record or none; or the number of a damaged table, and the place.
#[derive(Drop)]
pub(crate) enum Located {
    Held { pager: Pager },
    Faulty { slot: u32, at: u64 },
}

/// A pager with a record that was read, or with none.
fn pager_of(area: Area, second: bool, turn: u8, kept: Kept, draft: Draft) -> Pager
    requires turns { turn ≤ 3 }
    requires none { turn ≡ 0 → kept.len ≡ 0 }
    requires room { HasRoomToLoad area kept }
    requires entries { entry_fault 2 area.pages [] 6 kept.numbers.items ≡ None }
    requires dropped { draft.plan.dropped.items ≡ [] }
    requires plans { HasPlanRoom area draft }
    ensures area { result.area ≡ area }
    ensures second { result.second ≡ second }
    ensures turn { result.turn ≡ turn }
    ensures kept { result.kept ≡ kept }
{
    let _most = record_most(area);
    Pager {
        area,
        second,
        turn,
        kept,
        draft,
        replaced: false,
    }
}

/// The pager of an area whose newer table was read.
fn locate_newer<G: Grammar, D: Disk>(
    disk: &mut D,
    area: Area,
    kept: Kept,
    draft: Draft,
    second: bool,
    body: &[u8],
    reader: &mut G,
) -> Result<Located, Call>
    requires within { HasArea area (D.state disk.old) }
    requires memory { IsForStore area kept draft }
    requires long { length body.now + 1 ≡ PAGE }
    requires opened { is_open (open_table body.now) ≡ true }
    requires counts { OnSeen (λ s. tables_standing (layout_of area) s
        ≡ counts second (open_table body.now)) (D.state disk.old) }
    requires new { G.is_new reader.old }
    ensures located { Finds area.most (IsLocated G.fault_at area)
        (D.state disk.old) (D.state disk.new) result }
    ensures read { IfOk result (IsLocatedBy G.has_read reader.old reader.new) }
{
    let _size = disk.size();
    let kept = match load(disk, layout(area), bounds(area), kept, body, reader) {
        Ok(Loaded::Whole { kept }) => kept,
        Ok(Loaded::Faulty { at }) => {
            return Ok(Located::Faulty {
                slot: number(second),
                at,
            });
        }
        Err(call) => return Err(call),
    };
    let pager = pager_of(area, second, body[0], kept, draft);
    Ok(Located::Held { pager })
}

/// The pager of an area whose tables were read, with these gates.
pub(crate) fn locate<G: Grammar, D: Disk>(
    disk: &mut D,
    area: Area,
    kept: Kept,
    draft: Draft,
    first_gate: u8,
    second_gate: u8,
    scratch: &Scratch,
    reader: &mut G,
) -> Result<Located, Call>
    requires memory { IsForStore area kept draft }
    requires tables { HasTables area first_gate second_gate scratch.now (D.state disk.old) }
    requires new { G.is_new reader.old }
    ensures located { Finds area.most (IsLocated G.fault_at area)
        (D.state disk.old) (D.state disk.new) result }
    ensures read { IfOk result (IsLocatedBy G.has_read reader.old reader.new) }
{
    match judge(first_gate, &scratch.first, second_gate, &scratch.second) {
        Judged::Alike => Ok(Located::Faulty { slot: 1, at: 1 }),
        Judged::NoneOpen => {
            let pager = pager_of(area, true, 0, kept, draft);
            Ok(Located::Held { pager })
        }
        Judged::Newer { second: false } => {
            locate_newer(disk, area, kept, draft, false, &scratch.first, reader)
        }
        Judged::Newer { second: true } => {
            locate_newer(disk, area, kept, draft, true, &scratch.second, reader)
        }
    }
}
