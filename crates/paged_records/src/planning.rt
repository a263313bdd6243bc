//! What a new record changes, planned in memory.

ghost use Rattle.std.specs.Prelude.{◌≡◌, ◌≤◌, ◌+◌, ◌*◌, [], length, take, vec_capacity, None, IfOk};
ghost use Rattle.dr_base.specs.declared.limits.TheConstants.{PAGE};
ghost use Rattle.record_pages.specs.Pages.{pages_in};
ghost use Rattle.record_pages.specs.Plans.{changed_places, dropped, numbered};
ghost use Rattle.record_pages.specs.Tables.{entry_fault};
ghost use Rattle.paged_records.specs.Bounded.{HasRecordMemory, HasText};
ghost use Rattle.paged_records.specs.Memory.{HasPlanRoom};
ghost use Rattle.paged_records.specs.Bounded.{free_in};

use crate::bounds::{Bounds, least_number, number_end, record_most};
use crate::draft::Draft;
use crate::kept::{Kept, take_over};
use dr_base::PAGE;
use record_pages::{Plan, fill_free, plan_pages};
use std::alloc::{AllocError, Global};

/// An empty plan, with room for those within bounds.
pub fn take_draft(alloc: Global, bounds: Bounds) -> Result<Draft, AllocError>
    ensures dropped { IfOk result (λ draft. draft.plan.dropped.items ≡ []) }
    ensures room { IfOk result (HasPlanRoom bounds) }
{
    let most = record_most(bounds) as usize;
    let total = number_end(bounds) as usize;
    Ok(Draft {
        plan: Plan {
            places: Vec::with_capacity(alloc, most)?,
            dropped: Vec::with_capacity(alloc, most + 1)?,
        },
        free: Vec::with_capacity(alloc, total)?,
        body: vec![in alloc; 0; PAGE - 1]?,
        zeros: vec![in alloc; 0; PAGE]?,
    })
}

/// Puts a text in place of the record in memory, and plans what of it is written and what is wiped.
pub fn replan(bounds: Bounds, kept: &mut Kept, draft: &mut Draft, text: &mut Vec<u8>, len: usize)
    requires text { HasText bounds text.old len }
    requires few { kept.old.len ≤ PAGE * bounds.most }
    requires long { HasRecordMemory bounds kept.old.bytes }
    requires entries { entry_fault bounds.least bounds.count [] 6 kept.old.numbers.items ≡ None }
    requires numbers { bounds.most ≤ vec_capacity kept.old.numbers }
    requires room { HasPlanRoom bounds draft.old }

    // The record in memory.
    ensures len { kept.new.len ≡ len }
    ensures text { take kept.new.len kept.new.bytes.items ≡ take len text.old.items }
    ensures few { kept.new.len ≤ PAGE * bounds.most }
    ensures long { HasRecordMemory bounds kept.new.bytes }
    ensures numbers { kept.new.numbers.items
        ≡ numbered (pages_in (take kept.old.len kept.old.bytes.items)) kept.old.numbers.items
        (pages_in (take len text.old.items)) (free_in bounds kept.old.numbers.items) }
    ensures entries { entry_fault bounds.least bounds.count [] 6 kept.new.numbers.items ≡ None }
    ensures number_room { bounds.most ≤ vec_capacity kept.new.numbers }

    // The room that the record before had.
    ensures given { HasRecordMemory bounds text.new }

    // The plan.
    ensures free { draft.new.free.items ≡ free_in bounds kept.old.numbers.items }
    ensures places { draft.new.plan.places.items
        ≡ changed_places 0 (pages_in (take kept.old.len kept.old.bytes.items))
        (pages_in (take len text.old.items)) }
    ensures dropped { draft.new.plan.dropped.items
        ≡ dropped (pages_in (take kept.old.len kept.old.bytes.items)) kept.old.numbers.items
        (pages_in (take len text.old.items)) }
    ensures drops { entry_fault bounds.least bounds.count [] 6 draft.new.plan.dropped.items ≡ None }
    ensures room { HasPlanRoom bounds draft.new }
{
    let least = least_number(bounds);
    let end = number_end(bounds);
    fill_free(&kept.numbers, least, end, &mut draft.free);
    plan_pages(
        &kept.bytes,
        &mut kept.numbers,
        &text[..len],
        &draft.free,
        &draft.zeros,
        &mut draft.plan,
    );
    let size = PAGE * kept.numbers.len();
    take_over(&mut kept.bytes, text, len, size);
    kept.len = len;
}
