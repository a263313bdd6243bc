//! Opening a store: a sync, the reading of both tables and of the record's pages, and the wiping of
//! all else.

ghost use Rattle.std.specs.Prelude.{◌≡◌, ◌≢◌, IfErr, IfOk, OnOk};
ghost use Rattle.dr_disk.specs.declared.call.Call.{Call};
ghost use Rattle.dr_disk.specs.State.{Fate, OnSeen};
ghost use Rattle.dr_disk.specs.Spans.{FailsLater, IsQuiet, Span};
ghost use Rattle.pages.specs.Counted.{MakesAtMost, ReadsAtMost};
ghost use Rattle.slot_store.specs.Limits.{faulted, opening_reads, openings};
ghost use Rattle.slot_store.specs.Reading.{IsEntryOrLike, IsLikeRead};
ghost use Rattle.slot_store.specs.AtRest.{IsLeft, IsReadAtRest};
ghost use Rattle.slot_store.specs.Found.{HasReadContent};
ghost use Rattle.slot_store.specs.Outcome.{IsForStore, opening_answer};
ghost use Rattle.slot_store.specs.Scratch.{IsScratch};
ghost use Rattle.slot_store.specs.Store.{HasArea, content};

use crate::area::{Area, bounds};
use crate::errors::OpenError;
use crate::outcome::{Outcome, open_read};
use crate::reading::settle_and_read;
use crate::scratch::Scratch;
use crate::store::SlotStore;
use dr_disk::{Call, Disk};
use paged_records::{Draft, Grammar, Kept, take_draft};
use std::alloc::{AllocError, Global};

/// What a store was opened with.
#[derive(Clone, Copy)]
pub enum Found {
    /// No record: all of the area is zeros.
    NoContent,
    /// A record.
    Content,
}

/// All memory that a store needs, and what opening needs besides.
pub(crate) fn take_memory(alloc: Global, area: Area) -> Result<(Kept, Draft, Scratch), AllocError>
    ensures store { IfOk result (λ memory. IsForStore area memory.0 memory.1) }
    ensures scratch { IfOk result (λ memory. IsScratch area memory.2) }
{
    let kept = Kept::none(alloc, bounds(area))?;
    let draft = take_draft(alloc, bounds(area))?;
    let scratch = Scratch::take(alloc, area)?;
    Ok((kept, draft, scratch))
}

/// What callers are told.
fn answer(outcome: Result<Outcome, Call>) -> Result<(SlotStore, Found), OpenError>
    ensures { result ≡ opening_answer outcome }
{
    match outcome {
        Ok(Outcome::Stored { pager, found }) => Ok((SlotStore { pager }, found)),
        Ok(Outcome::Refused { slot, at }) => Err(OpenError::Damaged { slot, at }),
        Err(call) => Err(OpenError::StoreFault { call }),
    }
}

impl SlotStore {
    ghost use Rattle.slot_store.specs.Opened.{IsOpened, IsRefused};

    /// Opens the store of an area: a sync, the reading of both tables and of the record's pages,
    /// and the wiping of all that doesn't count. The record is read once, by the reader that is
    /// lent. Without a record the first put will use table 0 and turn 1.
    pub fn open<G: Grammar, D: Disk>(
        alloc: Global,
        disk: &mut D,
        area: Area,
        reader: &mut G,
    ) -> Result<(SlotStore, Found), OpenError>
        requires within { HasArea area (D.state disk.old) }
        requires new { G.is_new reader.old }

        // What was read. Meanwhile, and in each ending, crashes and reads give what they gave, but
        // for what was tidied.
        ensures opened { IfOk result (λ both. IsOpened G.fault_at area
            (D.state disk.old) (D.state disk.new) both.0 both.1) }
        ensures read { IfOk result (λ both. HasReadContent G.has_read
            reader.old reader.new (content both.0)) }
        ensures any_moment { Span (D.state disk.old) (D.state disk.new)
            (IsEntryOrLike area (D.state disk.old)) }
        ensures reads { OnSeen (IsLikeRead area (D.state disk.old)) (D.state disk.new) }

        // An area that was read at rest is left as it is, after one sync.
        ensures still { IsReadAtRest area (D.state disk.old) → IsLeft
            (D.state disk.old) (D.state disk.new) result }

        // However it ends, reads are bounded, and so are writes and syncs, the one that failed among them.
        ensures looked { ReadsAtMost (opening_reads area) (D.state disk.old) (D.state disk.new) }
        ensures few { MakesAtMost (openings area) faulted
            (D.state disk.old) (D.state disk.new) result }

        // Each refusal has its cause.
        ensures refused { IfErr result (IsRefused G.fault_at area
            (D.state disk.old) (D.state disk.new)) }
        ensures memory { IfErr result (λ e. e ≡ OpenError.Memory → disk.new ≡ disk.old) }
        ensures quiet { OnOk result (IsQuiet (D.state disk.old) (D.state disk.new)) }
        ensures ahead { OnOk result (FailsLater (D.state disk.old) (D.state disk.new)) }
        ensures fate { (D.state disk.old).fate ≡ Fate.all_pass →
            IfErr result (λ e. (call : Call) → e ≢ OpenError.StoreFault call)
            × ((D.state disk.new).fate ≡ Fate.all_pass) }
    {
        let _size = disk.size();
        let Ok((kept, draft, mut scratch)) = take_memory(alloc, area) else {
            return Err(OpenError::Memory);
        };
        let (first_gate, second_gate) = match settle_and_read(disk, area, &mut scratch) {
            Ok(gates) => gates,
            Err(call) => return Err(OpenError::StoreFault { call }),
        };
        answer(open_read(
            disk,
            area,
            kept,
            draft,
            first_gate,
            second_gate,
            &mut scratch,
            reader,
        ))
    }
}
