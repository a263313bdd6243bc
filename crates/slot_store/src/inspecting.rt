//! A look at an area, which writes nothing.

ghost use Rattle.std.specs.Prelude.{◌≡◌, ◌+◌, ◌≤◌, length, IfErr, IfOk, OnOk};
ghost use Rattle.dr_base.specs.Causes.{Rose};
ghost use Rattle.dr_disk.specs.declared.call.Call.{Call};
ghost use Rattle.dr_disk.specs.State.{OnSeen};
ghost use Rattle.dr_disk.specs.Spans.{IsQuiet, Span};
ghost use Rattle.dr_disk.specs.Calls.{Unwritten};
ghost use Rattle.pages.specs.Counted.{ReadsAtMost, lookings};
ghost use Rattle.pages.specs.Finds.{Finds};
ghost use Rattle.pages.specs.Judged.{table_with};
ghost use Rattle.slot_store.specs.Areas.{layout_of};
ghost use Rattle.slot_store.specs.Limits.{inspections};
ghost use Rattle.slot_store.specs.Outcome.{IsForStore};
ghost use Rattle.slot_store.specs.Pager.{content};
ghost use Rattle.slot_store.specs.Reading.{reading_of};
ghost use Rattle.slot_store.specs.Reports.{IsReport, finding_of, gate_of};
ghost use Rattle.slot_store.specs.Scratch.{HasTables};
ghost use Rattle.slot_store.specs.Store.{HasArea};

use crate::area::Area;
use crate::errors::InspectError;
use crate::locating::{Located, locate};
use crate::looking::rests;
use crate::opening::take_memory;
use crate::pager::Pager;
use crate::reading::read_tables;
use crate::report::{Finding, Gate, Report};
use crate::scratch::Scratch;
use dr_disk::{Call, Disk};
use paged_records::{Draft, Grammar, Kept};
use pages::is_open;
use std::alloc::Global;

/// A table's gate, as it is reported.
fn gate_seen(gate: u8, body: &[u8]) -> Gate
    requires { 1 ≤ length body.now }
    ensures { result ≡ gate_of (table_with gate body.now) }
{
    if is_open(gate, body) {
        Gate::Open { turn: body[0] }
    } else {
        Gate::Closed
    }
}

/// A pager's record, as it is reported.
fn finding(pager: &Pager) -> Finding
    ensures { result ≡ finding_of (reading_of (content pager.now)) }
{
    if pager.turn == 0 {
        return Finding::Empty;
    }
    Finding::Record {
        length: pager.kept.text().len() as u32,
    }
}

/// The report of an area whose tables were read, with these gates.
fn report_read<G: Grammar, D: Disk>(
    disk: &mut D,
    area: Area,
    kept: Kept,
    draft: Draft,
    first_gate: u8,
    second_gate: u8,
    scratch: &mut Scratch,
    reader: &mut G,
) -> Result<Report, Call>
    requires new { G.is_new reader.old }
    requires memory { IsForStore area kept draft }
    requires tables { HasTables area first_gate second_gate scratch.old (D.state disk.old) }
    ensures { Finds (area.most + lookings (layout_of area)) (λ disk report. OnSeen (IsReport G.fault_at area report) disk)
        (D.state disk.old) (D.state disk.new) result }
{
    let first = gate_seen(first_gate, &scratch.first);
    let second = gate_seen(second_gate, &scratch.second);
    let pager = match locate(
        disk,
        area,
        kept,
        draft,
        first_gate,
        second_gate,
        scratch,
        reader,
    ) {
        Ok(Located::Held { pager }) => pager,
        Ok(Located::Faulty { slot, at }) => {
            return Ok(Report {
                first,
                second,
                found: Finding::Damaged { slot, at },
                rest: false,
            });
        }
        Err(call) => return Err(call),
    };
    let found = finding(&pager);
    match rests(disk, &pager, first_gate, second_gate, scratch) {
        Ok(rest) => Ok(Report {
            first,
            second,
            found,
            rest,
        }),
        Err(call) => Err(call),
    }
}

/// Reads an area as opening does, and all its other pages: which tables are open, what opening
/// would find, and whether it would leave all bytes as they are. It makes reads alone. The record
/// is read by the reader that is lent.
pub fn inspect<G: Grammar, D: Disk>(
    alloc: Global,
    disk: &mut D,
    area: Area,
    reader: &mut G,
) -> Result<Report, InspectError>
    requires within { HasArea area (D.state disk.old) }
    requires new { G.is_new reader.old }

    // The report is a function of the bytes that a read gives.
    ensures report { IfOk result (λ report. OnSeen (IsReport G.fault_at area report)
        (D.state disk.old)) }

    // Nothing is written or synced, and no crash meanwhile leaves anything else.
    ensures unwritten { Unwritten (D.state disk.old) (D.state disk.new) }
    ensures passed { (D.state disk.new).passed ≡ (D.state disk.old).passed }
    ensures reads { ReadsAtMost (inspections area) (D.state disk.old) (D.state disk.new) }
    ensures any_moment { Span (D.state disk.old) (D.state disk.new) (D.state disk.old).image }

    // Each refusal has its cause.
    ensures fault { IfErr result (λ e. (call : Call) → e ≡ InspectError.StoreFault call
        → (call ≡ Call.Read)
        × Rose ((D.state disk.old).faults call) ((D.state disk.new).faults call)) }
    ensures memory { IfErr result (λ e. e ≡ InspectError.Memory → disk.new ≡ disk.old) }
    ensures quiet { OnOk result (IsQuiet (D.state disk.old) (D.state disk.new)) }
{
    let _size = disk.size();
    let Ok((kept, draft, mut scratch)) = take_memory(alloc, area) else {
        return Err(InspectError::Memory);
    };
    let (first_gate, second_gate) = match read_tables(disk, area, &mut scratch) {
        Ok(gates) => gates,
        Err(call) => return Err(InspectError::StoreFault { call }),
    };
    match report_read(
        disk,
        area,
        kept,
        draft,
        first_gate,
        second_gate,
        &mut scratch,
        reader,
    ) {
        Ok(report) => Ok(report),
        Err(call) => Err(InspectError::StoreFault { call }),
    }
}
