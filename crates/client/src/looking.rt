//! A look at a client's disk, which writes nothing.

ghost use Rattle.std.specs.Prelude.{◌≡◌, IfErr, IfOk, OnOk};
ghost use Rattle.dr_base.specs.Causes.{Rose};
ghost use Rattle.dr_disk.specs.declared.call.Call.{Call};
ghost use Rattle.dr_disk.specs.Calls.{Unwritten};
ghost use Rattle.dr_disk.specs.Spans.{IsQuiet, Span};
ghost use Rattle.dr_disk.specs.State.{OnSeen};
ghost use Rattle.slot_store.specs.Reports.{IsReport};
ghost use Rattle.slot_store.specs.Store.{HasArea};
ghost use Rattle.client.specs.Clients.{client_area};
ghost use Rattle.client.specs.Opening.{client_record_fault};

use crate::client::AREA;
use crate::cores::RecordReader;
use dr_disk::Disk;
use kem_laws::Kem;
use slot_store::{InspectError, Report, inspect};
use std::alloc::Global;

/// Reads a client's area as opening it does, and all its other pages: which tables are open, what
/// opening would find, and whether it would leave all bytes as they are. It makes reads alone.
pub fn look<K: Kem, D: Disk>(alloc: Global, disk: &mut D) -> Result<Report, InspectError>
    requires { HasArea client_area (D.state disk.old) }

    // The report is a function of the bytes that a read gives.
    ensures report { IfOk result (λ report. OnSeen
        (IsReport (client_record_fault K.mechanism) client_area report) (D.state disk.old)) }

    // Nothing is written or synced, and no crash meanwhile leaves anything else.
    ensures unwritten { Unwritten (D.state disk.old) (D.state disk.new) }
    ensures passed { (D.state disk.new).passed ≡ (D.state disk.old).passed }
    ensures any_moment { Span (D.state disk.old) (D.state disk.new) (D.state disk.old).image }

    // Each refusal has its cause.
    ensures fault { IfErr result (λ e. (call : Call) → e ≡ InspectError.StoreFault call
        → (call ≡ Call.Read)
        × Rose ((D.state disk.old).faults call) ((D.state disk.new).faults call)) }
    ensures memory { IfErr result (λ e. e ≡ InspectError.Memory → disk.new ≡ disk.old) }
    ensures quiet { OnOk result (IsQuiet (D.state disk.old) (D.state disk.new)) }
{
    let Ok(mut reader) = RecordReader::<K>::new(alloc) else {
        return Err(InspectError::Memory);
    };
    inspect(alloc, disk, AREA, &mut reader)
}
