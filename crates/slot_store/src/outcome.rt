//! What an area is opened as, once its tables were read.

ghost use Rattle.std.specs.Prelude.{◌≡◌, is_some, IfOk};
ghost use Rattle.dr_disk.specs.State.{IsSettled};
ghost use Rattle.slot_store.specs.Found.{has_content};
ghost use Rattle.slot_store.specs.Outcome.{IsForStore, IsOutcomeBy, OpensStore};
ghost use Rattle.slot_store.specs.Pager.{content};
ghost use Rattle.slot_store.specs.Scratch.{HasTables};
ghost use Rattle.slot_store.specs.Settling.{MaySettle, Settles};

use crate::area::Area;
use crate::locating::{Located, locate};
use crate::opening::Found;
use crate::pager::Pager;
use crate::scratch::Scratch;
use crate::settling::{settle_empty, settle_newer};
use dr_disk::{Call, Disk};
use paged_records::{Draft, Grammar, Kept};

/// What opening comes to: a pager, or the number of a damaged table, and the place.
#[derive(Drop)]
pub(crate) enum Outcome {
    Stored { pager: Pager, found: Found },
    Refused { slot: u32, at: u64 },
}

/// Whether a pager has a record, as it is answered.
fn found_in(pager: &Pager) -> Found
    ensures { has_content result ≡ is_some (content pager.now) }
{
    if pager.turn == 0 {
        Found::NoContent
    } else {
        Found::Content
    }
}

/// Wipes what doesn't count beside a pager's record, or all where it has none. Both tables were
/// read, with these gates.
fn settle<D: Disk>(
    disk: &mut D,
    pager: &Pager,
    first_gate: u8,
    second_gate: u8,
    scratch: &mut Scratch,
) -> Result<(), Call>
    requires settling { MaySettle pager.now (D.state disk.old) }
    requires tables { HasTables pager.now.area first_gate second_gate scratch.old
        (D.state disk.old) }
    ensures { Settles pager.now (D.state disk.old) (D.state disk.new) result }
{
    let Scratch {
        first,
        second,
        room,
        named,
    } = scratch;
    if pager.turn == 0 {
        return settle_empty(
            disk,
            pager,
            first_gate,
            first,
            second_gate,
            second,
            named,
            room,
        );
    }
    if pager.second {
        settle_newer(disk, pager, first_gate, first, named, room)
    } else {
        settle_newer(disk, pager, second_gate, second, named, room)
    }
}

/// Opens the pager of an area whose tables were read, with these gates.
pub(crate) fn open_read<G: Grammar, D: Disk>(
    disk: &mut D,
    area: Area,
    kept: Kept,
    draft: Draft,
    first_gate: u8,
    second_gate: u8,
    scratch: &mut Scratch,
    reader: &mut G,
) -> Result<Outcome, Call>
    requires settled { IsSettled (D.state disk.old) }
    requires memory { IsForStore area kept draft }
    requires tables { HasTables area first_gate second_gate scratch.old (D.state disk.old) }
    requires new { G.is_new reader.old }
    ensures opens { OpensStore G.fault_at area (D.state disk.old) (D.state disk.new) result }
    ensures read { IfOk result (IsOutcomeBy G.has_read reader.old reader.new) }
{
    let pager = match locate(
        disk,
        area,
        kept,
        draft,
        first_gate,
        second_gate,
        scratch,
        reader,
    ) {
        Ok(Located::Held { pager }) => pager,
        Ok(Located::Faulty { slot, at }) => return Ok(Outcome::Refused { slot, at }),
        Err(call) => return Err(call),
    };
    let found = found_in(&pager);
    match settle(disk, &pager, first_gate, second_gate, scratch) {
        Ok(()) => Ok(Outcome::Stored { pager, found }),
        Err(call) => Err(call),
    }
}
