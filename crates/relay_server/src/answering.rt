//! The record of a box is written.

ghost use Rattle.std.specs.Prelude.{◌≡◌, ◌<◌, ◌≤◌, length, take, slice_get, Option};
ghost use Rattle.relay_core.specs.Boxes.{Box};
ghost use Rattle.relay_core.specs.Record.{IsRecordOf, box_text};
ghost use Rattle.relay_core.specs.declared.limits.TheConstants.{RECORD_LIMIT};
ghost use Rattle.relay_server.specs.Places.{HasBoxMemory, IsBoxRoom};

use crate::areas::FIRST_AREA;
use crate::limits::RECORD_PAGES;
use dr_base::PAGE;
use relay_core::Relay;
use relay_core::laws::records;
use slot_store::lengthen;

/// Writes the record of the box at a place at the beginning of a text, which is made long enough
/// for any record of a box, and answers how many bytes it has.
pub(crate) fn write_text(relay: &Relay, place: usize, text: &mut Vec<u8>) -> usize
    requires place { place < length relay.now }
    requires memory { HasBoxMemory text.old }
    ensures len { result ≤ RECORD_LIMIT }
    ensures room { IsBoxRoom text.new.items }
    ensures text { (box : Box) → slice_get relay.now place ≡ Option.Some box
        → take result text.new.items ≡ box_text box }
    ensures record { (box : Box) → slice_get relay.now place ≡ Option.Some box
        → IsRecordOf box (take result text.new.items) }
{
    records();
    relay.lawful();
    lengthen(FIRST_AREA, text, PAGE * RECORD_PAGES as usize);
    relay.write_box(place, text)
}
