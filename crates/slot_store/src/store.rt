//! A store that is open.

ghost use Rattle.std.specs.Prelude.{◌≡◌, take, Option, OnOk};
ghost use Rattle.dr_disk.specs.State.{Always};
ghost use Rattle.dr_disk.specs.Called.{Called};
ghost use Rattle.slot_store.specs.Areas.{HasRecordMemory, HasText};
ghost use Rattle.pages.specs.Runs.{FailsBy};
ghost use Rattle.slot_store.specs.Stops.{call_after, calls_of};

use crate::errors::StoreFault;
use crate::pager::Pager;
use dr_disk::Disk;
use std::marker::Model;

/// A store over an area of a disk, in memory that was taken at opening. A contract sees its area,
/// its record, and where that lies.
#[derive(Drop)]
pub struct SlotStore {
    pub(crate) pager: Pager,
}

impl Model for SlotStore {
    ghost use Rattle.slot_store.specs.Pager.{store_seen};
    ghost use Rattle.slot_store.specs.Store.{SlotStore as Stored};

    ghost Value = { Stored };

    ghost view = { λ s. store_seen s.pager };
}

impl SlotStore {
    ghost use Rattle.slot_store.specs.Kept.{content_or_empty};
    ghost use Rattle.slot_store.specs.Putting.{HasReplaced, IsNext, Replaces, call_of};
    ghost use Rattle.slot_store.specs.Store.{content, Rests, HasArea};

    /// The record that was opened or put last; empty where there is none.
    pub fn content(&self) -> &[u8]
        ensures { result.now ≡ content_or_empty (content self.now) }
    {
        self.pager.content()
    }

    /// Replaces the record by the first `len` bytes of a text: a put, and then a retire. The text's
    /// room is taken over with it, and the room of the record before is handed back: how long it is
    /// and what it holds isn't said, but `lengthen` makes it a room for a text again.
    pub fn replace<D: Disk>(
        &mut self,
        disk: &mut D,
        text: &mut Vec<u8>,
        len: usize,
    ) -> Result<(), StoreFault>
        requires text { HasText self.old.area text.old len }
        requires within { HasArea self.old.area (D.state disk.old) }
        requires at_rest { Always (Rests self.old) (D.state disk.old) }

        // Each crash meanwhile leaves the old record or the new, and after a call that failed it is
        // known which; once it is done, the area is at rest.
        ensures replaces { Replaces self.old.area
            (content self.old) (Option.Some (take len text.old.items))
            (D.state disk.old) (D.state disk.new) result }
        ensures done { OnOk result (Always (HasReplaced self.old self.new (take len text.old.items)
            (D.state disk.old)) (D.state disk.new)) }
        ensures holds { OnOk result (content self.new ≡ Option.Some (take len text.old.items)) }
        ensures next { IsNext self.old self.new (take len text.old.items) }
        ensures room { HasRecordMemory self.old.area text.new }

        // How the calls went.
        ensures calls { Called
            (calls_of (content self.old) (Option.Some (take len text.old.items))) call_of
            (D.state disk.old) (D.state disk.new) result }
        ensures kind { FailsBy call_of
            (call_after (content self.old) (Option.Some (take len text.old.items)))
            (D.state disk.old) (D.state disk.new) result }
    {
        match self.pager.put(disk, text, len) {
            Ok(()) => {}
            Err(fault) => return Err(fault),
        }
        match self.pager.retire(disk) {
            Ok(()) => {}
            Err(fault) => return Err(fault),
        }
        Ok(())
    }
}
