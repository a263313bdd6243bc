//! A relay's boxes are opened from a disk: a look, and then a settling.

ghost use Rattle.relay_server.specs.Areas.{HasLooked};
ghost use Rattle.relay_server.specs.Looking.{IsUnsettled, LooksAt, Settles};
ghost use Rattle.relay_server.specs.Places.{HasRoomFor};

use crate::areas::{FIRST_AREA, open_areas};
use crate::durable::DurableBoxes;
use crate::errors::ServerOpenError;
use crate::filling::{fill_areas, load_boxes};
use dr_disk::{Call, Disk};
use relay_core::{BoxSpec, Relay};
use slot_store::{locality, readings, record_memory};
use std::alloc::Global;

impl DurableBoxes {
    /// Looks at the boxes of these specs, 1 to 16 and no two of one name: each lives in the area of
    /// its place. The areas are opened in order, and then their records are loaded. No record is
    /// put.
    ///
    /// `Damaged` exactly where an area that was read is damaged. `BoxName` and `BoxKeys` exactly
    /// where none is, and one has a record of another name, or of the name with other keys: the
    /// first one that has either, by what was read. `StoreFault` only where a call on the disk
    /// failed. Memory may be wanting for an area once those before it were opened.
    pub fn look<D: Disk>(
        alloc: Global,
        disk: &mut D,
        specs: &[BoxSpec],
    ) -> Result<DurableBoxes, ServerOpenError>
        requires { HasRoomFor specs.now (D.state disk.old) }
        ensures { LooksAt specs.now (D.state disk.old) (D.state disk.new) result }
    {
        locality();
        readings();
        let Ok(mut relay) = Relay::new(alloc, specs) else {
            return Err(ServerOpenError::Memory);
        };
        let Ok(text) = record_memory(alloc, FIRST_AREA) else {
            return Err(ServerOpenError::Memory);
        };
        let stores = match open_areas(alloc, disk, specs.len()) {
            Ok(stores) => stores,
            Err(error) => return Err(error),
        };
        match load_boxes(&mut relay, &stores) {
            Ok(()) => {}
            Err(error) => return Err(error),
        }
        Ok(DurableBoxes {
            relay,
            stores,
            text,
        })
    }

    /// Gives each area without a record an empty box's.
    pub fn settle<D: Disk>(&mut self, disk: &mut D) -> Result<(), Call>
        requires { IsUnsettled self.old (D.state disk.old) }
        ensures { Settles self.old (λ _. self.new) (D.state disk.old) (D.state disk.new) result }
    {
        fill_areas(&self.relay, &mut self.stores, &mut self.text, disk)
    }
}
