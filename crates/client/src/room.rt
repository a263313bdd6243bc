//! The memory of a client, all of which is taken before its disk is called.

ghost use Rattle.std.specs.Prelude.{IfOk};
ghost use Rattle.slot_store.specs.Areas.{HasRecordMemory};
ghost use Rattle.client.specs.Clients.{client_area};
ghost use Rattle.client.specs.Reading.{HasReadNothing};

use crate::client::AREA;
use crate::cores::RecordReader;
use kem_laws::Kem;
use relay_wire::FrameReader;
use slot_store::record_memory;
use std::alloc::{AllocError, Global};

/// The memory of a client, but for its store's.
#[derive(Drop)]
pub(crate) struct Room<K: Kem> {
    pub(crate) record: RecordReader<K>,
    pub(crate) text: Vec<u8>,
    pub(crate) reader: FrameReader,
    ghost size: { HasRecordMemory client_area text },
}

impl<K: Kem> Room<K> {
    /// Takes it. No record was read.
    // A function of its own, so that its room isn't set while the client is opened.
    #[inline(never)]
    pub(crate) fn new(alloc: Global) -> Result<Room<K>, AllocError>
        ensures { IfOk result (λ room. let core = room.record.room in
            HasReadNothing room.record.session core.inbox core.outbox) }
    {
        let record = RecordReader::new(alloc)?;
        let text = record_memory(alloc, AREA)?;
        let reader = FrameReader::new(alloc)?;
        Ok(Room {
            record,
            text,
            reader,
        })
    }
}
