//! A client is begun on a disk that holds none.

ghost use Rattle.std.specs.Prelude.{◌≡◌, ◌≢◌, ◌⊎◌, ℕ, List, None, Some, IfOk, IfErr, OnOk, IsOk};
ghost use Rattle.dr_base.specs.Causes.{Rose};
ghost use Rattle.dr_disk.specs.Spans.{IsQuiet, Span};
ghost use Rattle.dr_disk.specs.State.{Always, Fate};
ghost use Rattle.dr_disk.specs.declared.call.Call.{Call};
ghost use Rattle.bodies.specs.declared.format.Format.{Format};
ghost use Rattle.dr_model.specs.Conversations.Formats.{formats_of};
ghost use Rattle.dr_model.specs.Machines.Worlds.{opening_world};
ghost use Rattle.session_record.specs.Record.{record_text};
ghost use Rattle.slot_store.specs.Areas.{HasRecordMemory};
ghost use Rattle.slot_store.specs.Reading.{IsLikeRead};
ghost use Rattle.slot_store.specs.Store.{IsOldOrNew, HasArea, Rests, content};
ghost use Rattle.client.specs.Beginning.{IsClientBegun, IsEntryOrFirst, IsFirst, IsUnbegun, begin_of, begin_refusal};
ghost use Rattle.client.specs.Clients.{IsReady, client_area};
ghost use Rattle.client.specs.InWorlds.{IsIn};

use crate::client::{AREA, Client};
use crate::cores::Core;
use crate::refusals::BeginRefusal;
use crate::room::Room;
use bodies::Format;
use dr_base::{Key32, Side};
use dr_disk::{Call, Disk};
use dr_model::both_sides_follow;
use kem_laws::{Kem, NoPair, laws};
use relay_wire::FrameReader;
use slot_store::{Found, OpenError, SlotStore, lengthen, readings};
use std::alloc::Global;

/// Keeps the first record of a core.
fn first<K: Kem, D: Disk>(
    core: Core<K>,
    mut text: Vec<u8>,
    reader: FrameReader,
    mut store: SlotStore,
    disk: &mut D,
) -> Result<Client<K>, Call>
    requires room { HasRecordMemory client_area text }
    requires none { content store ≡ None }
    requires area { store.area ≡ client_area }
    requires within { HasArea client_area (D.state disk.old) }
    requires rests { Always (Rests store) (D.state disk.old) }
    ensures open { IfOk result (λ client. client.closed ≡ None) }
    ensures keeps { IfOk result (λ client. client.kept ≡ core) }
    ensures ready { IfOk result (λ client. IsReady client.kept client.store (D.state disk.new)) }
    ensures any_moment { Span (D.state disk.old) (D.state disk.new)
        (IsOldOrNew (D.state disk.old) client_area None (Some (record_text core))) }
    ensures fate { (D.state disk.old).fate ≡ Fate.all_pass → IsOk result
        × ((D.state disk.new).fate ≡ Fate.all_pass) }
    ensures quiet { OnOk result (IsQuiet (D.state disk.old) (D.state disk.new)) }
    ensures fault { IfErr result
        (λ call. Rose ((D.state disk.old).faults call) ((D.state disk.new).faults call)) }
{
    let long = core.encoded_len_now();
    lengthen(AREA, &mut text, long);
    let len = core.encode_now(&mut text);
    match store.replace(disk, &mut text, len) {
        Err(fault) => Err(fault.call),
        Ok(()) => Ok(Client {
            core,
            store,
            text,
            reader,
            closed: None,
        }),
    }
}

/// Why a store's opening refuses a client that is begun.
fn refusal(error: OpenError) -> BeginRefusal
    ensures { result ≡ begin_refusal error }
{
    match error {
        OpenError::Memory => BeginRefusal::Memory,
        OpenError::StoreFault { call } => BeginRefusal::StoreFault { call },
        OpenError::Damaged { slot, at } => BeginRefusal::Damaged { slot, at },
    }
}

impl<K: Kem> Client<K> {
    /// Begins the session of a side, which seals its texts in this format, on a disk that holds
    /// none: the disk is opened, and the first record is put. `Exists` exactly where a table is open
    /// and its record reads, `Damaged` exactly where what was read is no record; then nothing was
    /// written. `NoPair` exactly where the agreement seed of the key has none. `StoreFault` only
    /// where a call on the disk failed, and with `Memory` none was made.
    pub fn begin<D: Disk>(
        alloc: Global,
        disk: &mut D,
        side: Side,
        format: Format,
        key: &Key32,
    ) -> Result<Client<K>, BeginRefusal>
        requires { HasArea client_area (D.state disk.old) }
        ensures begun { IfOk result
            (λ client. IsClientBegun K.mechanism (begin_of side format key.now) client
            (D.state disk.old) (D.state disk.new)) }
        ensures unbegun { IfErr result
            (IsUnbegun D.state K.mechanism (begin_of side format key.now) disk.old disk.new) }
        // Meanwhile, and in each ending: what was read, but for what was tidied, or the first
        // record, where that held none.
        ensures any_moment { Span (D.state disk.old) (D.state disk.new)
            (IsEntryOrFirst K.mechanism (begin_of side format key.now) (D.state disk.old)) }
        ensures reads { (s : List ℕ) → (D.state disk.new).seen ≡ Some s
            → IsLikeRead client_area (D.state disk.old) s
            ⊎ IsFirst K.mechanism (begin_of side format key.now) (D.state disk.old) s }
        // It is a side of the world in which the conversation begins, whichever the peer's format.
        ensures in_worlds { IfOk result
            (λ client. (other : Format) → IsIn K.mechanism
            (opening_world key.now.bytes (formats_of side format other)) side client) }
        ensures fate { (D.state disk.old).fate ≡ Fate.all_pass →
            IfErr result (λ e. (call : Call) → e ≢ BeginRefusal.StoreFault call)
            × ((D.state disk.new).fate ≡ Fate.all_pass) }
    {
        laws::<K>();
        both_sides_follow();
        readings();
        let Ok(mut room) = Room::<K>::new(alloc) else {
            return Err(BeginRefusal::Memory);
        };
        match SlotStore::open(alloc, disk, AREA, &mut room.record) {
            Err(error) => Err(refusal(error)),
            Ok((store, found)) => match found {
                Found::Content => Err(BeginRefusal::Exists),
                Found::NoContent => {
                    let Room {
                        record,
                        text,
                        reader,
                    } = room;
                    match record.room.begin(side, format, key) {
                        Err(NoPair) => Err(BeginRefusal::NoPair),
                        Ok(core) => match first(core, text, reader, store, disk) {
                            Err(call) => Err(BeginRefusal::StoreFault { call }),
                            Ok(client) => Ok(client),
                        },
                    }
                }
            },
        }
    }
}
