//! A client is opened from its disk.

ghost use Rattle.std.specs.Prelude.{◌≡◌, ◌≢◌, ℕ, List, [], None, Some, Ok, IfOk, IfErr, IsOk, OnOk, false, is_some, true};
ghost use Rattle.dr_base.specs.Bytes.{AreBytes};
ghost use Rattle.dr_base.specs.Causes.{Rose};
ghost use Rattle.dr_base.specs.declared.position.Side.{Side};
ghost use Rattle.dr_disk.specs.Spans.{IsQuiet, Span};
ghost use Rattle.dr_disk.specs.State.{Always, Fate};
ghost use Rattle.dr_model.specs.Machines.Worlds.{World};
ghost use Rattle.dr_model.specs.Theorems.LawfulWorlds.{IsLawfulWorld};
ghost use Rattle.session_record.specs.Lawful.{IsLawfulClient};
ghost use Rattle.session_record.specs.Record.{record_read, record_text};
ghost use Rattle.session_record.specs.Versions.{is_newest};
ghost use Rattle.slot_store.specs.AtRest.{IsReadAtRest};
ghost use Rattle.slot_store.specs.Records.{stored_record};
ghost use Rattle.slot_store.specs.Store.{HasArea, IsOldOrNew, Rests, content};
ghost use Rattle.client.specs.Clients.{IsReady, client_area};
ghost use Rattle.client.specs.Opening.{IsAsRead, IsEntryOrAsRead, IsLeftAtRest, IsMigrated, IsReadNewest, IsClientOpened, IsUnopened, OpensIn, OpensMigrating, ReadsAsSide, open_refusal};
ghost use Rattle.client.specs.Reading.{HasReadClient};

use crate::client::{AREA, Client};
use crate::refusals::OpenRefusal;
use crate::room::Room;
use dr_disk::{Call, Disk};
use kem_laws::Kem;
use session_record::{is_newest, record_law};
use slot_store::{Found, OpenError, SlotStore, lengthen, readings, resting};
use std::alloc::Global;

/// Why a store's opening refuses a client.
pub(crate) fn refusal(error: OpenError) -> OpenRefusal
    ensures { result ≡ open_refusal error }
{
    match error {
        OpenError::Memory => OpenRefusal::Memory,
        OpenError::StoreFault { call } => OpenRefusal::StoreFault { call },
        OpenError::Damaged { slot, at } => OpenRefusal::Damaged { slot, at },
    }
}

/// The client of a store that holds a record, in whatever version, which was read.
#[inline(never)]
fn client_in<K: Kem>(room: Room<K>, store: SlotStore) -> Client<K>
    requires some { is_some (content store) ≡ true }
    requires read { (text : List ℕ) → content store ≡ Some text → let core = room.record.room in
        HasReadClient K.mechanism room.record.session core.inbox core.outbox room.record.keys text }
    ensures open { result.closed ≡ None }
    ensures store { result.store ≡ store }
    ensures read { (text : List ℕ) → content store ≡ Some text
        → record_read K.mechanism text ≡ Ok result.kept }
    ensures lawful { IsLawfulClient K.mechanism result.kept }
{
    let Room {
        record,
        text,
        reader,
    } = room;
    Client {
        core: record.into_core(),
        store,
        text,
        reader,
        closed: None,
    }
}

/// Bytes are below 256: a caller that needs this calls it.
fn are_bytes(bytes: &[u8])
    ensures { AreBytes bytes.now }
{
    let _bytes = bytes;
}

impl<K: Kem> Client<K> {
    /// Replaces the record of a client that was opened by the same in the newest version, where it
    /// is in an earlier one.
    fn renew<D: Disk>(&mut self, disk: &mut D) -> Result<(), Call>
        requires open { self.old.closed ≡ None }
        requires area { self.old.store.area ≡ client_area }
        requires within { HasArea client_area (D.state disk.old) }
        requires some { is_some (content self.old.store) ≡ true }
        requires reads { (text : List ℕ) → content self.old.store ≡ Some text
            → record_read K.mechanism text ≡ Ok self.old.kept }
        requires rests { Always (Rests self.old.store) (D.state disk.old) }
        ensures open { OnOk result (self.new.closed ≡ None) }
        ensures keeps { self.new.kept ≡ self.old.kept }
        ensures ready { OnOk result (IsReady self.new.kept self.new.store (D.state disk.new)) }
        ensures any_moment { Span (D.state disk.old) (D.state disk.new)
            (IsOldOrNew (D.state disk.old) client_area (content self.old.store)
            (Some (record_text self.old.kept))) }
        ensures still { (text : List ℕ) → content self.old.store ≡ Some text
            → is_newest text ≡ true → disk.new ≡ disk.old }
        ensures migrated { (text : List ℕ) → content self.old.store ≡ Some text
            → is_newest text ≡ false
            → IsMigrated text self.old.kept (D.state disk.old) (D.state disk.new) result }
        ensures fate { (D.state disk.old).fate ≡ Fate.all_pass → IsOk result
            × ((D.state disk.new).fate ≡ Fate.all_pass) }
        ensures quiet { OnOk result (IsQuiet (D.state disk.old) (D.state disk.new)) }
        ensures fault { IfErr result
            (λ call. Rose ((D.state disk.old).faults call) ((D.state disk.new).faults call)) }
    {
        record_law();
        let text = self.store.content();
        are_bytes(text);
        if is_newest(text) {
            return Ok(());
        }
        let long = self.core.encoded_len_now();
        lengthen(AREA, &mut self.text, long);
        let len = self.core.encode_now(&mut self.text);
        match self.store.replace(disk, &mut self.text, len) {
            Ok(()) => Ok(()),
            Err(fault) => Err(fault.call),
        }
    }

    /// Opens the client that the disk holds: a sync, the reading of its record, and the wiping of
    /// all else; then a record of an earlier version is replaced by the same in the newest one.
    /// `NoSession` exactly where no table is open, `Damaged` exactly where what was read is no
    /// record; then nothing was written. `StoreFault` only where a call on the disk failed, and
    /// with `Memory` none was made.
    pub fn open<D: Disk>(alloc: Global, disk: &mut D) -> Result<Client<K>, OpenRefusal>
        requires { HasArea client_area (D.state disk.old) }
        ensures opened { IfOk result
            (λ client. IsClientOpened K.mechanism client (D.state disk.old) (D.state disk.new)) }
        ensures unopened { IfErr result (IsUnopened D.state K.mechanism disk.old disk.new) }
        // Meanwhile, and in each ending, crashes and reads give what they gave, but for what was
        // tidied, and for the record in the newest version.
        ensures any_moment { Span (D.state disk.old) (D.state disk.new)
            (IsEntryOrAsRead K.mechanism (D.state disk.old)) }
        ensures reads { (s : List ℕ) → (D.state disk.new).seen ≡ Some s
            → IsAsRead K.mechanism (D.state disk.old) s }
        // Where all was read at rest, for a record in the newest version, no byte is written.
        ensures still { IsReadAtRest client_area (D.state disk.old)
            → IsReadNewest (D.state disk.old)
            → IsLeftAtRest (D.state disk.old) (D.state disk.new) result }
        // Where all was read at rest, for a record in an earlier version, just what replaces it is.
        ensures migrates { IsReadAtRest client_area (D.state disk.old) → (s text : List ℕ)
            → (D.state disk.old).seen ≡ Some s → stored_record client_area s ≡ Some text
            → is_newest text ≡ false
            → OpensMigrating D.state K.mechanism text disk.old disk.new result }
        // In each world that a read stands for.
        ensures in_worlds { (w : World) (side : Side) → IsLawfulWorld K.mechanism w
            → ReadsAsSide K.mechanism w side (D.state disk.old)
            → OpensIn K.mechanism w side (D.state disk.old) (D.state disk.new) result }
        ensures fate { (D.state disk.old).fate ≡ Fate.all_pass →
            IfErr result (λ e. (call : Call) → e ≢ OpenRefusal.StoreFault call)
            × ((D.state disk.new).fate ≡ Fate.all_pass) }
    {
        readings();
        resting();
        record_law();
        let Ok(mut room) = Room::<K>::new(alloc) else {
            return Err(OpenRefusal::Memory);
        };
        match SlotStore::open(alloc, disk, AREA, &mut room.record) {
            Err(error) => Err(refusal(error)),
            Ok((store, found)) => match found {
                Found::NoContent => Err(OpenRefusal::NoSession),
                Found::Content => {
                    let mut client = client_in(room, store);
                    match client.renew(disk) {
                        Ok(()) => Ok(client),
                        Err(call) => Err(OpenRefusal::StoreFault { call }),
                    }
                }
            },
        }
    }
}
