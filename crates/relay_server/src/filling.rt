//! The boxes are loaded from their stores, and each area without a record gets an empty box's.

ghost use Rattle.std.specs.Prelude.{◌≡◌, ◌<◌, ◌≤◌, ◌+◌, ℕ, List, Option, IfErr, OnOk, length, slice_get};
ghost use Rattle.slot_store.specs.Store.{SlotStore, content};
ghost use Rattle.relay_core.specs.declared.limits.TheConstants.{RELAY_LIMIT};
ghost use Rattle.relay_server.specs.Filling.{AreFilled, AreLoaded, AreUnloaded, Fills, LoadsAt};
ghost use Rattle.relay_server.specs.Reading.{box_fault};
ghost use Rattle.relay_server.specs.Places.{HasBoxMemory};

use crate::answering::write_text;
use crate::durable::replace_at;
use crate::errors::ServerOpenError;
use dr_disk::{Call, Disk};
use relay_core::{Loaded, Relay};
use slot_store::{SlotStore, locality, resting};

/// Loads the box at a place from a record, and answers whether that has its name and its keys.
fn load_record(relay: &mut Relay, place: usize, text: &[u8]) -> Loaded
    requires inside { place < length relay.old }
    requires clean { box_fault text.now ≡ Option.None }
    ensures { LoadsAt place relay.old relay.new (Option.Some text.now) result }
{
    relay.load(place, text)
}

/// Loads the box at a place from its store, and answers whether the record has its name and its
/// keys. Without a record nothing changes.
fn load_box(relay: &mut Relay, place: usize, store: &SlotStore) -> Loaded
    requires inside { place < length relay.old }
    requires clean { (text : List ℕ) → content store.now ≡ Option.Some text
        → box_fault text ≡ Option.None }
    ensures { LoadsAt place relay.old relay.new (content store.now) result }
{
    let text = store.content();
    if text.is_empty() {
        return Loaded::Taken;
    }
    load_record(relay, place, text)
}

/// Loads each box from its store, up to the first whose record has another name or other keys.
pub(crate) fn load_boxes(relay: &mut Relay, stores: &[SlotStore]) -> Result<(), ServerOpenError>
    requires few { length relay.old ≤ RELAY_LIMIT }
    requires count { length stores.now ≡ length relay.old }
    requires clean { (k : ℕ) (store : SlotStore) (text : List ℕ)
        → slice_get stores.now k ≡ Option.Some store
        → content store ≡ Option.Some text → box_fault text ≡ Option.None }
    ensures loaded { OnOk result (AreLoaded (length relay.old) relay.old relay.new stores.now) }
    ensures other { IfErr result (AreUnloaded relay.old stores.now) }
{
    'boxes: for k in 0..stores.len() {
        match load_box(relay, k, &stores[k]) {
            Loaded::Taken => {}
            Loaded::OtherName => return Err(ServerOpenError::BoxName { k: k as u32 }),
            Loaded::OtherKeys => return Err(ServerOpenError::BoxKeys { k: k as u32 }),
        }
    }
    Ok(())
}

/// Puts the record of the box at a place, where its store has none.
fn fill_area<D: Disk>(
    relay: &Relay,
    stores: &mut [SlotStore],
    place: usize,
    text: &mut Vec<u8>,
    disk: &mut D,
) -> Result<(), Call>
    requires inside { place < length relay.now }
    requires filled { AreFilled place relay.now stores.old (D.state disk.old) }
    requires room { HasBoxMemory text.old }
    ensures fills { Fills (place + 1) relay.now stores.new (D.state disk.old) (D.state disk.new)
        result }
    ensures room { HasBoxMemory text.new }
{
    locality();
    resting();
    if !stores[place].content().is_empty() {
        return Ok(());
    }
    let len = write_text(relay, place, text);
    replace_at(stores, place, disk, text, len)
}

/// Puts the record of each box whose store has none.
pub(crate) fn fill_areas<D: Disk>(
    relay: &Relay,
    stores: &mut [SlotStore],
    text: &mut Vec<u8>,
    disk: &mut D,
) -> Result<(), Call>
    requires filled { AreFilled 0 relay.now stores.old (D.state disk.old) }
    requires room { HasBoxMemory text.old }
    ensures fills { Fills (length relay.now) relay.now stores.new (D.state disk.old)
        (D.state disk.new) result }
    ensures room { HasBoxMemory text.new }
{
    'boxes: for place in 0..stores.len() {
        match fill_area(relay, stores, place, text, disk) {
            Ok(()) => {}
            Err(call) => return Err(call),
        }
    }
    Ok(())
}
