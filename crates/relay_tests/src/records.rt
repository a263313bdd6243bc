//! A worked record of a box, with each of its faults, and what loading it gives.

ghost use Rattle.std.specs.Prelude.{◌≡◌, ◌<◌, ◌≤◌, length, IsOk};
ghost use Rattle.relay_core.specs.declared.limits.TheConstants.{RECORD_LIMIT};
ghost use Rattle.relay_core.specs.Record.{box_read};

use relay_core::{BoxSpec, Loaded, RECORD_LIMIT, Relay, check_box};
use relay_wire::Name;
use std::alloc::Global;

/// The record of the box `a` with the packet 07, the first that was posted, in the first version,
/// and a byte more.
const RECORD: [u8; 24] = *b"\x01\x01a\0\0\0\0\0\0\0\x01\x01\0\0\0\0\0\0\0\x01\0\x01\x07\0";

/// The length of what is looked at, a place, the byte that is put there, and the place of the
/// fault.
const FAULTS: [(usize, usize, u8, u32); 13] = [
    (23, 0, 2, 13),
    (23, 0, 3, 0),
    (23, 1, 0, 1),
    (23, 1, 41, 1),
    (23, 2, b'A', 2),
    (2, 0, 1, 2),
    (23, 11, 65, 11),
    (23, 19, 0, 12),
    (23, 19, 2, 12),
    (23, 21, 0, 20),
    (23, 20, 32, 20),
    (22, 0, 1, 22),
    (24, 0, 1, 23),
];

/// Whether the record's fault is there when a byte is put at a place of it.
fn has_fault(record: [u8; 24], len: usize, place: usize, byte: u8, at: u32) -> bool {
    if len > 24 || place > 23 {
        return false;
    }
    let mut text = record;
    text[place] = byte;
    check_box(&text[..len]) == Err(at)
}

/// Whether the record has each of its faults.
fn has_faults() -> bool {
    for (len, place, byte, at) in FAULTS {
        if !has_fault(RECORD, len, place, byte, at) {
            return false;
        }
    }
    true
}

/// Loads a record into the box at a place, and writes the record of that box.
fn load_and_write(relay: &mut Relay, place: usize, text: &[u8], out: &mut [u8]) -> (Loaded, usize)
    requires inside { place < length relay.old }
    requires record { IsOk (box_read text.now) }
    requires room { RECORD_LIMIT ≤ length out.old }
    ensures { length relay.new ≡ length relay.old }
{
    let loaded = relay.load(place, text);
    let len = relay.write_box(place, out);
    (loaded, len)
}

/// What loading a text into the boxes `b` and `a` gives, and how long the record of `a` is then;
/// nothing where the text is no record.
fn loads(alloc: Global, text: &[u8], out: &mut [u8]) -> Option<(Loaded, Loaded, usize)>
    requires { RECORD_LIMIT ≤ length out.old }
{
    let Some(a) = Name::new(b"a") else {
        return None;
    };
    let Some(b) = Name::new(b"b") else {
        return None;
    };
    let specs = [
        BoxSpec {
            name: b,
            keys: None,
        },
        BoxSpec {
            name: a,
            keys: None,
        },
    ];
    let Ok(mut relay) = Relay::new(alloc, &specs) else {
        return None;
    };
    let Ok(()) = check_box(text) else {
        return None;
    };
    let (first, _len) = load_and_write(&mut relay, 0, text, out);
    let (second, len) = load_and_write(&mut relay, 1, text, out);
    Some((first, second, len))
}

/// The same box in the version that is written, which says that it has no guard.
const WRITTEN: &[u8] = b"\x02\x01a\0\0\0\0\0\0\0\0\x01\x01\0\0\0\0\0\0\0\x01\0\x01\x07";

/// Whether the record is loaded into the box `a` alone, and written anew.
fn is_loaded(alloc: Global) -> bool {
    let Ok(mut out) = vec![in alloc; 0; RECORD_LIMIT] else {
        return false;
    };
    let (record, _) = RECORD.split_at(23);
    match loads(alloc, record, out.as_mut_slice()) {
        Some((Loaded::OtherName, Loaded::Taken, 24)) => out.get(..24) == Some(WRITTEN),
        _ => false,
    }
}

#[test]
fn a_record_and_its_faults(rt: HostRuntime) {
    assert!(rt; has_faults());
    assert!(rt; is_loaded(rt.alloc()));
}
