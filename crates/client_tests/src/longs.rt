//! Long texts: their parts said, taken in any order and more than once, joined, and let go as a
//! whole, also where the disk stops.

ghost use Rattle.dr_disk.specs.MemoryDisks.{state_of};
ghost use Rattle.client.specs.Clients.{MayActOn};

use crate::acts::{Act, HI, SIZE, ZEROS, begin, begun, new_disk, packet_at, performs_all};
use crate::old_disks::are;
use crate::stops::{Row, are_told};
use bodies::Format;
use boxes::parse_part;
use client::{Client, SayRefusal};
use dr_base::{Key32, Side};
use dr_disk::{Disk, MemoryDisk};
use dr_ports::SteadyDraws;
use kem_laws::OpenKem;
use long_text::{LONG_LIMIT, LongRefusal};
use session_model::Refusal;
use sha2::{Digest, Sha256};
use std::alloc::Global;
use std::test::Fail;

/// The parts of the text "abcde" under the id 7, and one of another text under the id 8.
const AB: &[u8] = b"\x00\x00\x00\x07\x01\x03ab";

const CD: &[u8] = b"\x00\x00\x00\x07\x02\x03cd";

const E: &[u8] = b"\x00\x00\x00\x07\x03\x03e";

const OTHER: &[u8] = b"\x00\x00\x00\x08\x01\x01x";

/// Second says the last part first, the first part twice, and a text and a part of another id
/// between.
const SAID: [Act<'static>; 6] = [
    Act::Part(E),
    Act::Part(AB),
    HI,
    Act::Part(OTHER),
    Act::Part(AB),
    Act::Part(CD),
];

/// A disk on which Second has said all that.
fn said(alloc: Global) -> Option<MemoryDisk> {
    let Ok(mut disk) = new_disk(alloc) else {
        return None;
    };
    let is_so = begun(alloc, (Side::Second, Format::Receipts), &ZEROS, &mut disk).is_ok()
        && performs_all(alloc, &SAID, &mut disk);
    if is_so { Some(disk) } else { None }
}

/// Whether First takes the packet that stands at a place of a disk's outbox.
fn takes(alloc: Global, at: usize, from: &mut MemoryDisk, disk: &mut MemoryDisk) -> bool {
    match packet_at(alloc, at, from) {
        Some(packet) => performs_all(alloc, &[Act::Take(packet.as_slice())], disk),
        None => false,
    }
}

/// Whether it takes all of these, in their order.
fn takes_all(
    alloc: Global,
    places: &[usize],
    from: &mut MemoryDisk,
    disk: &mut MemoryDisk,
) -> bool {
    for &at in places {
        if !takes(alloc, at, from, disk) {
            return false;
        }
    }
    true
}

/// Whether a client's long text of an id is this.
fn gives(
    alloc: Global,
    client: &Client<OpenKem>,
    id: u32,
    wanted: Result<&[u8], LongRefusal>,
) -> bool {
    let Ok(mut room) = vec![in alloc; 0; LONG_LIMIT] else {
        return false;
    };
    let Some(into) = room.as_mut_slice().first_chunk_mut::<LONG_LIMIT>() else {
        return false;
    };
    match (client.long(id, into), wanted) {
        (Ok(len), Ok(text)) => len == text.len() && room.as_slice().starts_with(text),
        (Err(refusal), Err(other)) => refusal == other,
        _ => false,
    }
}

/// The same of a client that is opened for it.
fn is_long(
    alloc: Global,
    disk: &mut MemoryDisk,
    id: u32,
    wanted: Result<&[u8], LongRefusal>,
) -> bool {
    if disk.size() < SIZE {
        return false;
    }
    match Client::<OpenKem>::open(alloc, disk) {
        Ok(client) => gives(alloc, &client, id, wanted),
        Err(_) => false,
    }
}

/// Whether First joins the text once its last part came, says one of its own meanwhile, and lets
/// the text go: then none of it is left, and the other long text stands.
fn is_joined(alloc: Global, from: &mut MemoryDisk, disk: &mut MemoryDisk) -> bool {
    begun(alloc, (Side::First, Format::Receipts), &ZEROS, disk).is_ok()
        && is_long(alloc, disk, 7, Err(LongRefusal::NoLong))
        && takes_all(alloc, &[0, 1, 2, 3], from, disk)
        && is_long(alloc, disk, 7, Err(LongRefusal::Parts { have: 2, n: 3 }))
        && performs_all(alloc, &[HI], disk)
        && takes_all(alloc, &[4, 5], from, disk)
        && is_long(alloc, disk, 7, Ok(b"abcde"))
        && performs_all(alloc, &[Act::DoneLong(7)], disk)
        && is_long(alloc, disk, 7, Err(LongRefusal::NoLong))
        && !performs_all(alloc, &[Act::DoneLong(7)], disk)
        && is_long(alloc, disk, 8, Ok(b"x"))
}

// Both sides talk meanwhile; the parts come last first, and one of them twice.
#[test]
fn joined_and_let_go(rt: HostRuntime) -> Result<(), Fail> {
    let mut disk = new_disk(rt.alloc())?;
    let joins = match said(rt.alloc()) {
        Some(mut from) => is_joined(rt.alloc(), &mut from, &mut disk),
        None => false,
    };
    assert!(rt; joins);
    Ok(())
}

/// Whether each crash amid the letting go leaves all parts or none, and the text beside them.
fn leaves_all_or_none(alloc: Global, from: &mut MemoryDisk) -> bool {
    let (Some(e), Some(ab), Some(hi)) = (
        packet_at(alloc, 0, from),
        packet_at(alloc, 1, from),
        packet_at(alloc, 2, from),
    ) else {
        return false;
    };
    let earlier = [
        Act::Take(hi.as_slice()),
        Act::Take(ab.as_slice()),
        Act::Take(e.as_slice()),
    ];
    let row = Row {
        side: Side::First,
        earlier: &earlier,
        act: Act::DoneLong(7),
    };
    are_told(alloc, row, ((3, 0), (1, 0)))
}

#[test]
fn let_go_as_a_whole(rt: HostRuntime) {
    let leaves = match said(rt.alloc()) {
        Some(mut from) => leaves_all_or_none(rt.alloc(), &mut from),
        None => false,
    };
    assert!(rt; leaves);
}

/// Why a client says no part, if it says none.
fn refusal(
    alloc: Global,
    part: &[u8],
    client: &mut Client<OpenKem>,
    disk: &mut MemoryDisk,
) -> Option<Refusal>
    requires { MayActOn client.old (state_of disk.old) }
{
    let (Some(part), Ok(mut draws)) = (
        parse_part(part),
        SteadyDraws::new(alloc, &[Key32 { bytes: [9; 32] }]),
    ) else {
        return None;
    };
    match client.say_part(disk, &part, &mut draws) {
        Err(SayRefusal::Refused(refusal)) => Some(refusal),
        _ => None,
    }
}

/// Whether a side whose format has no receipts says no part, and changes nothing.
fn says_none(alloc: Global, format: Format, disk: &mut MemoryDisk) -> bool {
    match begin(alloc, (Side::Second, format), &ZEROS, disk) {
        Ok(mut client) => {
            refusal(alloc, AB, &mut client, disk) == Some(Refusal::NoParts)
                && client.state().outbox == 0
        }
        Err(_) => false,
    }
}

#[test]
fn parts_without_receipts(rt: HostRuntime) -> Result<(), Fail> {
    let mut plain = new_disk(rt.alloc())?;
    assert!(rt; says_none(rt.alloc(), Format::Plain, &mut plain));
    let mut padded = new_disk(rt.alloc())?;
    assert!(rt; says_none(rt.alloc(), Format::Padded, &mut padded));
    Ok(())
}

/// The key of the packets below.
const KEY: Key32 = Key32 {
    bytes: [
        0x01, 0x23, 0x45, 0x67, 0x89, 0xab, 0xcd, 0xef, 0x01, 0x23, 0x45, 0x67, 0x89, 0xab, 0xcd,
        0xef, 0x01, 0x23, 0x45, 0x67, 0x89, 0xab, 0xcd, 0xef, 0x01, 0x23, 0x45, 0x67, 0x89, 0xab,
        0xcd, 0xef,
    ],
};

/// The digests of the packets of these parts, by another implementation.
const PACKETS: [(&[u8], &str); 2] = [
    (
        b"\x00\x00\x00\x07\x01\x02ab",
        "b42958162b35ffce7c9d730fbbf5fa52670e812758f17fa4ce50862b0800bbe0",
    ),
    (
        b"\x00\x00\x00\x07\x02\x02",
        "3572d0fedbb2472d1f744754698020293ca35b60f127c63d24ab1b439a010db2",
    ),
];

/// Whether the packet at a place of an outbox has this digest.
fn is_packet(alloc: Global, at: usize, disk: &mut MemoryDisk, hexed: &str) -> bool {
    match packet_at(alloc, at, disk) {
        Some(packet) => are(alloc, Sha256::digest(packet.as_slice()).as_slice(), hexed),
        None => false,
    }
}

/// Whether Second's packets of these parts are as the other implementation makes them.
fn are_packets(alloc: Global, disk: &mut MemoryDisk) -> bool {
    if begun(alloc, (Side::Second, Format::Receipts), &KEY, disk).is_err() {
        return false;
    }
    for (at, (part, digest)) in PACKETS.iter().enumerate() {
        if !performs_all(alloc, &[Act::Part(part)], disk) || !is_packet(alloc, at, disk, digest) {
            return false;
        }
    }
    true
}

#[test]
fn packets_of_parts(rt: HostRuntime) -> Result<(), Fail> {
    let mut disk = new_disk(rt.alloc())?;
    assert!(rt; are_packets(rt.alloc(), &mut disk));
    Ok(())
}
