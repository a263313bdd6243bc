//! A side that sends receipts learns which of its texts were opened.

use crate::acts::{Act, HI, SIZE, ZEROS, begun, new_disk, packet_at, performs_all};
use bodies::Format;
use client::Client;
use dr_base::{Position, Side};
use dr_disk::{Disk, MemoryDisk};
use kem_laws::OpenKem;
use session_model::Items;
use std::alloc::Global;
use std::test::Fail;

/// Whether a client has this many texts in its inbox and packets in its outbox, and just these own
/// texts wait, one at the most.
fn shows(
    alloc: Global,
    disk: &mut MemoryDisk,
    (texts, packets, one): (u32, u32, Option<Position>),
) -> bool {
    if disk.size() < SIZE {
        return false;
    }
    match Client::<OpenKem>::open(alloc, disk) {
        Ok(client) => {
            client.standing(Items::Texts) == texts
                && client.standing(Items::Packets) == packets
                && client.waiting() == one.is_some() as u32
                && client.awaiting(0) == one
                && client.awaiting(1).is_none()
        }
        Err(_) => false,
    }
}

/// First takes the packet of a text, and answers.
fn answer(alloc: Global, packet: &[u8]) -> Option<Vec<u8>> {
    let Ok(mut disk) = new_disk(alloc) else {
        return None;
    };
    let is_so = begun(alloc, (Side::First, Format::Receipts), &ZEROS, &mut disk).is_ok()
        && performs_all(alloc, &[Act::Take(packet)], &mut disk)
        && shows(alloc, &mut disk, (1, 0, None))
        && performs_all(alloc, &[HI], &mut disk);
    if is_so {
        packet_at(alloc, 0, &mut disk)
    } else {
        None
    }
}

/// First's answer to a disk's packet.
fn answer_to(alloc: Global, disk: &mut MemoryDisk) -> Option<Vec<u8>> {
    match packet_at(alloc, 0, disk) {
        Some(packet) => answer(alloc, packet.as_slice()),
        None => None,
    }
}

/// Whether Second says a text, which waits until the answer to it is taken.
fn learns(alloc: Global, disk: &mut MemoryDisk) -> bool {
    let waits = begun(alloc, (Side::Second, Format::Receipts), &ZEROS, disk).is_ok()
        && performs_all(alloc, &[HI], disk)
        && shows(alloc, disk, (0, 1, Some(Position { epoch: 0, index: 1 })));
    if !waits {
        return false;
    }
    match answer_to(alloc, disk) {
        Some(answer) => {
            performs_all(alloc, &[Act::Take(answer.as_slice())], disk)
                && shows(alloc, disk, (1, 1, None))
        }
        None => false,
    }
}

#[test]
fn a_text_is_known_to_be_opened(rt: HostRuntime) -> Result<(), Fail> {
    let mut disk = new_disk(rt.alloc())?;
    assert!(rt; learns(rt.alloc(), &mut disk));
    Ok(())
}
