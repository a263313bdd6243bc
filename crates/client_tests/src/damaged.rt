//! Disks whose bytes were changed: which place is told, and what is mended.

use crate::acts::{Act, SIZE, begins, new_disk, performs_all};
use crate::changes::{Change, Found, rows};
use client::{Client, OpenRefusal};
use dr_base::Side;
use dr_disk::{Disk, MemoryDisk};
use kem_laws::OpenKem;
use std::alloc::Global;

/// All bytes of a disk, where they can be read.
pub fn bytes_of(alloc: Global, disk: &mut MemoryDisk) -> Option<Vec<u8>> {
    let Ok(mut bytes) = vec![in alloc; 0; SIZE as usize] else {
        return None;
    };
    if disk.size() != SIZE || disk.read(0, &mut bytes).is_err() {
        return None;
    }
    Some(bytes)
}

/// Writes bytes over those of a disk. Answers whether it did.
fn changes(disk: &mut MemoryDisk, (at, bytes): Change) -> bool {
    disk.size() == SIZE
        && at <= SIZE
        && bytes.len() as u64 <= SIZE - at
        && disk.write_at(at, bytes).is_ok()
}

/// What an opening finds, where the disk had these bytes before it was changed; nothing where it
/// fails otherwise.
fn found(alloc: Global, disk: &mut MemoryDisk, before: &[u8]) -> Option<Found> {
    if disk.size() != SIZE {
        return None;
    }
    match Client::<OpenKem>::open(alloc, disk) {
        Err(OpenRefusal::Damaged { slot, at }) => Some(Found::Damaged(slot, at)),
        Err(OpenRefusal::NoSession) => Some(Found::NoSession),
        Err(_) => None,
        Ok(client) => {
            if client.state().outbox != 8 {
                return None;
            }
            match bytes_of(alloc, disk) {
                Some(bytes) if bytes.as_slice() == before => Some(Found::Mended),
                Some(_) => Some(Found::Newer),
                None => None,
            }
        }
    }
}

/// Whether an opening finds this on a new disk, once it is Second's, which has said eight texts of
/// 1,000 letters, with these changes.
fn is_found_on(alloc: Global, disk: &mut MemoryDisk, over: &[Change], expected: Found) -> bool {
    let says = [Act::Say(&[b'x'; 1000], 9); 8];
    if !begins(alloc, Side::Second, disk) || !performs_all(alloc, &says, disk) {
        return false;
    }
    let Some(before) = bytes_of(alloc, disk) else {
        return false;
    };
    for change in over {
        if !changes(disk, *change) {
            return false;
        }
    }
    found(alloc, disk, &before) == Some(expected)
}

/// The same on a disk of its own.
fn is_found(alloc: Global, over: &[Change], expected: Found) -> bool {
    match new_disk(alloc) {
        Ok(mut disk) => is_found_on(alloc, &mut disk, over, expected),
        Err(_) => false,
    }
}

// Second's record has three pages, 2, 4 and 6, under table 0.
#[test]
fn damaged_disks(rt: HostRuntime) {
    let alloc = rt.alloc();
    for (over, expected) in rows() {
        assert!(rt; is_found(alloc, over, expected));
    }
}
