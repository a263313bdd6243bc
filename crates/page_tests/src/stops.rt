//! A record's replacing, stopped at each write and sync: what a crash leaves, and what an opening
//! makes of it.

use crate::building::record_of;
use crate::disks::bytes_of;
use crate::rows::{Row, rows};
use crate::stores::{SIZE, Texts, area, puts, room_with};
use dr_disk::{Disk, MemoryDisk, Mode};
use hex::decode;
use sha2::{Digest, Sha256};
use slot_store::SlotStore;
use std::alloc::{AllocError, Global};
use std::test::Fail;

/// How a disk may crash.
const MODES: [Mode; 5] = [
    Mode::Old,
    Mode::New,
    Mode::Fill(0),
    Mode::Fill(0xa5),
    Mode::Fill(0xff),
];

/// The SHA-256 of each image that a crash leaves, and of each disk that was opened then, one after
/// the other.
#[derive(Drop)]
struct Left {
    images: Vec<u8>,
    opened: Vec<u8>,
}

/// Opens the area, and replaces its record on a disk that stops after so many writes and syncs of
/// that. Answers whether it was cut off.
fn puts_stopped(alloc: Global, disk: &mut MemoryDisk, text: &[u8], after: u32) -> bool {
    if disk.size() < SIZE || text.len() > 188_416 {
        return false;
    }
    let Ok(mut room) = room_with(alloc, text) else {
        return false;
    };
    match SlotStore::open(alloc, disk, area(), &mut Texts) {
        Ok((mut store, _)) => {
            disk.stop_after(after);
            store.replace(disk, &mut room, text.len()).is_err()
        }
        Err(_) => false,
    }
}

/// Adds the SHA-256 of a disk's bytes.
fn add_digest(alloc: Global, disk: &mut MemoryDisk, all: &mut Vec<u8>) -> Result<(), AllocError> {
    if let Some(bytes) = bytes_of(alloc, disk)? {
        all.extend_from_slice(Sha256::digest(&bytes).as_slice())?;
    }
    Ok(())
}

/// Opens the area. Answers whether it did.
fn opens(alloc: Global, disk: &mut MemoryDisk) -> bool {
    disk.size() >= SIZE && SlotStore::open(alloc, disk, area(), &mut Texts).is_ok()
}

/// Stores these records, stops the replacing of the last by another after so many calls, and
/// crashes and opens the disk.
fn stop(
    alloc: Global,
    before: &[Row],
    next: &Row,
    after: u32,
    mode: Mode,
    left: &mut Left,
) -> Result<bool, Fail> {
    let mut disk = MemoryDisk::new(alloc, SIZE)?;
    for row in before {
        if !puts(alloc, &mut disk, &record_of(alloc, row)?) {
            return Ok(false);
        }
    }
    if !puts_stopped(alloc, &mut disk, &record_of(alloc, next)?, after) {
        return Ok(false);
    }
    let mut disk = disk.crash(mode);
    add_digest(alloc, &mut disk, &mut left.images)?;
    if !opens(alloc, &mut disk) {
        return Ok(false);
    }
    add_digest(alloc, &mut disk, &mut left.opened)?;
    Ok(true)
}

/// Stops the storing of this row at each of so many calls, and crashes in each way. Answers whether
/// each was cut off and opened.
fn stop_at_each(alloc: Global, at: usize, calls: u32, left: &mut Left) -> Result<bool, Fail> {
    let rows = rows();
    if at >= rows.len() {
        return Ok(false);
    }
    for after in 0..calls {
        for mode in MODES {
            if !stop(alloc, &rows[..at], &rows[at], after, mode, left)? {
                return Ok(false);
            }
        }
    }
    Ok(true)
}

/// Whether all images and all opened disks of it have these digests.
fn is_stopped(
    alloc: Global,
    at: usize,
    calls: u32,
    images: &str,
    opened: &str,
) -> Result<bool, Fail> {
    let mut left = Left {
        images: Vec::new(alloc),
        opened: Vec::new(alloc),
    };
    if !stop_at_each(alloc, at, calls, &mut left)? {
        return Ok(false);
    }
    Ok(
        Sha256::digest(&left.images).as_slice() == decode(alloc, images)?.as_slice()
            && Sha256::digest(&left.opened).as_slice() == decode(alloc, opened)?.as_slice(),
    )
}

// No page written and one wiped: nine calls. Two written and none wiped: ten. None written and
// three wiped: eleven.
#[test]
fn stops(rt: HostRuntime) -> Result<(), Fail> {
    let alloc = rt.alloc();
    let images = "ad0acc83719d39c31b055667b07ab9ab19b69e40e0e11f070a39588ef26a807d";
    let opened = "3d456b243429c0c54243c4b767e010b4609a6b830eb7333eb8a9d21174f582f0";
    assert!(rt; is_stopped(alloc, 2, 9, images, opened)?);
    let images = "63611ad8ad050b950636dcfd2d5864257a0fc6d2039c745774772f013168bfb6";
    let opened = "537ffb6e740f07a7b702973b2b0afc60bda92bf3e5d0e1faccbdbf31e993b085";
    assert!(rt; is_stopped(alloc, 3, 10, images, opened)?);
    let images = "5a40138372465657e5e82a245cd860159c1174183cf5abfa1d53d0c0592bd277";
    let opened = "3b6da84a25e824dc31473785d4e8c247eb12b3258a19c39322f6df7882f96e4d";
    assert!(rt; is_stopped(alloc, 7, 11, images, opened)?);
    Ok(())
}
