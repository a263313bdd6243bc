//! A disk with a record of version 1, opened: the record in the newest version takes its place.
//! Whatever a crash leaves meanwhile opens to the same disk. The digests are an independent
//! implementation's.

use crate::acts::{ZEROS, begun, new_disk};
use crate::damaged::bytes_of;
use crate::old_disks::{are, has_digest, lays_old, opens_stopped, opens_to};
use bodies::Format;
use client::BeginRefusal;
use dr_base::Side;
use dr_disk::{Call, MemoryDisk, Mode};
use sha2::{Digest, Sha256};
use std::alloc::Global;
use std::test::Fail;

/// The disk before, and once it was opened.
const BEFORE: &str = "00fecaffeab362272ff7448702ca9ee90e07e512ce7cb82979fa808a1aa7cff6";

const AFTER: &str = "dc43e55c5f791ded709c4541a47a4e4ac5355c84cdb107d7baf10097476dcd00";

/// The images of all stops, in each mode, one digest after the other.
const IMAGES: &str = "5bec0d7911db8b02ac5bdf29c0cafcf6f9d0067e0a8dd14b4f409531ed8bab11";

/// How many writes and syncs an opening makes that replaces a record of which one page changes: its
/// own sync, and then ten.
const CALLS: u32 = 11;

/// The call of that opening that fails where the disk stops after none of them, one, and so on. All
/// reads follow the first sync.
const FAILING: [Call; 11] = [
    Call::Sync,
    Call::Read,
    Call::Write,
    Call::Sync,
    Call::Write,
    Call::Sync,
    Call::Write,
    Call::Sync,
    Call::Write,
    Call::Write,
    Call::Sync,
];

/// How a disk may crash.
const MODES: [Mode; 5] = [
    Mode::Old,
    Mode::New,
    Mode::Fill(0),
    Mode::Fill(0xa5),
    Mode::Fill(0xff),
];

/// Whether an opening replaces the record, and the next one makes a sync alone.
fn is_renewed(alloc: Global, disk: &mut MemoryDisk) -> bool {
    lays_old(alloc, disk)
        && has_digest(alloc, disk, BEFORE)
        && opens_to(alloc, disk, CALLS, AFTER)
        && opens_stopped(alloc, disk, 0) == Some(Err(Call::Sync))
        && opens_to(alloc, disk, 1, AFTER)
}

/// Whether a session that exists is found on it by a sync alone, and stays.
fn stays(alloc: Global, disk: &mut MemoryDisk) -> bool {
    if !lays_old(alloc, disk) {
        return false;
    }
    disk.fail_at(2);
    let end = begun(alloc, (Side::First, Format::Plain), &ZEROS, disk);
    disk.go_on();
    matches!(end, Err(BeginRefusal::Exists)) && has_digest(alloc, disk, BEFORE)
}

#[test]
fn renewed(rt: HostRuntime) -> Result<(), Fail> {
    let mut disk = new_disk(rt.alloc())?;
    assert!(rt; is_renewed(rt.alloc(), &mut disk));
    Ok(())
}

#[test]
fn begun_never(rt: HostRuntime) -> Result<(), Fail> {
    let mut disk = new_disk(rt.alloc())?;
    assert!(rt; stays(rt.alloc(), &mut disk));
    Ok(())
}

/// Adds the digest of a disk that a crash left, and opens it. Answers whether it did, with all as
/// it is after an opening that wasn't stopped.
fn recovers(alloc: Global, disk: &mut MemoryDisk, images: &mut Vec<u8>) -> bool {
    let Some(bytes) = bytes_of(alloc, disk) else {
        return false;
    };
    images
        .extend_from_slice(Sha256::digest(bytes.as_slice()).as_slice())
        .is_ok()
        && opens_to(alloc, disk, 100, AFTER)
}

/// Stops an opening at a write or a sync, and crashes. Answers whether the next opening recovers.
fn is_stopped(alloc: Global, (after, call): (u32, Call), mode: Mode, images: &mut Vec<u8>) -> bool {
    let Ok(mut disk) = new_disk(alloc) else {
        return false;
    };
    if !lays_old(alloc, &mut disk) || opens_stopped(alloc, &mut disk, after) != Some(Err(call)) {
        return false;
    }
    recovers(alloc, &mut disk.crash(mode), images)
}

/// The same at each of them, and in each way to crash. Answers whether the images have their
/// digest.
fn are_stopped(alloc: Global) -> bool {
    let mut images = Vec::new(alloc);
    for after in 0..FAILING.len() {
        for mode in MODES {
            if !is_stopped(alloc, (after as u32, FAILING[after]), mode, &mut images) {
                return false;
            }
        }
    }
    are(alloc, Sha256::digest(images.as_slice()).as_slice(), IMAGES)
}

#[test]
fn renewals_stopped(rt: HostRuntime) {
    assert!(rt; are_stopped(rt.alloc()));
}
