//! The disk over a file: it is made and locked when it is first needed, and takes its room in
//! steps.

use crate::disks::{seen, works};
use dr_disk::Disk;
use file_disk::{FileDisk, Sharing};
use std::fs;
use std::os::unix::fs::PermissionsExt;

/// Whether a disk reads as zeros and is synced.
fn is_blank<D: Disk>(disk: &mut D) -> bool {
    seen(disk) == [0; 4] && disk.sync().is_ok()
}

/// Whether a disk reads what was written, and the one that looked before there was a file fails to
/// write.
fn is_late<D: Disk>(reads: &mut D, late: &mut D) -> bool {
    seen(reads) == [0, 5, 6, 0] && late.size() == 4 && late.write_at(0, &[1]).is_err()
}

/// Whether the file's mode is 600.
fn is_private(rt: &HostRuntime, path: &str) -> bool {
    match fs::metadata(rt, path) {
        Ok(metadata) => metadata.permissions().mode() & 0o777 == 0o600,
        Err(_) => false,
    }
}

/// Whether there is no file at a path.
pub fn is_absent(rt: &HostRuntime, path: &str) -> bool {
    matches!(fs::exists(rt, path), Ok(false))
}

/// A disk of four bytes over the file of the test.
fn file_disk(rt: &HostRuntime, sharing: Sharing) -> FileDisk<'_, HostRuntime> {
    FileDisk::new(rt, "disk/state", 4, 0, sharing)
}

/// Whether a disk works, and another one over its file, which it would have alone, fails.
fn lock<D: Disk>(writes: &mut D, waits: &mut D) -> bool {
    works(writes) && waits.sync().is_err()
}

/// Whether that is so of the file of the test.
fn is_locked(rt: &HostRuntime) -> bool {
    let mut writes = file_disk(rt, Sharing::InTurn);
    let mut waits = file_disk(rt, Sharing::Alone);
    lock(&mut writes, &mut waits)
}

/// Whether the file of these disks is made by the first write, locked, and private.
fn make<D: Disk>(rt: &HostRuntime, late: &mut D, reads: &mut D) -> bool {
    is_blank(late)
        && is_absent(rt, "disk/state")
        && is_locked(rt)
        && is_private(rt, "disk/state")
        && is_late(reads, late)
}

/// Whether that is so of the file of the test.
fn is_made(rt: &HostRuntime) -> bool {
    let mut late = file_disk(rt, Sharing::Alone);
    let mut reads = file_disk(rt, Sharing::InTurn);
    make(rt, &mut late, &mut reads)
}

/// Whether a folder is made.
pub fn makes_folder(rt: &HostRuntime, path: &str) -> bool {
    fs::create_dir(rt, path).is_ok()
}

/// Whether a folder is removed.
pub fn removes_folder(rt: &HostRuntime, path: &str) -> bool {
    fs::remove_dir_all(rt, path).is_ok()
}

#[test]
fn adapter_file(rt: HostRuntime) {
    assert!(rt; makes_folder(&rt, "disk"));
    assert!(rt; is_made(&rt));
    assert!(rt; removes_folder(&rt, "disk"));
}

/// Whether a file has this many bytes.
fn has_length(rt: &HostRuntime, path: &str, bytes: u64) -> bool {
    match fs::metadata(rt, path) {
        Ok(metadata) => metadata.len() == bytes,
        Err(_) => false,
    }
}

/// Whether a write of one byte at this place passes, and leaves a file of so many bytes.
fn grows<D: Disk>(rt: &HostRuntime, disk: &mut D, at: u64, bytes: u64) -> bool {
    disk.size() == 10
        && at < 10
        && disk.write_at(at, &[7]) == Ok(())
        && has_length(rt, "steps", bytes)
}

/// Whether these bytes are written to a file.
pub fn is_written(rt: &HostRuntime, path: &str, bytes: &[u8]) -> bool {
    fs::write(rt, path, bytes).is_ok()
}

/// Whether a file holds these bytes.
fn holds(rt: &HostRuntime, path: &str, expected: &[u8]) -> bool {
    match fs::read(rt, path) {
        Ok(bytes) => bytes.as_slice() == expected,
        Err(_) => false,
    }
}

/// Whether a disk of ten bytes with steps of four grows so.
fn grows_in_steps<D: Disk>(rt: &HostRuntime, disk: &mut D) -> bool {
    grows(rt, disk, 1, 4)
        && grows(rt, disk, 4, 8)
        && grows(rt, disk, 9, 10)
        && grows(rt, disk, 0, 10)
}

/// Whether that is so of a disk whose file has three bytes before it.
fn takes_room(rt: &HostRuntime) -> bool {
    let mut disk = FileDisk::new(rt, "steps", 10, 4, Sharing::InTurn);
    is_written(rt, "steps", b"old") && grows_in_steps(rt, &mut disk)
}

/// Whether a disk of ten bytes with steps of four behind a head of one grows so.
fn grows_behind_its_head<D: Disk>(rt: &HostRuntime, disk: &mut D) -> bool {
    grows(rt, disk, 0, 3)
        && grows(rt, disk, 4, 5)
        && grows(rt, disk, 5, 9)
        && grows(rt, disk, 9, 10)
}

/// Whether that is so of a disk whose file has three bytes before it.
fn takes_room_behind(rt: &HostRuntime) -> bool {
    let mut disk = FileDisk::new(rt, "steps", 10, 4, Sharing::InTurn).with_head(1);
    is_written(rt, "steps", b"old") && grows_behind_its_head(rt, &mut disk)
}

#[test]
fn takes_its_room_in_steps(rt: HostRuntime) {
    assert!(rt; takes_room(&rt));
    assert!(rt; holds(&rt, "steps", b"\x07\x07d\0\x07\0\0\0\0\x07"));
    assert!(rt; takes_room_behind(&rt));
    assert!(rt; fs::remove_file(&rt, "steps").is_ok());
}
