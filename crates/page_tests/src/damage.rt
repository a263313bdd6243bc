//! Damaged disks, and faults at opening.

use crate::stores::finds;
use dr_disk::{Call, Disk, MemoryDisk, SteadyDisk};
use slot_store::{Found, OpenError};
use std::alloc::Global;

/// How many bytes four pages have: two tables, and two pages.
const SIZE: u64 = 16_384;

/// Writes bytes to a disk. Answers whether it did.
fn writes(disk: &mut SteadyDisk, at: u64, bytes: &[u8]) -> bool {
    disk.size() == SIZE
        && at <= SIZE
        && bytes.len() as u64 <= SIZE - at
        && disk.write_at(at, bytes).is_ok()
}

/// Whether a disk with such tables, and this byte at the beginning of its page 2, is damaged so, in
/// which table and where; or opens so.
fn is_found(
    alloc: Global,
    first: &[u8],
    second: &[u8],
    byte: u8,
    expected: Result<bool, (u32, u64)>,
) -> bool {
    let Ok(mut disk) = SteadyDisk::new(alloc, SIZE) else {
        return false;
    };
    if !writes(&mut disk, 0, first) || !writes(&mut disk, 4096, second) {
        return false;
    }
    if !writes(&mut disk, 8192, &[byte]) {
        return false;
    }
    match finds(alloc, &mut disk, Found::Content, b"a") {
        Err(OpenError::Damaged { slot, at }) => expected == Err((slot, at)),
        Ok(is) => expected == Ok(is),
        Err(_) => false,
    }
}

// Records of one byte under table 0 or table 1; the last has none.
#[test]
fn damaged_disks(rt: HostRuntime) {
    let alloc = rt.alloc();
    let rows: [(&[u8], &[u8], u8, Result<bool, (u32, u64)>); 12] = [
        (b"\xa5\x01\0\0\0\x01\0\x02", b"\0", b'a', Ok(true)),
        (b"\0", b"\xa5\x03\0\0\0\x01\0\x02", b'a', Ok(true)),
        (b"\xa5\x01\0\0\0\x01\0\x02", b"\xa5\x01", b'a', Err((1, 1))),
        (b"\xa5\x01\0\0\x10\x01\0\x02", b"\0", b'a', Err((0, 2))),
        (b"\xa5\x01\0\0\0\x01\0\x01", b"\0", b'a', Err((0, 6))),
        (b"\xa5\x01\0\0\0\x01\0\x04", b"\0", b'a', Err((0, 6))),
        (b"\xa5\x01\0\0\0\x01\0\x02\x01", b"\0", b'a', Err((0, 8))),
        (b"\xa5\x01\0\0\0\0", b"\0", b'a', Err((0, 4096))),
        (b"\xa5\x01\0\0\0\x01\0\x03", b"\0", b'a', Ok(false)),
        (
            b"\xa5\x03\0\0\0\x01\0\x02",
            b"\xa5\x01\0\0\0\0",
            b'a',
            Err((1, 4096)),
        ),
        (b"\xa5\x03\0\0\0\x01\0\x02", b"\xa5\x02\xff", b'a', Ok(true)),
        (b"\xa5\x04\0\0\0\x01\0\x02", b"\0", b'a', Ok(false)),
    ];
    for (first, second, byte, expected) in rows {
        assert!(rt; is_found(alloc, first, second, byte, expected));
    }
}

/// Whether the area of a disk that passes `k` calls fails to open by this call.
fn fails_at(alloc: Global, k: u32, failing: Call) -> bool {
    let Ok(mut disk) = MemoryDisk::new(alloc, SIZE) else {
        return false;
    };
    disk.stop_after(k);
    match finds(alloc, &mut disk, Found::NoContent, b"") {
        Err(OpenError::StoreFault { call }) => call == failing,
        _ => false,
    }
}

/// Whether a new disk has no content at opening.
fn is_new(alloc: Global) -> bool {
    match MemoryDisk::new(alloc, SIZE) {
        Ok(mut disk) => finds(alloc, &mut disk, Found::NoContent, b"") == Ok(true),
        Err(_) => false,
    }
}

// A stop before the first sync, and one before the first read.
#[test]
fn faults_at_opening(rt: HostRuntime) {
    let alloc = rt.alloc();
    assert!(rt; fails_at(alloc, 0, Call::Sync));
    assert!(rt; fails_at(alloc, 1, Call::Read));
    assert!(rt; is_new(alloc));
}
