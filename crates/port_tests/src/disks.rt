//! Each disk in memory once: the constructors with ample memory, a stop, each call that is told to
//! fail, and the three kinds of crashes.

use dr_disk::{Disk, MemoryDisk, Mode, RecordingDisk, SteadyDisk, write_synced};
use std::alloc::Global;

/// Writes, syncs and reads back on a disk of four bytes.
pub fn works<D: Disk>(disk: &mut D) -> bool {
    let mut bytes = [9; 4];
    if disk.size() != 4 {
        return false;
    }
    if write_synced(disk, 1, &[5, 6]).is_err() || disk.size() != 4 {
        return false;
    }
    disk.read(0, &mut bytes).is_ok() && bytes == [0, 5, 6, 0]
}

/// What a disk of four bytes reads.
pub fn seen<D: Disk>(disk: &mut D) -> [u8; 4] {
    let mut bytes = [9; 4];
    if disk.size() == 4 && disk.read(0, &mut bytes).is_ok() {
        return bytes;
    }
    [8; 4]
}

/// Whether a disk that never fails works.
fn is_steady(alloc: Global) -> bool {
    match SteadyDisk::new(alloc, 4) {
        Ok(mut disk) => works(&mut disk),
        Err(_) => false,
    }
}

/// Whether a disk for recordings of two calls works, and fails at the third.
fn records(alloc: Global) -> bool {
    match RecordingDisk::new(alloc, 4, 2, 2) {
        Ok(mut disk) => works(&mut disk) && disk.sync().is_err(),
        Err(_) => false,
    }
}

/// Whether a disk works, stops, and reads the same when it goes on.
fn stops(disk: &mut MemoryDisk) -> bool {
    if !works(disk) {
        return false;
    }
    disk.stop_after(0);
    let fails = disk.size() == 4 && disk.write_at(0, &[3, 4]).is_err();
    disk.go_on();
    fails && seen(disk) == [0, 5, 6, 0]
}

/// Whether a disk that crashes in this mode reads so.
fn crashes(disk: MemoryDisk, mode: Mode, left: [u8; 4]) -> bool {
    seen(&mut disk.crash(mode)) == left
}

/// Whether a disk that stops, and then crashes in this mode, reads so.
fn leaves(alloc: Global, mode: Mode, left: [u8; 4]) -> bool {
    match MemoryDisk::new(alloc, 4) {
        Ok(mut disk) => stops(&mut disk) & crashes(disk, mode, left),
        Err(_) => false,
    }
}

/// Which of a write, a sync, a write and a sync pass on a disk of four bytes.
fn passes(disk: &mut MemoryDisk) -> [bool; 4] {
    if disk.size() != 4 {
        return [false; 4];
    }
    let first = disk.write_at(0, &[3, 4]).is_ok();
    let second = disk.sync().is_ok();
    let third = disk.write_at(2, &[7, 8]).is_ok();
    [first, second, third, disk.sync().is_ok()]
}

/// The number of the call that fails, which pass, what is read then, and what a crash leaves.
type Row = (u32, [bool; 4], [u8; 4], [u8; 4]);

/// Whether a disk that works comes to that.
fn is_told(disk: &mut MemoryDisk, (k, passing, read, _): Row) -> bool {
    if !works(disk) || k == 0 {
        return false;
    }
    disk.fail_at(k);
    passes(disk) == passing && seen(disk) == read
}

/// Whether a new disk comes to a row.
fn fails(alloc: Global, row: Row) -> bool {
    match MemoryDisk::new(alloc, 4) {
        Ok(mut disk) => is_told(&mut disk, row) & crashes(disk, Mode::Old, row.3),
        Err(_) => false,
    }
}

/// What comes of each call that fails.
const ROWS: [Row; 5] = [
    (1, [false, true, true, true], [0, 5, 7, 8], [0, 5, 7, 8]),
    (2, [true, false, true, true], [3, 4, 7, 8], [3, 4, 7, 8]),
    (3, [true, true, false, true], [3, 4, 6, 0], [3, 4, 6, 0]),
    (4, [true, true, true, false], [3, 4, 7, 8], [3, 4, 6, 0]),
    (5, [true, true, true, true], [3, 4, 7, 8], [3, 4, 7, 8]),
];

#[test]
fn calls_that_fail(rt: HostRuntime) {
    for row in ROWS {
        assert!(rt; fails(rt.alloc(), row));
    }
}

#[test]
fn disks_in_memory(rt: HostRuntime) {
    let alloc = rt.alloc();
    assert!(rt; is_steady(alloc) && records(alloc));
    for (mode, left) in [
        (Mode::Old, [0, 5, 6, 0]),
        (Mode::New, [3, 4, 6, 0]),
        (Mode::Fill(7), [7, 7, 6, 0]),
    ] {
        assert!(rt; leaves(alloc, mode, left));
    }
}
