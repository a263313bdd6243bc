//! Looks at areas: damaged ones by the rows of an independent implementation, and whole ones.

use crate::building::record_of;
use crate::rows::rows;
use crate::stores::{SIZE, looks, puts};
use dr_disk::{Call, Disk, MemoryDisk, SteadyDisk};
use slot_store::{Finding, Gate, InspectError, Report};
use std::alloc::Global;
use std::test::Fail;

/// Bytes, and where they are written on the disk.
type Bytes = (u64, &'static [u8]);

/// What is reported: the tables' turns, 0 for a closed one; what is found; and whether it rests.
type Row = (&'static [Bytes], u8, u8, Finding, bool);

/// A table of a record of 8,666 bytes in pages 2, 4 and 6, with turn 3. All of the record is zeros.
const TABLE: &[u8] = b"\xa5\x03\0\0\x21\xda\0\x02\0\x04\0\x06";

/// A gate with its turn; 0 is a closed one.
fn gate(turn: u8) -> Gate {
    if turn == 0 {
        Gate::Closed
    } else {
        Gate::Open { turn }
    }
}

/// Writes these bytes to a disk. Answers whether it did.
fn writes(disk: &mut SteadyDisk, bytes: Bytes) -> bool {
    disk.size() == SIZE
        && bytes.0 <= SIZE
        && bytes.1.len() as u64 <= SIZE - bytes.0
        && disk.write_at(bytes.0, bytes.1).is_ok()
}

/// Whether a disk with the table, and these bytes over it, is reported so.
fn is_reported(alloc: Global, row: Row) -> bool {
    let (all, first, second, found, rest) = row;
    let Ok(mut disk) = SteadyDisk::new(alloc, SIZE) else {
        return false;
    };
    if !writes(&mut disk, (0, TABLE)) {
        return false;
    }
    for bytes in all {
        if !writes(&mut disk, *bytes) {
            return false;
        }
    }
    looks(alloc, &mut disk)
        == Ok(Report {
            first: gate(first),
            second: gate(second),
            found,
            rest,
        })
}

/// Damage of a table.
fn damaged(slot: u32, at: u64) -> Finding {
    Finding::Damaged { slot, at }
}

// Of the rows of damaged disks those that no grammar of records is needed for.
#[test]
fn damaged_looks(rt: HostRuntime) {
    let alloc = rt.alloc();
    let rows: [Row; 24] = [
        (&[(4096, b"\xa5\x03")], 3, 3, damaged(1, 1), false),
        (
            &[(2, b"\xff\xff\xff\xff"), (4096, b"\xa5\x03")],
            3,
            3,
            damaged(1, 1),
            false,
        ),
        (
            &[(0, b"\0"), (4096, b"\xa5\x03")],
            0,
            3,
            damaged(1, 4096),
            false,
        ),
        (&[(2, b"\0\x02\xe0\x01")], 3, 0, damaged(0, 2), false),
        (
            &[(2, b"\0\x02\xe0\x01"), (6, b"\0\0")],
            3,
            0,
            damaged(0, 2),
            false,
        ),
        (&[(6, b"\0\x01")], 3, 0, damaged(0, 6), false),
        (&[(6, b"\0\x60")], 3, 0, damaged(0, 6), false),
        (&[(10, b"\xff\xff")], 3, 0, damaged(0, 10), false),
        (&[(8, b"\0\x02")], 3, 0, damaged(0, 8), false),
        (
            &[(6, b"\0\x01"), (10, b"\0\x04")],
            3,
            0,
            damaged(0, 6),
            false,
        ),
        (&[(2, b"\0\0\x31\xda")], 3, 0, damaged(0, 12), false),
        (&[(2, b"\0\0\x11\xda")], 3, 0, damaged(0, 11), false),
        (
            &[(2, b"\0\0\0\0"), (6, b"\0\0\0\0\0\0")],
            3,
            0,
            damaged(0, 4096),
            false,
        ),
        (&[(4095, b"\x80")], 3, 0, damaged(0, 4095), false),
        (&[(25_050, b"\x01")], 3, 0, damaged(0, 12_762), false),
        (&[(28_671, b"\x01")], 3, 0, damaged(0, 16_383), false),
        (&[(4096, b"\xa5\x01")], 3, 1, damaged(1, 4096), false),
        (
            &[(4096, b"\xa5\x01\0\x02\xe0\x01")],
            3,
            1,
            damaged(1, 2),
            false,
        ),
        (
            &[(4096, b"\xa5\x01\0\0\x21\xda\0\x02\0\x04\0\x06")],
            3,
            1,
            RECORD,
            false,
        ),
        (&[(4096, b"\xa5\x02\xff\xff\xff\xff")], 3, 2, RECORD, false),
        (&[(4096, b"\xa5\x04\xff")], 3, 0, RECORD, false),
        (&[(4096, b"\x05\x01\0\0\0\x01")], 3, 0, RECORD, false),
        (&[(389_127, b"\x01")], 3, 0, RECORD, false),
        (&[(0, b"\xa4")], 0, 0, Finding::Empty, false),
    ];
    for row in rows {
        assert!(rt; is_reported(alloc, row));
    }
    assert!(rt; is_reported(alloc, (&[], 3, 0, RECORD, true)));
}

/// The record of the table.
const RECORD: Finding = Finding::Record { length: 8666 };

/// Whether an area is reported so after each of the first records of the rows, which are stored one
/// after the other: the tables' turns, and the record's length.
fn are_reported(alloc: Global, disk: &mut SteadyDisk) -> Result<bool, Fail> {
    let texts = rows();
    let reports = [(1, 0, 8292), (0, 2, 8292), (3, 0, 8192), (0, 1, 12_289)];
    for i in 0..reports.len() {
        let (first, second, length) = reports[i];
        let text = record_of(alloc, &texts[i])?;
        let stored = puts(alloc, disk, &text);
        let expected = Report {
            first: gate(first),
            second: gate(second),
            found: Finding::Record { length },
            rest: true,
        };
        if !stored || looks(alloc, disk) != Ok(expected) {
            return Ok(false);
        }
    }
    Ok(true)
}

/// Whether an area of zeros is reported as at rest without a record, and as stored ones are then.
fn is_followed(alloc: Global) -> Result<bool, Fail> {
    let mut disk = SteadyDisk::new(alloc, SIZE)?;
    let expected = Report {
        first: Gate::Closed,
        second: Gate::Closed,
        found: Finding::Empty,
        rest: true,
    };
    if looks(alloc, &mut disk) != Ok(expected) {
        return Ok(false);
    }
    are_reported(alloc, &mut disk)
}

/// Whether a disk on which no call passes is answered with a read that failed.
fn fails_to_look(alloc: Global) -> bool {
    let Ok(mut disk) = MemoryDisk::new(alloc, SIZE) else {
        return false;
    };
    disk.stop_after(0);
    looks(alloc, &mut disk) == Err(InspectError::StoreFault { call: Call::Read })
}

// No record, then one after the other; and a disk that has stopped.
#[test]
fn looks_at_rest(rt: HostRuntime) -> Result<(), Fail> {
    let alloc = rt.alloc();
    assert!(rt; is_followed(alloc)?);
    assert!(rt; fails_to_look(alloc));
    Ok(())
}
