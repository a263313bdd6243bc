//! A disk with a record of version 1 of two pages, which both change in the newest version.

use crate::acts::{Act, SIZE, begun, new_disk, packet_at, performs_all};
use crate::damaged::bytes_of;
use crate::old_disks::{are, has_digest, lays, opens_to};
use bodies::Format;
use dr_base::{Key32, Side};
use dr_disk::MemoryDisk;
use sha2::{Digest, Sha256};
use std::alloc::Global;
use std::test::Fail;

/// The key of the conversation: these eight bytes four times.
const KEY: Key32 = Key32 {
    bytes: *b"\x01\x23\x45\x67\x89\xab\xcd\xef\x01\x23\x45\x67\x89\xab\xcd\xef\
        \x01\x23\x45\x67\x89\xab\xcd\xef\x01\x23\x45\x67\x89\xab\xcd\xef",
};

/// Second's disk with the record in version 1, by an independent implementation.
const BEFORE: &str = "f30d5e38afb7987a462b8335fa49f58039ee5ad57f9bf84d6b70f631fa0f2173";

/// The disk once it was opened, with the record in the newest version, in which no text waits and
/// there are no keys; by the same.
const AFTER: &str = "a8d628130f90f4fdbf9a7ff5c29888388499f6279b2782aa8c030801db2a1f5a";

/// The record in the newest version, in which all five texts wait, with its keys; by the same.
const RECORD: &str = "2ae2c745d328f40b58b65a04e4e78136456f09c30606062d642c9a76bca78539";

/// How many bytes it has, of which a page has this many.
const LEN: usize = 6251;

const PAGE: usize = 4096;

/// How many bytes it has in version 1.
const AGED: usize = 6079;

/// Where the kind of its text stands, and the count of the texts that wait.
const KIND: usize = 278;

const COUNT: usize = 6081;

/// How many writes and syncs an opening makes that replaces a record of which two pages change: its
/// own sync, and then twelve.
const CALLS: u32 = 13;

/// Whether a side begins, and does these acts.
fn goes(alloc: Global, side: Side, acts: &[Act<'_>], disk: &mut MemoryDisk) -> bool {
    begun(alloc, (side, Format::Plain), &KEY, disk).is_ok() && performs_all(alloc, acts, disk)
}

/// First's packet 1.2, once it has taken these two and said three texts in epoch 1.
fn reply<'a>(alloc: Global, early: &'a [u8], late: &'a [u8]) -> Option<Vec<u8>> {
    let Ok(mut disk) = new_disk(alloc) else {
        return None;
    };
    let say = Act::Say(&[b'y'; 1000], 1);
    let acts = [Act::Take(early), Act::Take(late), say, say, say];
    if goes(alloc, Side::First, &acts, &mut disk) {
        packet_at(alloc, 1, &mut disk)
    } else {
        None
    }
}

/// First's answer to the packets 0.1 and 0.4 of a disk.
fn answer(alloc: Global, disk: &mut MemoryDisk) -> Option<Vec<u8>> {
    match (packet_at(alloc, 0, disk), packet_at(alloc, 3, disk)) {
        (Some(early), Some(late)) => reply(alloc, early.as_slice(), late.as_slice()),
        _ => None,
    }
}

/// Second says four texts in epoch 0, takes First's answer, and says a text in epoch 2. Answers
/// whether all of it was acknowledged.
fn talks(alloc: Global, disk: &mut MemoryDisk) -> bool {
    if !goes(alloc, Side::Second, &[Act::Say(&[b'x'; 900], 0); 4], disk) {
        return false;
    }
    match answer(alloc, disk) {
        Some(packet) => {
            let acts = [Act::Take(packet.as_slice()), Act::Say(&[b'z'; 800], 2)];
            performs_all(alloc, &acts, disk)
        }
        None => false,
    }
}

/// The record that pages 2 and 4 of a disk hold, where it has that length.
fn record_of(alloc: Global, disk: &mut MemoryDisk) -> Option<Vec<u8>> {
    let bytes = match bytes_of(alloc, disk) {
        Some(bytes) if bytes.len() == SIZE as usize => bytes,
        _ => return None,
    };
    let mut text = match bytes[2 * PAGE..3 * PAGE].to_vec(alloc) {
        Ok(text) => text,
        Err(_) => return None,
    };
    match text.extend_from_slice(&bytes[4 * PAGE..3 * PAGE + LEN]) {
        Ok(()) => Some(text),
        Err(_) => None,
    }
}

/// That record in version 1: its number changes, and the bytes of its format and of the kind and all
/// from the count on go.
fn aged(alloc: Global, text: &[u8]) -> Option<Vec<u8>> {
    if text.len() != LEN {
        return None;
    }
    let mut old = Vec::new(alloc);
    let pushed = old.extend_from_slice(&[1, text[1]]).is_ok()
        && old.extend_from_slice(&text[3..KIND]).is_ok()
        && old.extend_from_slice(&text[KIND + 1..COUNT]).is_ok();
    if pushed { Some(old) } else { None }
}

/// Makes that record, in pages 2 and 4 under table 0, one of version 1 in pages 2 and 5.
fn ages(alloc: Global, disk: &mut MemoryDisk, text: &[u8]) -> bool {
    match aged(alloc, text) {
        Some(old) if old.len() == AGED => {
            let (front, back) = old.split_at(PAGE);
            lays(disk, 2, b"\x00\x00\x17\xbf\x00\x02\x00\x05")
                && lays(disk, 8192, front)
                && lays(disk, 16384, &[0; LEN - PAGE])
                && lays(disk, 20480, back)
        }
        _ => false,
    }
}

/// Whether Second's disk, whose record is made one of version 1, is opened to the newest one.
fn is_reopened(alloc: Global, disk: &mut MemoryDisk, text: &[u8]) -> bool {
    are(alloc, Sha256::digest(text).as_slice(), RECORD)
        && ages(alloc, disk, text)
        && has_digest(alloc, disk, BEFORE)
        && opens_to(alloc, disk, CALLS, AFTER)
        && opens_to(alloc, disk, 1, AFTER)
}

/// The same of what Second has said and taken.
fn is_renewed(alloc: Global, disk: &mut MemoryDisk) -> bool {
    if !talks(alloc, disk) {
        return false;
    }
    match record_of(alloc, disk) {
        Some(text) => is_reopened(alloc, disk, text.as_slice()),
        None => false,
    }
}

#[test]
fn grown_renewed(rt: HostRuntime) -> Result<(), Fail> {
    let mut disk = new_disk(rt.alloc())?;
    assert!(rt; is_renewed(rt.alloc(), &mut disk));
    Ok(())
}
