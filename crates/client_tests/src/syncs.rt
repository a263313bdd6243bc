//! Syncs over links in memory.

use crate::acts::{HI, SIZE, begins, new_disk, packet_at, performs_all};
use crate::stops::stop;
use client::{Client, SyncFault};
use dr_base::Side;
use dr_disk::{Disk, MemoryDisk};
use dr_ports::{MemoryLink, MemorySink};
use kem_laws::OpenKem;
use std::alloc::Global;
use sync_model::More;

/// The end of a sync.
pub type End = Result<More, SyncFault>;

/// What a sync gets and how many calls pass on its disk; and what it then comes to, writes and
/// sends: at first the requests of these bytes, and then the packet that is posted.
#[derive(Clone, Copy)]
pub struct Row<'a> {
    pub gives: &'a [u8],
    pub passing: u32,
    pub end: End,
    pub lines: &'a [u8],
    pub sent: &'a [u8],
    pub posted: &'a [u8],
}

/// Whether a client's sync over a link and into a sink comes to that.
fn comes_to(
    alloc: Global,
    row: Row<'_>,
    disk: &mut MemoryDisk,
    link: &mut MemoryLink,
    out: &mut MemorySink,
) -> bool {
    if disk.size() < SIZE {
        return false;
    }
    match Client::<OpenKem>::open(alloc, disk) {
        Ok(mut client) => {
            stop(&client, disk, row.passing);
            client.sync(disk, link, out, "it ") == row.end
                && out.taken() == row.lines
                && link.sent().strip_prefix(row.sent) == Some(row.posted)
        }
        Err(_) => false,
    }
}

/// The same over a link whose calls of these numbers fail.
fn links(
    alloc: Global,
    row: Row<'_>,
    fails: &[u64],
    disk: &mut MemoryDisk,
    out: &mut MemorySink,
) -> bool {
    match MemoryLink::new(alloc, row.gives, 8192, fails) {
        Ok(mut link) => comes_to(alloc, row, disk, &mut link, out),
        Err(_) => false,
    }
}

/// The same into a sink whose calls of these numbers fail.
fn syncs(
    alloc: Global,
    row: Row<'_>,
    (link_fails, out_fails): (&[u64], &[u64]),
    disk: &mut MemoryDisk,
) -> bool {
    match MemorySink::new(alloc, 1024, out_fails) {
        Ok(mut out) => links(alloc, row, link_fails, disk, &mut out),
        Err(_) => false,
    }
}

/// The same of First, on a disk of its own.
pub fn first(alloc: Global, row: Row<'_>, fails: (&[u64], &[u64])) -> bool {
    match new_disk(alloc) {
        Ok(mut disk) => {
            begins(alloc, Side::First, &mut disk) && syncs(alloc, row, fails, &mut disk)
        }
        Err(_) => false,
    }
}

/// What Second's sync sends before the packet of the text "hi": it fetches, and posts 67 bytes, each
/// with counter 1. The session is that of the key of zeros. Tags were made by another implementation.
const POSTS: &[u8] = b"\x00\x4d\x04\x00\x00\x00\x00\x00\x00\x00\x01\
    \x6d\xc7\xcc\xd3\x33\x23\x3e\xee\x1e\xc1\x03\x50\x5c\xb7\xa4\x2e\
    \x43\xdf\xe3\x72\x8a\x40\xfb\x3a\x2b\x89\xd9\x78\x4e\x73\xf8\x29\
    \x02\x2270e0f9cd1a5863238d67aecce0c032e5-2\
    \x00\x90\x04\x00\x00\x00\x00\x00\x00\x00\x01\
    \xd3\xdb\x7b\x43\xa9\x2d\x5a\x85\xf0\x78\x60\x26\xbd\x5d\xae\x5e\
    \x51\x47\x4d\x3d\x6c\x55\x7e\x1c\x24\x6f\xd1\x62\x38\x86\x21\xda\
    \x01\x2270e0f9cd1a5863238d67aecce0c032e5-1";

/// Second's packet of that text, where its sync that gets these replies comes to this, writes these
/// lines, and posts the packet.
fn posted<'a>(
    alloc: Global,
    (gives, end, lines): (&'a [u8], End, &'a [u8]),
    disk: &mut MemoryDisk,
) -> Option<Vec<u8>> {
    let Some(packet) = packet_at(alloc, 0, disk) else {
        return None;
    };
    let row = Row {
        gives,
        passing: 100,
        end,
        lines,
        sent: POSTS,
        posted: packet.as_slice(),
    };
    let is_so = syncs(alloc, row, (&[], &[]), disk);
    if is_so { Some(packet) } else { None }
}

/// The same of Second, which says the text on a disk of its own.
pub fn second<'a>(alloc: Global, row: (&'a [u8], End, &'a [u8])) -> Option<Vec<u8>> {
    let Ok(mut disk) = new_disk(alloc) else {
        return None;
    };
    if !begins(alloc, Side::Second, &mut disk) || !performs_all(alloc, &[HI], &mut disk) {
        return None;
    }
    posted(alloc, row, &mut disk)
}
