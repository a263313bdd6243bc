//! Each act stopped at each write and sync: what an opening then finds.

ghost use Rattle.dr_disk.specs.MemoryDisks.{state_of};
ghost use Rattle.client.specs.Clients.{IsReady};

use crate::acts::{
    Act, HI, SIZE, begins, new_disk, opened, packet_of_second, perform, performs_all,
};
use client::Client;
use dr_base::Side;
use dr_disk::{Disk, MemoryDisk, Mode};
use kem_laws::OpenKem;
use std::alloc::Global;

/// No opening makes this many writes and syncs.
pub const MANY: u32 = 8;

/// An act of a side, after others.
#[derive(Clone, Copy)]
pub struct Row<'a> {
    pub side: Side,
    pub earlier: &'a [Act<'a>],
    pub act: Act<'a>,
}

/// From this many writes and syncs on, such a crash leaves what the act made.
pub const MODES: [(Mode, u32); 5] = [
    (Mode::Old, 5),
    (Mode::New, 3),
    (Mode::Fill(0), 5),
    (Mode::Fill(0xa5), 3),
    (Mode::Fill(0xff), 5),
];

/// Stops the disk of a client that is ready.
pub fn stop(client: &Client<OpenKem>, disk: &mut MemoryDisk, k: u32)
    requires { IsReady client.now.kept client.now.store (state_of disk.old) }
    ensures { IsReady client.now.kept client.now.store (state_of disk.new) }
{
    disk.stop_after(k);
}

/// Acts on a disk that stops after `k` writes and syncs of the act. Answers whether that was
/// acknowledged, if it came to it.
fn act_stopped(alloc: Global, act: Act<'_>, disk: &mut MemoryDisk, k: u32) -> Option<bool> {
    if disk.size() < SIZE {
        return None;
    }
    match Client::<OpenKem>::open(alloc, disk) {
        Ok(mut client) => {
            stop(&client, disk, k);
            Some(perform(alloc, act, &mut client, disk))
        }
        Err(_) => None,
    }
}

/// Crashes a disk, opens it until that stops after `j` writes and syncs, crashes it again, and
/// answers what an opening finds, if it finds something.
fn found_twice(alloc: Global, disk: MemoryDisk, j: u32, mode: Mode) -> Option<(u32, u32)> {
    let mut left = disk.crash(mode);
    left.stop_after(j);
    let _until = opened(alloc, &mut left);
    opened(alloc, &mut left.crash(mode)).ok()
}

/// Acts on a disk that stops after `k` writes and syncs, and crashes so twice, the second time
/// while it is opened. Answers whether the act was acknowledged, and what the last opening finds.
pub fn stopped_twice(
    alloc: Global,
    row: Row<'_>,
    (k, j): (u32, u32),
    mode: Mode,
) -> Option<(bool, Option<(u32, u32)>)> {
    let Ok(mut disk) = new_disk(alloc) else {
        return None;
    };
    if !begins(alloc, row.side, &mut disk) || !performs_all(alloc, row.earlier, &mut disk) {
        return None;
    }
    match act_stopped(alloc, row.act, &mut disk, k) {
        Some(done) => Some((done, found_twice(alloc, disk, j, mode))),
        None => None,
    }
}

/// Whether an act is acknowledged from the tenth call on, one page being written and one wiped, and
/// what it made stands from this call on.
fn is_told(
    alloc: Global,
    row: Row<'_>,
    k: u32,
    (mode, from): (Mode, u32),
    (before, after): ((u32, u32), (u32, u32)),
) -> bool {
    match stopped_twice(alloc, row, (k, MANY), mode) {
        Some((done, Some(boxes))) => {
            let expected = if k >= from { after } else { before };
            done == (k >= 10) && boxes.0 == expected.0 && boxes.1 == expected.1
        }
        _ => false,
    }
}

/// Whether that is so wherever the disk stops, and whatever a crash leaves.
pub fn are_told(alloc: Global, row: Row<'_>, boxes: ((u32, u32), (u32, u32))) -> bool {
    for crash in MODES {
        for k in 0u32..12 {
            if !is_told(alloc, row, k, crash, boxes) {
                return false;
            }
        }
    }
    true
}

/// Whether it is of each act of a side's, with what an opening finds before it and after it.
fn stand(alloc: Global, packet: &[u8]) -> bool {
    let (first, second) = (Side::First, Side::Second);
    let take = Act::Take(packet);
    let rows: [(Side, &[Act<'_>], Act<'_>, (u32, u32), (u32, u32)); 4] = [
        (second, &[], HI, (0, 0), (0, 1)),
        (second, &[HI], Act::Sent, (0, 1), (0, 0)),
        (first, &[], take, (0, 0), (1, 0)),
        (first, &[take], Act::Done, (1, 0), (0, 0)),
    ];
    for (side, earlier, act, before, after) in rows {
        let row = Row { side, earlier, act };
        if !are_told(alloc, row, (before, after)) {
            return false;
        }
    }
    true
}

/// Whether all of it is so with the packet that Second says.
fn all_stand(alloc: Global) -> bool {
    match packet_of_second(alloc) {
        Some(packet) => stand(alloc, packet.as_slice()),
        None => false,
    }
}

// Each act: from the fifth call on what it made stands; from the third to the fifth where the gate
// became a5.
#[test]
fn acts_stopped(rt: HostRuntime) {
    assert!(rt; all_stand(rt.alloc()));
}
