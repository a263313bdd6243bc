//! An opening stopped at each write and sync: what the next one finds.

use crate::acts::HI;
use crate::stops::{MANY, MODES, Row, stopped_twice};
use dr_base::Side;
use dr_disk::Mode;
use std::alloc::Global;

/// Whether an opening finds the text that was being said just where a crash left it.
fn finds_said(alloc: Global, k: u32, j: u32, (mode, from): (Mode, u32)) -> bool {
    let row = Row {
        side: Side::Second,
        earlier: &[],
        act: HI,
    };
    let outbox = if k >= from { 1 } else { 0 };
    match stopped_twice(alloc, row, (k, j), mode) {
        Some((_, Some((0, posted)))) => posted == outbox,
        _ => false,
    }
}

/// Whether it does wherever it is stopped.
fn find_said(alloc: Global) -> bool {
    for crash in MODES {
        for k in 0u32..10 {
            for j in 0u32..MANY {
                if !finds_said(alloc, k, j, crash) {
                    return false;
                }
            }
        }
    }
    true
}

// An opening of what a text that was being said has left: a further stop changes nothing of what
// the next one finds.
#[test]
fn openings_stopped(rt: HostRuntime) {
    assert!(rt; find_said(rt.alloc()));
}
