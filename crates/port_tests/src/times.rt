//! For how long a link has the system wait: what is left of its time for each call.

use crate::played::{Played, Stage};
use dr_ports::Link;
use std::time::Duration;
use tcp_ports::{Patience, TcpLink, Whole};

/// What a link does: it opens, receives 128 bytes, or sends 64 times as many.
#[derive(Clone, Copy)]
enum Step {
    Open,
    Receive,
    Send,
}

/// A step, after how many seconds it comes, and for how many it may wait; nothing where it fails.
type Row = (Step, u64, Option<u64>);

/// With ten seconds for a call, and twelve to a hundred for the whole.
const BOUNDED: [Row; 8] = [
    (Step::Open, 0, Some(10)),
    (Step::Receive, 0, Some(10)),
    (Step::Receive, 6, Some(7)),
    (Step::Send, 11, Some(3)),
    (Step::Receive, 70, Some(8)),
    (Step::Send, 78, Some(1)),
    (Step::Receive, 95, Some(5)),
    (Step::Receive, 100, None),
];

/// With the patience that a new link has.
const NEW: [Row; 7] = [
    (Step::Open, 0, Some(10)),
    (Step::Receive, 0, Some(70)),
    (Step::Receive, 2, Some(69)),
    (Step::Send, 10, Some(62)),
    (Step::Receive, 60, Some(60)),
    (Step::Send, 119, Some(1)),
    (Step::Receive, 120, None),
];

/// Whether a step works.
fn works<L: Link>(link: &mut L, step: Step) -> bool {
    match step {
        Step::Open => link.open("host:1").is_ok(),
        Step::Receive => link.receive(&mut [0; 128]) == Ok(128),
        Step::Send => link.send(&[7; 8192]) == Ok(8192),
    }
}

/// For how long a step was told to wait, the last time.
fn told(stage: &Stage, step: Step) -> Option<Duration> {
    let [connects, receives, sends] = stage.told();
    match step {
        Step::Open => connects,
        Step::Receive => receives,
        Step::Send => sends,
    }
}

/// Whether a row comes to what it should.
fn is_so<L: Link>(stage: &Stage, link: &mut L, (step, at, wait): Row) -> bool {
    stage.goes_on_to(at);
    let is_done = works(link, step);
    match wait {
        Some(seconds) => is_done && told(stage, step) == Some(Duration::from_secs(seconds)),
        None => !is_done,
    }
}

/// Whether all rows do.
fn are_so<L: Link>(stage: &Stage, link: &mut L, rows: &[Row]) -> bool {
    for row in rows {
        if !is_so(stage, link, *row) {
            return false;
        }
    }
    true
}

/// A link with this patience, or a new one.
fn link_over<'a, 'b>(net: &'a Played<'b>, patience: Option<Patience>) -> TcpLink<'a, Played<'b>> {
    match patience {
        Some(patience) => TcpLink::with_patience(net, patience),
        None => TcpLink::new(net),
    }
}

/// Whether they do over such a link.
fn waits(stage: &Stage, net: &Played<'_>, patience: Option<Patience>, rows: &[Row]) -> bool {
    let mut link = link_over(net, patience);
    are_so(stage, &mut link, rows)
}

/// Whether they do on a new stage.
fn waits_so(patience: Option<Patience>, rows: &[Row]) -> bool {
    let stage = Stage::new();
    waits(&stage, &Played { stage: &stage }, patience, rows)
}

// The first address of the host refuses, and the second one is told to wait as long.
#[test]
fn waits_for_what_is_left(rt: HostRuntime) {
    let patience = Patience {
        call: Duration::from_secs(10),
        whole: Some(Whole {
            least: Duration::from_secs(12),
            most: Duration::from_secs(100),
        }),
    };
    assert!(rt; waits_so(Some(patience), &BOUNDED));
    assert!(rt; waits_so(None, &NEW));
}
