//! How long a connection may take.

ghost use Rattle.std.specs.Prelude.{◌≡◌, ◌≤◌, ◌-◌, ◌*◌, ◌↔◌, min, Some, None, IsNone, IfNone, IfSome, IsSomeAnd};
ghost use Rattle.std.specs.Duration.{as_nanos};
ghost use Rattle.tcp_ports.specs.Times.{allowance};
ghost use Rattle.tcp_ports.specs.declared.patience.TheConstants.{LINK_CALL, LINK_LEAST, LINK_MOST, DOOR_CALL, DOOR_LEAST, DOOR_MOST};
ghost use Rattle.tcp_ports.specs.Limits.{HasLimits};

use std::time::Duration;

/// How many bytes have to go over a connection for a second more of it: as many as a slow honest
/// line carries in a second.
pub const RATE: u64 = 128;

/// For how many seconds a call on a link waits. Its turn at a door comes after those who spoke
/// before it, and three of them may take all that a door gives.
const LINK_CALL: u64 = 70;

/// For how many seconds a link stands, if nothing goes over it.
const LINK_LEAST: u64 = 70;

/// For how many seconds a link stands, whatever goes over it.
const LINK_MOST: u64 = 120;

/// For how many seconds a call on a door's connection waits. Its peer's next bytes are at most a
/// round trip away.
const DOOR_CALL: u64 = 5;

/// For how many seconds a door's connection stands, if nothing goes over it.
const DOOR_LEAST: u64 = 5;

/// For how many seconds a door's connection stands, whatever goes over it.
const DOOR_MOST: u64 = 20;

/// How long a connection as a whole may take.
#[derive(Clone, Copy)]
pub struct Whole {
    /// How long where nothing goes over it. Each `RATE` bytes that went in either direction give
    /// it a second more.
    pub least: Duration,
    /// How long at most.
    pub most: Duration,
}

/// What went over a connection.
#[derive(Clone, Copy)]
pub struct Traffic {
    /// How many bytes, in either direction.
    pub bytes: u64,
}

/// How long each call on a connection waits, and how long the connection as a whole may take.
#[derive(Clone, Copy)]
pub struct Patience {
    /// For how long a call waits.
    pub call: Duration,
    /// How long the connection may take. Without it that is as long as its calls do.
    pub whole: Option<Whole>,
}

impl Patience {
    /// The patience with the far end of a link: 70 seconds for each call and for the whole, a
    /// second more for each `RATE` bytes, and two minutes at most. So a peer that does little is
    /// given up, and none holds its caller up for longer than that.
    pub fn with_a_relay() -> Self
        ensures each { as_nanos result.call ≡ LINK_CALL * 1_000_000_000 }
        ensures bounded { IsSomeAnd result.whole
            (λ whole. (as_nanos whole.least ≡ LINK_LEAST * 1_000_000_000)
            × (as_nanos whole.most ≡ LINK_MOST * 1_000_000_000)) }
    {
        Patience {
            call: Duration::from_secs(LINK_CALL),
            whole: Some(Whole {
                least: Duration::from_secs(LINK_LEAST),
                most: Duration::from_secs(LINK_MOST),
            }),
        }
    }

    /// The patience with who comes in by a door: five seconds for each call and for the whole, a
    /// second more for each `RATE` bytes, and twenty at most. So a peer that does little is soon
    /// given up, one with a slow line isn't, and none holds the others up for longer than that.
    pub fn with_a_client() -> Self
        ensures each { as_nanos result.call ≡ DOOR_CALL * 1_000_000_000 }
        ensures bounded { IsSomeAnd result.whole
            (λ whole. (as_nanos whole.least ≡ DOOR_LEAST * 1_000_000_000)
            × (as_nanos whole.most ≡ DOOR_MOST * 1_000_000_000)) }
    {
        Patience {
            call: Duration::from_secs(DOOR_CALL),
            whole: Some(Whole {
                least: Duration::from_secs(DOOR_LEAST),
                most: Duration::from_secs(DOOR_MOST),
            }),
        }
    }

    /// For how long the next call may wait on a connection that has taken `gone` so far, with this
    /// traffic. There is none once the connection has taken all that it may.
    pub fn left(&self, gone: Duration, traffic: Traffic) -> Option<Duration>
        ensures endless { IfNone self.now.whole (result ≡ Some self.now.call) }
        ensures over { IfSome self.now.whole (λ whole. IsNone result
            ↔ (allowance whole traffic ≤ as_nanos gone)) }
        ensures left { IfSome self.now.whole (λ whole. IfSome result (λ wait.
            as_nanos wait ≡ min (as_nanos self.now.call) (allowance whole traffic - as_nanos gone))) }
    {
        let Some(whole) = self.whole else {
            return Some(self.call);
        };
        let earned = Duration::from_secs(traffic.bytes / RATE);
        let allowed = whole.least.saturating_add(earned);
        let left = allowed.min(whole.most).saturating_sub(gone);
        if left.is_zero() {
            return None;
        }
        Some(self.call.min(left))
    }
}

/// The limits of this crate as numbers. The function has no code.
pub fn limits_in_numbers()
    ensures { HasLimits }
{}
