//! Whom a box serves.

ghost use Rattle.std.specs.Prelude.{◌≡◌, ◌↔◌, length, Ok, Err, is_some, IfErr, IfOk, IsTrue, OnErr, OnOk};
ghost use Rattle.relay_core.specs.Boxes.{judged_in, keys_by, passed_by};
ghost use Rattle.relay_core.specs.Lawful.{HasLawfulGuard, IsLawfulGuard};
ghost use Rattle.relay_wire.specs.Seen.{asked_of};

use relay_guard::{Denied, Guard, Role};
use relay_wire::{ACK, Ask, FETCH, POST, Request};

/// Serves or denies a request for a guarded box.
#[tactic(auto, unfolding(relay_wire::specs::Requests::plain_body))]
fn judge(guard: &mut Guard, request: &Request<'_>) -> Result<(), Denied>
    ensures served { OnOk result (judged_in guard.old (asked_of request.now) ≡ Ok guard.new) }
    ensures denied { IfErr result (λ d. judged_in guard.old (asked_of request.now) ≡ Err d) }
    ensures stays { OnErr result (guard.new ≡ guard.old) }
{
    let name = request.name.bytes();
    let len = name.len() as u8;
    match &request.ask {
        Ask::Post(packet) => {
            let packet = packet.bytes();
            guard.judge(Role::Poster, &request.token, &[POST, len], name, packet)
        }
        Ask::Fetch => guard.judge(Role::Owner, &request.token, &[FETCH, len], name, &[]),
        Ask::Ack(number) => {
            let number = number.to_be_bytes();
            guard.judge(Role::Owner, &request.token, &[ACK, len], name, &number)
        }
    }
}

/// A key has 32 bytes, which the proofs learn here.
fn is_long(key: &[u8; 32])
    ensures { length key.now ≡ 32 }
{}

/// A guard's keys have 32 bytes, and its counters fit, which the proofs learn here.
fn lawful(guard: &Guard)
    ensures { IsLawfulGuard guard.now }
{
    is_long(&guard.owner.bytes);
    is_long(&guard.poster.bytes);
    let _owner_last = guard.owner_last;
    let _poster_last = guard.poster_last;
}

/// Lets a request through, and tells whether a guard did; or denies it, and then the guard stays.
pub(crate) fn pass(guard: &mut Option<Guard>, request: &Request<'_>) -> Result<bool, Denied>
    ensures passed { OnOk result (passed_by guard.old (asked_of request.now) ≡ Ok guard.new) }
    ensures denied { IfErr result (λ d. passed_by guard.old (asked_of request.now) ≡ Err d) }
    ensures guarded { IfOk result (λ guarded. guarded ≡ is_some guard.new) }
    ensures stays { OnErr result (guard.new ≡ guard.old) }
    ensures lawful { HasLawfulGuard guard.new }
{
    match guard {
        None => Ok(false),
        Some(guard) => {
            let judged = judge(guard, request);
            lawful(guard);
            match judged {
                Err(denied) => Err(denied),
                Ok(()) => Ok(true),
            }
        }
    }
}

/// Whether two guards have the same keys, or neither is there. Their counters don't count.
pub(crate) fn has_same_keys(one: &Option<Guard>, other: &Option<Guard>) -> bool
    ensures { IsTrue result ↔ (keys_by one.now ≡ keys_by other.now) }
{
    match (one, other) {
        (None, None) => true,
        (Some(one), Some(other)) => {
            one.owner.bytes == other.owner.bytes && one.poster.bytes == other.poster.bytes
        }
        _ => false,
    }
}
