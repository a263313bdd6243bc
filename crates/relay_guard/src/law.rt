//! The laws of guards. The functions have no code: a caller that needs a fact calls them.

ghost use Rattle.std.specs.Prelude.{List};
ghost use Rattle.relay_guard.specs.Histories.{Call, CountersRise, Happening, KeepsKeys, RulesHold, StaysDenied};
ghost use Rattle.relay_guard.specs.declared.guard.Guard.{Guard};

/// A request is served exactly where the rules allow it.
pub fn rules()
    ensures { (guard : Guard) (call : Call) → RulesHold guard call }
{}

/// Over every list of requests and crashes, the counters of the requests that were answered as
/// served under a key differ and rise; the keys stay, and no counter is served again.
pub fn counters_rise()
    ensures rise { (guard : Guard) (happenings : List Happening) → CountersRise guard happenings }
    ensures keys { (guard : Guard) (happenings : List Happening) → KeepsKeys guard happenings }
    ensures denied { (guard : Guard) (happenings : List Happening) → StaysDenied guard happenings }
{}
