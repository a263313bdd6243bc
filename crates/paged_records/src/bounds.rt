//! Which pages a record may have.

ghost use Rattle.std.specs.Prelude.{◌≡◌};
ghost use Rattle.paged_records.specs.Bounded.{IsBounded};

use std::marker::Model;

/// The numbers of pages that a record may have, from `least` to below `count`, and how many pages it
/// has at most: of these there is room for twice as many.
#[derive(Clone, Copy)]
pub struct Bounds {
    pub least: u32,
    pub count: u32,
    pub most: u32,
}

impl Model for Bounds {
    ghost use Rattle.paged_records.specs.Bounded.{Bounds as Bounded, IsBounded};

    ghost Value = { Bounded };

    ghost view = { λ b. record { least = b.least; count = b.count; most = b.most } };

    ghost inverse = { λ b. record { least = b.least; count = b.count; most = b.most } };

    ghost invariant = { λ b. IsBounded (record { least = b.least; count = b.count; most = b.most }) };
}

/// The least number.
pub(crate) fn least_number(bounds: Bounds) -> u32
    ensures least { result ≡ bounds.least }
    ensures lawful { IsBounded bounds }
{
    bounds.least
}

/// The number below which all are.
pub(crate) fn number_end(bounds: Bounds) -> u32
    ensures end { result ≡ bounds.count }
    ensures lawful { IsBounded bounds }
{
    bounds.count
}

/// How many pages a record has at most.
pub(crate) fn record_most(bounds: Bounds) -> u32
    ensures most { result ≡ bounds.most }
    ensures lawful { IsBounded bounds }
{
    bounds.most
}
