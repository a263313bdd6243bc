//! Where a store lies on its disk.

ghost use Rattle.std.specs.Prelude.{◌≡◌};
ghost use Rattle.slot_store.specs.Areas.{IsArea, bounds_of, layout_of};

use dr_base::PAGE;
use paged_records::Bounds;
use pages::Layout;
use std::marker::Model;

/// So many pages of `PAGE` bytes, of which the first two are the tables. The first `LOWER_PAGES` lie
/// one after the other from `start` on, the others from `upper` on, which is behind them. A record
/// has at most `most` pages: of these there is room for twice as many, and `NAMED_LIMIT` is the
/// limit. There are at most `NUMBER_LIMIT` pages, and they end before 2^64.
#[derive(Clone, Copy)]
pub struct Area {
    pub start: u64,
    pub upper: u64,
    pub pages: u32,
    pub most: u32,
}

impl Model for Area {
    ghost use Rattle.slot_store.specs.Areas.{Area as Laid, IsArea};

    ghost Value = { Laid };

    ghost view = { λ a. record { start = a.start; upper = a.upper; pages = a.pages; most = a.most } };

    ghost inverse = { λ a. record { start = a.start; upper = a.upper; pages = a.pages; most = a.most } };

    ghost invariant = { λ a. IsArea (record { start = a.start; upper = a.upper; pages = a.pages; most = a.most }) };
}

/// Its tables and pages.
pub(crate) fn layout(area: Area) -> Layout
    ensures layout { result ≡ layout_of area }
    ensures lawful { IsArea area }
{
    Layout {
        first: area.start,
        second: area.start + PAGE as u64,
        table: PAGE as u32,
        lower: area.start,
        upper: area.upper,
        least: 2,
        count: area.pages,
    }
}

/// Which pages a record may have.
pub(crate) fn bounds(area: Area) -> Bounds
    ensures bounds { result ≡ bounds_of area }
    ensures lawful { IsArea area }
{
    Bounds {
        least: 2,
        count: area.pages,
        most: area.most,
    }
}

/// How many pages it has.
pub(crate) fn page_total(area: Area) -> u32
    ensures total { result ≡ area.pages }
    ensures lawful { IsArea area }
{
    area.pages
}

/// How many pages a record has at most.
pub(crate) fn record_most(area: Area) -> u32
    ensures most { result ≡ area.most }
    ensures lawful { IsArea area }
{
    area.most
}
