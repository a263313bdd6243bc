//! The laws of long texts. The functions have no code: a caller that needs a fact calls them.

ghost use Rattle.std.specs.Prelude.{◌≡◌, ◌<◌, ◌^◌, ℕ, List, Ok};
ghost use Rattle.boxes.specs.Entries.{Entry};
ghost use Rattle.long_text.specs.Longs.{long_of};
ghost use Rattle.long_text.specs.Told.{Arrival, HasArrived, IsTold, entries_of};

pub use crate::limits::limits_in_numbers;
pub use boxes::laws::parts_law;

/// In whatever order parts came, and how often: where each part of a text stands, and no other
/// under its id, the long text is that text.
pub fn told_is_long()
    ensures { (text : List ℕ) (id : ℕ) (entries : List Entry) → IsTold text id entries
        → long_of id entries ≡ Ok text }
{}

/// The parts that a text is cut into tell it, once each of them has come, in whatever order and
/// however often.
pub fn arrived_is_told()
    ensures { (text : List ℕ) (id : ℕ) (arrivals : List Arrival) → id < 2 ^ 32
        → HasArrived text arrivals → IsTold text id (entries_of id text arrivals) }
{}
