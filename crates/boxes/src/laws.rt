//! The laws of parts. The functions have no code: a caller that needs a fact calls them.

ghost use Rattle.std.specs.Prelude.{◌≡◌, ◌<◌, ◌^◌, ℕ, List, Some};
ghost use Rattle.dr_base.specs.Bytes.{AreBytes};
ghost use Rattle.boxes.specs.Parts.{IsPart, Part, part_read, part_text};

pub use crate::limits::limits_in_numbers;

/// The bytes of a lawful part are read as that part, and nothing else is read as one.
pub fn parts_law()
    ensures read { (part : Part) → IsPart part → part.id < 2 ^ 32
        → part_read (part_text part) ≡ Some part }
    ensures only { (bytes : List ℕ) (part : Part) → AreBytes bytes
        → part_read bytes ≡ Some part → (bytes ≡ part_text part) × IsPart part }
{}
