//! The laws of boxes, and of this crate's limits. The functions have no code: a caller that needs a
//! fact calls them.

ghost use Rattle.std.specs.Prelude.{◌≡◌, ℕ, List, Option, Some, Result, Ok, All, true};
ghost use Rattle.dr_base.specs.Bytes.{AreBytes};
ghost use Rattle.grammar.specs.Grammar.{IsWholeGrammar};
ghost use Rattle.relay_core.specs.Boxes.{Box, answers_read, box_of};
ghost use Rattle.relay_core.specs.Changes.{IsChange};
ghost use Rattle.relay_core.specs.Counters.{AreOwn, Passage, RiseIn, box_through, counters, counters_through};
ghost use Rattle.relay_core.specs.Lawful.{IsLawfulBox, IsLawfulRead};
ghost use Rattle.relay_core.specs.Record.{box_read, box_text, saved_read, saved_text};
ghost use Rattle.relay_core.specs.Saved.{IsLawfulSaved};
ghost use Rattle.relay_core.specs.Streams.{IsIsolated, served, told};
ghost use Rattle.relay_core.specs.Versions.{is_newest};
ghost use Rattle.relay_core.specs.Witness.{annas_box, annas_counters, annas_passages};
ghost use Rattle.relay_guard.specs.declared.guard.Role.{Role};
ghost use Rattle.relay_guard.specs.declared.guard.Role.TheVariants.{Owner};
ghost use Rattle.relay_wire.specs.Replies.{IsLawfulReplied};
ghost use Rattle.relay_wire.specs.Requests.{Asked};

pub use crate::limits::limits_in_numbers;

/// Each box answers by itself: over every stream, its replies hang on it and on the requests for it
/// alone.
pub fn isolation()
    ensures { (name : List ℕ) (boxes : List Box) (stream : List ℕ)
        → IsIsolated name boxes (served boxes stream) }
{}

/// A request changes at most the box whose place the answer tells.
pub fn changes()
    ensures { (boxes : List Box) (asked : Result Asked ℕ)
        → IsChange boxes (answers_read boxes asked) }
{}

/// Lawful requests, and frames that are none, keep lawful boxes lawful, and are answered lawfully.
pub fn lawfulness()
    ensures replies { (boxes : List Box) (asked : Result Asked ℕ) → All IsLawfulBox boxes
        → IsLawfulRead asked →
        IsLawfulReplied (answers_read boxes asked).reply }
    ensures boxes { (boxes : List Box) (asked : Result Asked ℕ) → All IsLawfulBox boxes
        → IsLawfulRead asked →
        All IsLawfulBox (answers_read boxes asked).next }
{}

/// Of the requests that a guarded box answered as served under one of its keys, all counters differ
/// and rise, from above the last one that its guard had to the one that it has then: over every
/// stream, and over all that the box goes through, crashes included.
pub fn counters_rise()
    ensures stream { (role : Role) (name : List ℕ) (boxes : List Box) (stream : List ℕ)
        → RiseIn role (box_of name boxes) (box_of name (served boxes stream).next)
        (counters role (told name (served boxes stream).exchanges)) }
    ensures through { (role : Role) (box : Option Box) (passages : List Passage)
        → AreOwn box passages
        → RiseIn role box (box_through box passages) (counters_through role passages) }
{}

/// What `counters_rise` speaks of is there: a box of which requests are answered as served, under
/// counters that rise past a crash and past a denial.
pub fn counters_are_told()
    ensures own { AreOwn (Some annas_box) annas_passages }
    ensures counters { counters_through Owner annas_passages ≡ annas_counters }
{}

/// The law of each version of the record: a lawful box that the version knows is read as it was
/// printed, and nothing else is read.
pub fn versions()
    ensures { IsWholeGrammar saved_text IsLawfulSaved saved_read }
{}

/// The law of the record, in whatever version: a lawful box's text, which is in the newest one, is
/// read as that box; what any text is read as is lawful; and a text that begins as the newest
/// version does is the one that is written.
pub fn records()
    ensures printed_is_read { (box : Box) → IsLawfulBox box → box_read (box_text box) ≡ Ok box }
    ensures lawful { (text : List ℕ) (box : Box) → AreBytes text → box_read text ≡ Ok box
        → IsLawfulBox box }
    ensures newest { (text : List ℕ) (box : Box) → AreBytes text → box_read text ≡ Ok box
        → is_newest text ≡ true → text ≡ box_text box }
    ensures bytes { (box : Box) → is_newest (box_text box) ≡ true }
{}
