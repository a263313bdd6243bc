//! The laws of the words that callers see. The functions have no code.

ghost use Rattle.slot_store.specs.Laws.{DependsOnAreaAlone, IsRead, IsResting, StandsInWider};

/// At rest an area has its store's record, and its bytes are a function of the record and the mark.
pub fn resting()
    ensures { IsResting }
{}

/// A store speaks of the bytes of its area alone.
pub fn locality()
    ensures { DependsOnAreaAlone }
{}

/// What bytes are read as without damage is what they stand for.
pub fn readings()
    ensures { IsRead }
{}

/// An area that gets more pages on a longer disk is read as before.
pub fn widening()
    ensures { StandsInWider }
{}
