//! What holds over whole runs of a book. The functions have no code: a caller that needs a fact
//! calls them. The lemmas that prove them speak of any kinds of values, also of those that no code
//! has, and stand in `proofs/Running`.

ghost use Rattle.std.specs.Prelude.{◌≡◌};
ghost use Rattle.book_model.specs.Independence.{AreAlikeFor, IsAnsweredAlone, IsIndependent, asked_of, replies_of};
ghost use Rattle.book_model.specs.Runs.{run};
ghost use Rattle.book_model.specs.Steps.{Sessions};
ghost use Rattle.book_model.specs.Witness.{anna, asked_of_anna, bobs_book, bobs_events, bobs_outcomes, carls_book, carls_events, carls_outcomes, outcomes, said_to_anna, tallies};

/// A book that isn't closed, and meets no fault of its store, no want of memory and no full book,
/// answers the calls for a name as a session by itself. That one begins with what is kept under the
/// name, or with nothing. A fan that is done counts as a call for each of its names, a refused one
/// as none.
pub fn answered_alone<Content, Answer, Refusal, Call, Begin>()
    ensures { (k : Sessions Content Answer Refusal Call Begin) → IsAnsweredAlone k }
{}

/// Take any two lists of events on two books, with the same calls for a name, where both books keep
/// the same under it or nothing. Where neither is closed, and neither meets a fault of its store, a
/// want of memory or a full book, the answers for that name are equal.
pub fn independence<Content, Answer, Refusal, Call, Begin>()
    ensures { (k : Sessions Content Answer Refusal Call Begin) → IsIndependent k }
{}

/// There are two such lists, on two such books. One has a fan that is done and the other a fan that
/// is refused, they differ in all that is asked under other names, and the name is answered to.
pub fn premises_are_met()
    ensures alike { AreAlikeFor tallies anna bobs_book carls_book bobs_events carls_events }
    ensures asked { asked_of anna (run tallies bobs_book bobs_events) ≡ asked_of_anna }
    ensures replies { replies_of anna (run tallies bobs_book bobs_events) ≡ said_to_anna }
    ensures bobs { outcomes (run tallies bobs_book bobs_events) ≡ bobs_outcomes }
    ensures carls { outcomes (run tallies carls_book carls_events) ≡ carls_outcomes }
{}
