//! What printed lines say. These functions have no code: a caller that needs a fact calls one.

ghost use Rattle.std.specs.Prelude.{◌≡◌, Some};
ghost use Rattle.scripts.specs.Deeds.{Deed};
ghost use Rattle.scripts.specs.Printed.{IsSayable, line_text};
ghost use Rattle.scripts.specs.Words.{line_read};

/// Lines print back what they say: the line that is printed of a deed is read as that deed.
pub fn lines_print_back()
    ensures { (deed : Deed) → IsSayable deed → line_read (line_text deed) ≡ Some deed }
{}
