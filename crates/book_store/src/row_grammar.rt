//! The texts that a book's rows hold, and who reads them.

ghost use Rattle.std.specs.Prelude.{IfOk};

use paged_records::Grammar;
use std::alloc::{AllocError, Global};

/// A grammar of records, of which a reader is made for each row that is present.
pub trait RowGrammar: Grammar {
    /// A reader that has read nothing.
    fn fresh(alloc: Global) -> Result<Self, AllocError>
        ensures { IfOk result Self.is_new };
}
