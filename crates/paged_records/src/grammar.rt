//! The texts that a store holds, and who reads them.

ghost use Rattle.std.specs.Prelude.{◌≡◌, ℕ, List, Option, None, Some, MatchResult};

/// A grammar of records, and a reader of one record.
pub trait Grammar {
    /// The first place at which some bytes are no record, counted from their beginning, if they are
    /// none.
    ghost fault_at: { List ℕ → Option ℕ };

    /// A reader that has read nothing.
    ghost is_new: { Self → Type 0 };

    /// A reader that has read this record.
    ghost has_read: { Self → List ℕ → Type 0 };

    /// Reads a record. An error is the place of the first fault of bytes that are none.
    fn read(&mut self, text: &[u8]) -> Result<(), u32>
        requires { is_new self.old }
        ensures { MatchResult result
            (λ _. (fault_at text.now ≡ None) × has_read self.new text.now)
            (λ at. fault_at text.now ≡ Some at) };
}
