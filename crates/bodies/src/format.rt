//! How texts are sealed.

ghost use Rattle.std.specs.Prelude.{◌≡◌};
ghost use Rattle.bodies.specs.Formats.{format_read, version_of};

use dr_base::{PADDED, PLAIN, RECEIPTS};

/// How a session seals its texts. It opens packets of every format.
#[derive(Clone, Copy, PartialEq, Eq)]
pub enum Format {
    /// As they are: a packet shows the length of its text.
    Plain,
    /// Padded: a packet shows the length of its text by steps of 256 bytes alone.
    Padded,
    /// Padded, with a receipt of the other side's texts that were opened.
    Receipts,
}

impl Format {
    /// The format of a word: `plain`, `padded` or `receipts`.
    #[tactic(auto, unfolding(crate::specs::Formats::format_read))]
    pub fn named(word: &[u8]) -> Option<Format>
        ensures { result ≡ format_read word.now }
    {
        if word == b"plain".as_slice() {
            return Some(Format::Plain);
        }
        if word == b"padded".as_slice() {
            return Some(Format::Padded);
        }
        if word == b"receipts".as_slice() {
            return Some(Format::Receipts);
        }
        None
    }

    /// The version of its packets.
    pub fn version(self) -> u8
        ensures { result ≡ version_of self }
    {
        match self {
            Format::Plain => PLAIN,
            Format::Padded => PADDED,
            Format::Receipts => RECEIPTS,
        }
    }
}
