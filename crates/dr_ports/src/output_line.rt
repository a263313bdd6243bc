//! A line that is put together before it is written.

ghost use Rattle.std.specs.Prelude.{◌≡◌, ℕ, ◌+◌, ◌≤◌, List, [], ◌++◌, length, decimal};
ghost use Rattle.dr_ports.specs.Limits.{HasLimits};

use arrayvec::ArrayVec;
use itoa::Buffer;
use std::marker::Model;

/// How many bytes a line has room for.
pub const ROOM: usize = 128;

/// The bytes of a line so far, in room of its own.
#[derive(Drop)]
pub struct OutputLine {
    bytes: ArrayVec<u8, 128>,
}

impl Model for OutputLine {
    ghost Value = { List ℕ };

    ghost view = { λ line. line.bytes.items };
}

impl OutputLine {
    /// An empty line.
    pub fn new() -> Self
        ensures { result ≡ [] }
    {
        OutputLine {
            bytes: ArrayVec::new(),
        }
    }

    /// Puts a text after what stands.
    pub fn text(&mut self, text: &[u8])
        requires { length self.old + length text.now ≤ ROOM }
        ensures bytes { self.new ≡ self.old ++ text.now }
        ensures len { length self.new ≡ length self.old + length text.now }
    {
        self.bytes.try_extend_from_slice(text).unwrap();
    }

    /// Puts a number after what stands, in decimal digits, of which it has at most 20.
    pub fn number(&mut self, number: u64)
        requires { length self.old + 20 ≤ ROOM }
        ensures bytes { self.new ≡ self.old ++ decimal number }
        ensures len { length self.new ≤ length self.old + 20 }
    {
        let mut buffer = Buffer::new();
        self.text(buffer.format(number).as_bytes());
    }

    /// The bytes of the line.
    pub fn as_bytes(&self) -> &[u8]
        ensures { result.now ≡ self.now }
    {
        self.bytes.as_slice()
    }
}

/// The limits of this crate as numbers. The function has no code.
pub fn limits_in_numbers()
    ensures { HasLimits }
{}
