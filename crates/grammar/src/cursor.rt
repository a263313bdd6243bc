//! A place in a text, from which fields are read.

ghost use Rattle.std.specs.Prelude.{◌≡◌, ◌+◌, ◌^◌, ◌<◌, ◌↔◌, length, IfOk, IsTrue, MatchResult, OnErr};
ghost use Rattle.std.specs.Int.{w8, w16, w32, w64};
ghost use Rattle.grammar.specs.Reader.{number, piece};
ghost use Rattle.grammar.specs.Standing.{Reads};

use std::marker::Model;

/// A text from a place on. A contract sees the offset of that place and the bytes after it.
///
/// Each read gives a field and moves after it, or gives the offset of the field that the text ends
/// inside, and then stays where it was.
#[derive(Drop)]
pub struct Cursor<'a> {
    rest: &'a [u8],
    at: usize,
}

impl<'a> Model for Cursor<'a> {
    ghost use Rattle.std.specs.Prelude.{◌+◌, ◌^◌, ◌<◌, length};
    ghost use Rattle.grammar.specs.Standing.{Standing};

    ghost Value = { Standing };

    ghost view = { λ c. record { at = c.at; rest = c.rest.now } };

    ghost invariant = { λ c. c.at + length c.rest.now < 2 ^ 64 };
}

impl<'a> Cursor<'a> {
    /// The beginning of a text.
    pub fn new(text: &'a [u8]) -> Cursor<'a>
        ensures { result ≡ record { at = 0; rest = text.now } }
    {
        Cursor { rest: text, at: 0 }
    }

    /// The offset of the next byte.
    pub fn at(&self) -> usize
        ensures { result ≡ self.now.at }
    {
        self.at
    }

    /// Whether nothing is left.
    pub fn is_at_end(&self) -> bool
        ensures { IsTrue result ↔ (length self.now.rest ≡ 0) }
    {
        self.rest.is_empty()
    }

    /// The next bytes, this many, lent from the text.
    #[tactic(auto, unfolding(crate::specs::Reader::piece))]
    pub fn piece(&mut self, size: usize) -> Result<&'a [u8], usize>
        ensures reads { Reads (λ bytes. bytes.now) (piece size) self.old self.new result }
        ensures long { IfOk result (λ bytes. length bytes.now ≡ size) }
        ensures moves { MatchResult result (λ _. self.new.at ≡ self.old.at + size)
            (λ at. at ≡ self.old.at) }
        ensures err { OnErr result (self.new ≡ self.old) }
    {
        if self.rest.len() < size {
            return Err(self.at);
        }
        let (front, rest) = self.rest.split_at(size);
        self.rest = rest;
        self.at += size;
        Ok(front)
    }

    /// A number of one byte.
    #[tactic(auto, unfolding(crate::specs::Reader::piece, crate::specs::Reader::number))]
    pub fn number8(&mut self) -> Result<u8, usize>
        ensures reads { Reads (λ n. n) (number w8) self.old self.new result }
        ensures moves { MatchResult result (λ _. self.new.at ≡ self.old.at + 1)
            (λ at. at ≡ self.old.at) }
        ensures err { OnErr result (self.new ≡ self.old) }
    {
        let front = self.piece(1)?;
        Ok(front[0])
    }

    /// A number of two bytes, the high one first.
    #[tactic(auto, unfolding(crate::specs::Reader::piece, crate::specs::Reader::number))]
    pub fn number16(&mut self) -> Result<u16, usize>
        ensures reads { Reads (λ n. n) (number w16) self.old self.new result }
        ensures moves { MatchResult result (λ _. self.new.at ≡ self.old.at + 2)
            (λ at. at ≡ self.old.at) }
        ensures err { OnErr result (self.new ≡ self.old) }
    {
        let front = self.piece(2)?;
        Ok(u16::from_be_bytes([front[0], front[1]]))
    }

    /// A number of four bytes, the highest first.
    #[tactic(auto, unfolding(crate::specs::Reader::piece, crate::specs::Reader::number))]
    pub fn number32(&mut self) -> Result<u32, usize>
        ensures reads { Reads (λ n. n) (number w32) self.old self.new result }
        ensures moves { MatchResult result (λ _. self.new.at ≡ self.old.at + 4)
            (λ at. at ≡ self.old.at) }
        ensures err { OnErr result (self.new ≡ self.old) }
    {
        let front = self.piece(4)?;
        Ok(u32::from_be_bytes([front[0], front[1], front[2], front[3]]))
    }

    /// A number of eight bytes, the highest first.
    #[tactic(auto, unfolding(crate::specs::Reader::piece, crate::specs::Reader::number))]
    pub fn number64(&mut self) -> Result<u64, usize>
        ensures reads { Reads (λ n. n) (number w64) self.old self.new result }
        ensures moves { MatchResult result (λ _. self.new.at ≡ self.old.at + 8)
            (λ at. at ≡ self.old.at) }
        ensures err { OnErr result (self.new ≡ self.old) }
    {
        let bytes = self.piece(8)?;
        Ok(u64::from_be_bytes([
            bytes[0], bytes[1], bytes[2], bytes[3], bytes[4], bytes[5], bytes[6], bytes[7],
        ]))
    }
}
