//! The sessions of a fan.

ghost use Rattle.std.specs.Prelude.{◌≡◌, ◌<◌, ◌≤◌, Some, [], false, get_or, length, true};
ghost use Rattle.relay_wire.specs.declared.limits.TheConstants.{NAME_LIMIT};
ghost use Rattle.book.specs.Fanning.{AddsTo, IsListed, IsUnlisted};
ghost use Rattle.book.specs.Fans.{AreListed, IsFanList, said_at};
ghost use Rattle.book.specs.RowKeepings.{name_of, row_at};

use crate::book::Book;
use crate::row::{core_of, row_name};
use arrayvec::ArrayVec;
use dr_base::Position;
use kem_laws::Kem;
use std::marker::Model;
use thiserror::Error;

/// How many sessions a fan may have.
pub const FAN_LIMIT: usize = 8;

/// Why a session isn't added to a fan.
#[derive(Clone, Copy, Debug, PartialEq, Eq, Error)]
pub enum FanAddError {
    /// No row has the name.
    #[error("no row has this name")]
    NoName,
    /// The session is in the fan.
    #[error("the session is in the fan")]
    Twice,
    /// So many sessions are in the fan as may be.
    #[error("the fan is full")]
    FanFull,
}

/// Up to eight sessions of a book, each once, which say one text. A contract sees the places of
/// their rows. No session may begin or be forgotten while it is in use.
#[derive(Drop)]
pub struct FanOut {
    pub(crate) places: ArrayVec<usize, FAN_LIMIT>,
}

impl Model for FanOut {
    ghost use Rattle.std.specs.Prelude.{List, ℕ};
    ghost use Rattle.book.specs.Fans.{IsFanList};

    ghost Value = { List ℕ };

    ghost view = { λ f. f.places.items };

    ghost invariant = { λ f. IsFanList f.places.items };
}

/// Whether a place is among these.
fn has(places: &[usize], at: usize) -> bool
    ensures found { result ≡ true → IsListed at places.now }
    ensures lost { result ≡ false → IsUnlisted at places.now }
{
    'places: for i in 0..places.len() {
        if places[i] == at {
            return true;
        }
    }
    false
}

impl FanOut {
    /// No session yet.
    pub fn new() -> FanOut
        ensures { result ≡ [] }
    {
        FanOut {
            places: ArrayVec::new(),
        }
    }

    /// How many sessions there are.
    pub fn len(&self) -> usize
        ensures { result ≡ length self.now }
    {
        self.places.len()
    }

    /// Whether there is none.
    pub fn is_empty(&self) -> bool
        ensures none { result ≡ true → self.now ≡ [] }
        ensures some { result ≡ false → 0 < length self.now }
    {
        self.places.is_empty()
    }

    /// Each session is there once: a caller that needs this calls it.
    pub(crate) fn is_fair(&self)
        ensures { IsFanList self.now }
    {
        let _places = &self.places;
    }

    /// The place of a session's row.
    pub(crate) fn place(&self, i: usize) -> usize
        requires { i < length self.now }
        ensures { result ≡ get_or self.now i 0 }
    {
        self.places[i]
    }

    /// Adds the session of a name. `NoName` exactly where no row has it, then `Twice` exactly where
    /// it is there, then `FanFull` exactly where eight are. None of these changes anything.
    pub fn add<K: Kem>(&mut self, book: &Book<K>, name: &str) -> Result<(), FanAddError>
        ensures adds { AddsTo name.now book.now.rows self.old self.new result }
        ensures listed { AreListed book.now.rows self.old → AreListed book.now.rows self.new }
    {
        let Some(at) = book.shelf.place(name) else {
            return Err(FanAddError::NoName);
        };
        if has(self.places.as_slice(), at) {
            return Err(FanAddError::Twice);
        }
        if self.places.is_full() {
            return Err(FanAddError::FanFull);
        }
        self.places.push(at);
        Ok(())
    }

    /// The name of the session at a place of the fan, from 0. The fan's sessions are those of this
    /// book as it stands.
    pub fn name<'a, K: Kem>(&self, book: &'a Book<K>, at: usize) -> &'a str
        requires listed { AreListed book.now.rows self.now }
        requires inside { at < length self.now }
        ensures name { name_of (row_at book.now.rows (get_or self.now at 0)) ≡ Some result.now }
        ensures fits { length result.now ≤ NAME_LIMIT }
    {
        match row_name(&book.shelf.rows[self.place(at)]) {
            Some(name) => name,
            None => unreachable!(),
        }
    }

    /// Where the latest own text stands of the session at a place of the fan, from 0, as it stands
    /// in the book; none exactly where the fan has no such place, or the session never said
    /// anything. The fan's sessions are those of this book as it stands.
    pub fn said<K: Kem>(&self, book: &Book<K>, at: usize) -> Option<Position>
        requires { AreListed book.now.rows self.now }
        ensures { result ≡ said_at book.now.rows self.now at }
    {
        if at >= self.len() {
            return None;
        }
        core_of(&book.shelf.rows[self.place(at)]).last_said()
    }
}
