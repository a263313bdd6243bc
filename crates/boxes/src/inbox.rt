//! The inbox: the texts that came in, each under its position, with its kind.

ghost use Rattle.std.specs.Prelude.{◌≡◌, ◌<◌, ◌≤◌, ◌↔◌, [], length, All, option_map, slice_get, IsSome, IfOk, IfSome};
ghost use Rattle.std.specs.List.{list_any};
ghost use Rattle.boxes.specs.Changes.{Pushes, DropsAll, DropsFirst};
ghost use Rattle.boxes.specs.Entries.{entry_with, is_of};

use crate::errors::{Fewer, Full, NoLong};
use crate::part::is_part_under;
use crate::row::Row;
use dr_base::{INBOX_LIMIT, Position, TEXT_LIMIT};
use std::alloc::{AllocError, Global};
use std::marker::Model;

/// A text of the inbox, its kind, and its position in the conversation.
#[derive(Clone, Copy)]
pub struct Entry<'a> {
    pub position: Position,
    pub kind: u8,
    pub text: &'a [u8],
}

impl Entry<'_> {
    ghost use Rattle.boxes.specs.Seen.{entry_seen};

    /// Whether it is a part of the long text of an id.
    pub fn is_of(&self, id: u32) -> bool
        ensures { result ≡ is_of id (entry_seen self.now) }
    {
        is_part_under(id, self.kind, self.text)
    }
}

/// The texts that came in. A contract sees the list of them, the oldest first.
///
/// It has room for `INBOX_LIMIT` texts of `TEXT_LIMIT` bytes, taken when it is made.
#[derive(Drop)]
pub struct Inbox {
    row: Row<INBOX_LIMIT, TEXT_LIMIT>,
}

impl Model for Inbox {
    ghost use Rattle.std.specs.Prelude.{List, map};
    ghost use Rattle.boxes.specs.Entries.{Entry, as_entry};

    ghost Value = { List Entry };

    ghost view = { λ inbox. map as_entry inbox.row };
}

impl Inbox {
    ghost use Rattle.boxes.specs.Seen.{entry_seen};

    /// An empty inbox, with all the memory that it will ever use.
    pub fn new(alloc: Global) -> Result<Inbox, AllocError>
        ensures { IfOk result (λ inbox. inbox ≡ []) }
    {
        let row = Row::new(alloc)?;
        Ok(Inbox { row })
    }

    /// Appends a text of a kind under its position.
    pub fn push(&mut self, position: Position, kind: u8, text: &[u8]) -> Result<(), Full>
        requires { length text.now ≤ TEXT_LIMIT }
        ensures { Pushes INBOX_LIMIT self.old self.new (entry_with position kind text.now) result }
    {
        self.row.push(position, kind, text)
    }

    /// The text at a place and its kind, from 0, the oldest first.
    pub fn at(&self, at: usize) -> Option<Entry<'_>>
        ensures variant { IsSome result ↔ (at < length self.now) }
        ensures entry { option_map entry_seen result ≡ slice_get self.now at }
        ensures fits { IfSome result (λ entry. length entry.text.now ≤ TEXT_LIMIT) }
    {
        match self.row.at(at) {
            Some(stored) => Some(Entry {
                position: stored.position(),
                kind: stored.kind(),
                text: stored.bytes(),
            }),
            None => None,
        }
    }

    /// How many texts stand. None of them has more than `TEXT_LIMIT` bytes.
    pub fn len(&self) -> u32
        ensures value { result ≡ length self.now }
        ensures limit { result ≤ INBOX_LIMIT }
        ensures room { All (λ entry. length entry.text ≤ TEXT_LIMIT) self.now }
    {
        self.row.len() as u32
    }

    /// Drops the `n` oldest texts.
    pub fn drop_first(&mut self, n: u32) -> Result<(), Fewer>
        ensures { DropsFirst n self.old self.new result }
    {
        self.row.drop_first(n)
    }

    /// Whether a part of the long text of an id stands.
    pub fn has_long(&self, id: u32) -> bool
        ensures { result ≡ list_any (is_of id) self.now }
    {
        'entries: for at in 0..self.len() as usize {
            match self.at(at) {
                Some(entry) => {
                    if entry.is_of(id) {
                        return true;
                    }
                }
                None => unreachable!(),
            }
        }
        false
    }

    /// Drops each part of the long text of an id; the others stay in their order. `NoLong` comes
    /// exactly where none stands, and leaves the inbox as it was.
    pub fn drop_long(&mut self, id: u32) -> Result<(), NoLong>
        ensures { DropsAll (is_of id) self.old self.new result }
    {
        self.row.drop_long(id)
    }
}
