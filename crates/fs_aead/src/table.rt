//! The table of the keys that were passed over.

ghost use Rattle.std.specs.Prelude.{◌≡◌, ◌+◌, ◌^◌, ◌<◌, ◌≤◌, ◌↔◌, [], length, remove, slice_index_or, IsTrue, IsOk, IfErr, IfNone};
ghost use Rattle.fs_aead.specs.Rows.{no_kept};
ghost use Rattle.fs_aead.specs.Table.{IsAscending, kept_key, without};

use crate::kept::{SkipLimit, copy_keys, room_for};
use crate::rows::mark_rows;
use arrayvec::ArrayVec;
use dr_base::{KEPT_LIMIT, Kept, Position};
use etm_aead::OpenKey;
use std::marker::Model;

/// The keys that were passed over, each for a text that is still to come. A contract sees the list
/// of them, which ascends by epoch and index.
///
/// It has room for `KEPT_LIMIT` keys, in the value itself: it allocates nothing. Beside the keys
/// stands where the row of each epoch begins.
#[derive(Drop)]
pub struct Skipped {
    pub(crate) keys: ArrayVec<Kept, KEPT_LIMIT>,
    pub(crate) starts: ArrayVec<u16, KEPT_LIMIT>,
}

impl Model for Skipped {
    ghost use Rattle.std.specs.Prelude.{◌≡◌, List};
    ghost use Rattle.dr_base.specs.declared.key.Kept.{Kept};
    ghost use Rattle.fs_aead.specs.Rows.{starts_of};
    ghost use Rattle.fs_aead.specs.Table.{IsAscending};

    ghost Value = { List Kept };

    ghost view = { λ s. s.keys.items };

    ghost invariant = { λ s. IsAscending s.keys.items × (s.starts.items ≡ starts_of s.keys.items) };
}

impl Default for Skipped {
    ghost is_default = { λ s. s ≡ [] };

    fn default() -> Skipped {
        Skipped::new()
    }
}

impl Skipped {
    /// An empty table.
    pub fn new() -> Skipped
        ensures { result ≡ [] }
    {
        Skipped {
            keys: ArrayVec::new(),
            starts: ArrayVec::new(),
        }
    }

    /// The table of these keys.
    pub fn resume(keys: &[Kept]) -> Skipped
        requires ascending { IsAscending keys.now }
        requires room { length keys.now ≤ KEPT_LIMIT }
        ensures { result ≡ keys.now }
    {
        let mut skipped = Skipped::new();
        copy_keys(keys, &mut skipped.keys);
        mark_rows(keys, &mut skipped.starts);
        skipped
    }

    /// Becomes a copy of another table, in place.
    pub fn copy_from(&mut self, from: &Skipped)
        ensures { self.new ≡ from.now }
    {
        copy_keys(from.keys.as_slice(), &mut self.keys);
        self.starts.clear();
        let _whole = self.starts.try_extend_from_slice(from.starts.as_slice());
    }

    /// The keys, in ascending order of their positions.
    pub fn kept(&self) -> &[Kept]
        ensures keys { result.now ≡ self.now }
        ensures ascending { IsAscending self.now }
        ensures room { length self.now ≤ KEPT_LIMIT }
    {
        self.keys.as_slice()
    }

    /// How many keys are kept.
    pub fn len(&self) -> usize
        ensures value { result ≡ length self.now }
        ensures room { result ≤ KEPT_LIMIT }
    {
        self.keys.len()
    }

    /// Whether no key is kept.
    pub fn is_empty(&self) -> bool
        ensures { IsTrue result ↔ (self.now ≡ []) }
    {
        self.keys.is_empty()
    }

    /// Whether `n` more keys have room.
    pub fn room_for(&self, n: u32) -> Result<(), SkipLimit>
        requires { length self.now + n < 2 ^ 32 }
        ensures ok { IsOk result ↔ (length self.now + n ≤ KEPT_LIMIT) }
        ensures err { IfErr result (λ limit. limit.would ≡ length self.now + n) }
    {
        room_for(self.kept(), n)
    }

    /// Takes the key of a position out of the table, if it is kept there.
    pub fn take(&mut self, position: Position) -> Option<OpenKey>
        ensures key { result ≡ kept_key self.old position }
        ensures rest { self.new ≡ without self.old position }
        ensures none { IfNone result (self.new ≡ self.old) }
    {
        match self.find(position) {
            Some(place) => Some(self.take_at(place)),
            None => None,
        }
    }

    /// Takes the key at a place out of the table, as `find` tells it. Only the keys after it move.
    pub fn take_at(&mut self, place: usize) -> OpenKey
        requires { place < length self.old }
        ensures key { result ≡ (slice_index_or self.old place no_kept).key.bytes }
        ensures rest { self.new ≡ remove self.old place }
    {
        let Kept { position: _, key } = self.keys.remove(place);
        mark_rows(self.keys.as_slice(), &mut self.starts);
        OpenKey::from_message(key)
    }
}
