//! The tape of a disk that records its calls.

ghost use Rattle.std.specs.Prelude.{◌≡◌, ◌↔◌, ◌+◌, ◌<◌, ◌≤◌, [], ◌∷◌, ◌++◌, length, vec_len, vec_capacity, IfOk, IsTrue, true, false};

use std::alloc::{AllocError, Global};

/// A write or a sync that was recorded. The bytes of all writes lie one after the other.
#[derive(Clone, Copy)]
pub struct Recorded {
    pub at: u64,
    pub len: usize,
    pub is_sync: bool,
}

/// What was recorded, in room taken at the beginning.
#[derive(Drop)]
pub(crate) struct Tape {
    pub(crate) calls: Vec<Recorded>,
    pub(crate) bytes: Vec<u8>,
    calls_room: usize,
    bytes_room: usize,
    ghost calls_fit: { vec_len calls ≤ calls_room },
    ghost calls_kept: { calls_room ≤ vec_capacity calls },
    ghost bytes_fit: { vec_len bytes ≤ bytes_room },
    ghost bytes_kept: { bytes_room ≤ vec_capacity bytes },
}

impl Tape {
    /// An empty tape with room for this many calls, and this many bytes of them.
    pub(crate) fn new(alloc: Global, calls: usize, bytes: usize) -> Result<Tape, AllocError>
        ensures calls { IfOk result (λ tape. tape.calls.items ≡ []) }
        ensures bytes { IfOk result (λ tape. tape.bytes.items ≡ []) }
        ensures calls_room { IfOk result (λ tape. tape.calls_room ≡ calls) }
        ensures bytes_room { IfOk result (λ tape. tape.bytes_room ≡ bytes) }
    {
        Ok(Tape {
            calls: Vec::with_capacity(alloc, calls)?,
            bytes: Vec::with_capacity(alloc, bytes)?,
            calls_room: calls,
            bytes_room: bytes,
        })
    }

    /// Whether a call with this many bytes can be recorded.
    pub(crate) fn has_room(&self, len: usize) -> bool
        ensures { IsTrue result ↔ (length self.now.calls.items < self.now.calls_room)
            × (length self.now.bytes.items + len ≤ self.now.bytes_room) }
    {
        self.calls.len() < self.calls_room && len <= self.bytes_room - self.bytes.len()
    }

    /// Records a write.
    pub(crate) fn write(&mut self, at: u64, bytes: &[u8])
        requires calls { length self.old.calls.items < self.old.calls_room }
        requires bytes { length self.old.bytes.items + length bytes.now ≤ self.old.bytes_room }
        ensures calls { self.new.calls.items
            ≡ self.old.calls.items ++ record { at = at; len = length bytes.now; is_sync = false }
            ∷ [] }
        ensures bytes { self.new.bytes.items ≡ self.old.bytes.items ++ bytes.now }
        ensures calls_room { self.new.calls_room ≡ self.old.calls_room }
        ensures bytes_room { self.new.bytes_room ≡ self.old.bytes_room }
    {
        self.bytes.extend_from_slice(bytes).unwrap();
        self.calls
            .push(Recorded {
                at,
                len: bytes.len(),
                is_sync: false,
            })
            .unwrap();
    }

    /// Records a sync.
    pub(crate) fn sync(&mut self)
        requires { length self.old.calls.items < self.old.calls_room }
        ensures calls { self.new.calls.items
            ≡ self.old.calls.items ++ record { at = 0; len = 0; is_sync = true } ∷ [] }
        ensures bytes { self.new.bytes.items ≡ self.old.bytes.items }
        ensures calls_room { self.new.calls_room ≡ self.old.calls_room }
        ensures bytes_room { self.new.bytes_room ≡ self.old.bytes_room }
    {
        self.calls
            .push(Recorded {
                at: 0,
                len: 0,
                is_sync: true,
            })
            .unwrap();
    }
}
