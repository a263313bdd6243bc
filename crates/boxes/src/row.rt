//! A row of at most `LIMIT` items, the oldest first, each of at most `ROOM` bytes, in memory that
//! is taken once.

ghost use Rattle.std.specs.Prelude.{◌≡◌, ◌^◌, ◌<◌, ◌≤◌, ◌↔◌, ◌∷◌, ◌++◌, [], length, vec_capacity, All, option_copied, slice_get, IsSome, IfOk};
ghost use Rattle.boxes.specs.Changes.{Pushes, DropsAll, DropsFirst};
ghost use Rattle.boxes.specs.Items.{is_item_of, item_at};
ghost use Rattle.boxes.specs.Rooms.{turned_front};

use crate::errors::{Fewer, Full, NoLong};
use crate::leaving::keep_others;
use arrayvec::ArrayVec;
use dr_base::{Position, in_room};
use std::alloc::{AllocError, Global};
use std::marker::Model;

/// One item of a row: a position, a kind, and at most `ROOM` bytes in room of their own.
#[derive(Drop)]
pub struct Stored<const ROOM: usize> {
    position: Position,
    kind: u8,
    bytes: ArrayVec<u8, ROOM>,
}

impl<const ROOM: usize> Model for Stored<ROOM> {
    ghost use Rattle.boxes.specs.Items.{Item, item_at};

    ghost Value = { Item };

    ghost view = { λ s. item_at s.position s.kind s.bytes.items };
}

impl<const ROOM: usize> Stored<ROOM> {
    /// An item of these bytes, of a kind, under a position.
    pub fn new(position: Position, kind: u8, bytes: &[u8]) -> Self
        requires { length bytes.now ≤ ROOM }
        ensures { result ≡ item_at position kind bytes.now }
    {
        Stored {
            position,
            kind,
            bytes: in_room(bytes),
        }
    }

    /// Becomes the item of these bytes, of a kind, under a position, in its room.
    fn refill(&mut self, position: Position, kind: u8, bytes: &[u8])
        requires { length bytes.now ≤ ROOM }
        ensures { self.new ≡ item_at position kind bytes.now }
    {
        self.position = position;
        self.kind = kind;
        self.bytes.clear();
        let _whole = self.bytes.try_extend_from_slice(bytes);
    }

    /// The position under which the item stands.
    pub fn position(&self) -> Position
        ensures { result ≡ self.now.position }
    {
        self.position
    }

    /// The kind of the item.
    pub fn kind(&self) -> u8
        ensures { result ≡ self.now.kind }
    {
        self.kind
    }

    /// The bytes of the item.
    pub fn bytes(&self) -> &[u8]
        ensures value { result.now ≡ self.now.bytes }
        ensures fits { length result.now ≤ ROOM }
    {
        self.bytes.as_slice()
    }
}

/// A list of at most `LIMIT` items, the oldest first, each of at most `ROOM` bytes. A contract sees
/// the list of them. All its memory is taken when it is made: no later call allocates. A room of it
/// is written once an item stands in it, and no sooner.
///
/// An item stays in its room for as long as it stands. What moves is the order of the rooms'
/// numbers: first come the `held` rooms with an item, the oldest first, and then those that are
/// free.
#[derive(Drop)]
pub struct Row<const LIMIT: usize, const ROOM: usize> {
    rooms: Vec<Stored<ROOM>>,
    order: Vec<usize>,
    held: usize,
    ghost rooms_kept: { LIMIT ≤ vec_capacity rooms },
    ghost order_kept: { LIMIT ≤ vec_capacity order },
}

impl<const LIMIT: usize, const ROOM: usize> Model for Row<LIMIT, ROOM> {
    ghost use Rattle.std.specs.Prelude.{List};
    ghost use Rattle.boxes.specs.Items.{Item};
    ghost use Rattle.boxes.specs.Rooms.{AreRooms, standing};

    ghost Value = { List Item };

    ghost view = { λ r. standing r.rooms.items r.held r.order.items };

    ghost invariant = { λ r. AreRooms LIMIT ROOM r.rooms.items r.held r.order.items };
}

/// Makes one more room, the last in the order, with the item of these bytes, of a kind, under a
/// position.
#[inline(never)]
fn add_room<const ROOM: usize>(
    rooms: &mut Vec<Stored<ROOM>>,
    order: &mut Vec<usize>,
    position: Position,
    kind: u8,
    bytes: &[u8],
)
    requires fits { length bytes.now ≤ ROOM }
    requires room { length rooms.old.items < vec_capacity rooms.old }
    requires place { length order.old.items < vec_capacity order.old }
    ensures rooms { rooms.new.items ≡ rooms.old.items ++ item_at position kind bytes.now ∷ [] }
    ensures order { order.new.items ≡ order.old.items ++ length rooms.old.items ∷ [] }
    ensures rooms_kept { vec_capacity rooms.old ≤ vec_capacity rooms.new }
    ensures order_kept { vec_capacity order.old ≤ vec_capacity order.new }
{
    order.push(rooms.len()).unwrap();
    rooms.push(Stored::new(position, kind, bytes)).unwrap();
}

/// Moves the first `n` numbers of an order behind the others of those that are held.
fn turn_front(order: &mut [usize], held: usize, n: usize)
    requires few { n ≤ held }
    requires front { held ≤ length order.old }
    ensures { order.new ≡ turned_front held n order.old }
{
    order[..held].rotate_left(n);
}

impl<const LIMIT: usize, const ROOM: usize> Row<LIMIT, ROOM> {
    /// An empty row, with all the memory that it will ever use. An error comes only where there is
    /// too little memory.
    pub fn new(alloc: Global) -> Result<Self, AllocError>
        ensures { IfOk result (λ row. row ≡ []) }
    {
        Ok(Row {
            rooms: Vec::with_capacity(alloc, LIMIT)?,
            order: Vec::with_capacity(alloc, LIMIT)?,
            held: 0,
        })
    }

    /// How many items stand. None of them has more than `ROOM` bytes.
    pub fn len(&self) -> usize
        ensures value { result ≡ length self.now }
        ensures limit { result ≤ LIMIT }
        ensures room { All (λ item. length item.bytes ≤ ROOM) self.now }
    {
        self.held
    }

    /// Appends an item of these bytes, of a kind, under a position. A full row stays as it was.
    pub fn push(&mut self, position: Position, kind: u8, bytes: &[u8]) -> Result<(), Full>
        requires { length bytes.now ≤ ROOM }
        ensures { Pushes LIMIT self.old self.new (item_at position kind bytes.now) result }
    {
        if self.held >= LIMIT {
            return Err(Full);
        }
        if self.held == self.rooms.len() {
            add_room(&mut self.rooms, &mut self.order, position, kind, bytes);
            self.held += 1;
            return Ok(());
        }
        let number = self.order[self.held];
        self.rooms[number].refill(position, kind, bytes);
        self.held += 1;
        Ok(())
    }

    /// The item at a place, from 0, the oldest first.
    pub fn at(&self, at: usize) -> Option<&Stored<ROOM>>
        ensures variant { IsSome result ↔ (at < length self.now) }
        ensures item { option_copied result ≡ slice_get self.now at }
    {
        if at >= self.held {
            return None;
        }
        Some(&self.rooms[self.order[at]])
    }

    /// Drops the `n` oldest items. Where fewer stand, the row stays as it was, and the error says
    /// how many stand.
    pub fn drop_first(&mut self, n: u32) -> Result<(), Fewer>
        requires { LIMIT < 2 ^ 32 }
        ensures { DropsFirst n self.old self.new result }
    {
        let held = self.len() as u32;
        if held < n {
            return Err(Fewer { held });
        }
        turn_front(self.order.as_mut_slice(), self.held, n as usize);
        self.held -= n as usize;
        Ok(())
    }

    /// Drops each item that is a part of the long text of an id; the others stay in their order.
    /// Where none is one, the row stays as it was.
    pub fn drop_long(&mut self, id: u32) -> Result<(), NoLong>
        ensures { DropsAll (is_item_of id) self.old self.new result }
    {
        if self.held == 0 {
            return Err(NoLong);
        }
        let kept = keep_others(
            self.order.as_mut_slice(),
            self.held,
            self.rooms.as_slice(),
            id,
        );
        if kept == self.held {
            return Err(NoLong);
        }
        self.held = kept;
        Ok(())
    }
}
