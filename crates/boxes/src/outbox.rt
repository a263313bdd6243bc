//! The outbox: the packets that wait to go out, each under its position.

ghost use Rattle.std.specs.Prelude.{◌≡◌, ◌<◌, ◌≤◌, ◌↔◌, [], length, All, option_map, slice_get, IsSome, IfOk, IfSome};
ghost use Rattle.boxes.specs.Changes.{Pushes, DropsFirst};
ghost use Rattle.boxes.specs.Posts.{post_under};

use crate::errors::{Fewer, Full};
use crate::row::Row;
use dr_base::{OUTBOX_LIMIT, PACKET_LIMIT, Position};
use std::alloc::{AllocError, Global};
use std::marker::Model;

/// The kind under which packets stand in the row, which nobody asks for.
const NO_KIND: u8 = 0;

/// The packets that wait to go out. A contract sees the list of them, the oldest first.
///
/// It has room for `OUTBOX_LIMIT` packets of `PACKET_LIMIT` bytes, taken when it is made.
#[derive(Drop)]
pub struct Outbox {
    row: Row<OUTBOX_LIMIT, PACKET_LIMIT>,
}

impl Model for Outbox {
    ghost use Rattle.std.specs.Prelude.{List, map};
    ghost use Rattle.boxes.specs.Posts.{Post, as_post};

    ghost Value = { List Post };

    ghost view = { λ outbox. map as_post outbox.row };
}

impl Outbox {
    /// An empty outbox, with all the memory that it will ever use.
    pub fn new(alloc: Global) -> Result<Outbox, AllocError>
        ensures { IfOk result (λ outbox. outbox ≡ []) }
    {
        let row = Row::new(alloc)?;
        Ok(Outbox { row })
    }

    /// Appends a packet under its position.
    pub fn push(&mut self, position: Position, packet: &[u8]) -> Result<(), Full>
        requires { length packet.now ≤ PACKET_LIMIT }
        ensures { Pushes OUTBOX_LIMIT self.old self.new (post_under position packet.now) result }
    {
        self.row.push(position, NO_KIND, packet)
    }

    /// The packet at a place, from 0, the oldest first, and its position.
    pub fn at(&self, at: usize) -> Option<(Position, &[u8])>
        ensures variant { IsSome result ↔ (at < length self.now) }
        ensures packet { option_map (λ pair. post_under pair.0 pair.1.now) result
            ≡ slice_get self.now at }
        ensures fits { IfSome result (λ pair. length pair.1.now ≤ PACKET_LIMIT) }
    {
        match self.row.at(at) {
            Some(stored) => Some((stored.position(), stored.bytes())),
            None => None,
        }
    }

    /// How many packets stand. None of them has more than `PACKET_LIMIT` bytes.
    pub fn len(&self) -> u32
        ensures value { result ≡ length self.now }
        ensures limit { result ≤ OUTBOX_LIMIT }
        ensures room { All (λ post. length post.packet ≤ PACKET_LIMIT) self.now }
    {
        self.row.len() as u32
    }

    /// Drops the `n` oldest packets.
    pub fn drop_first(&mut self, n: u32) -> Result<(), Fewer>
        ensures { DropsFirst n self.old self.new result }
    {
        self.row.drop_first(n)
    }
}
