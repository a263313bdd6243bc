//! A packet under its position.

ghost use Rattle.std.specs.Prelude.{◌≡◌, ◌≤◌, length};
ghost use Rattle.boxes.specs.Posts.{post_under};

use arrayvec::ArrayVec;
use dr_base::{PACKET_LIMIT, Position, in_room};
use scripts::HEX_LIMIT;
use std::marker::Model;

/// The bytes of a packet, or those that a line gives for one.
pub type Packet = ArrayVec<u8, HEX_LIMIT>;

/// A packet under its position, as the network holds it.
#[derive(Drop)]
pub struct Post {
    position: Position,
    packet: ArrayVec<u8, PACKET_LIMIT>,
}

impl Model for Post {
    ghost use Rattle.boxes.specs.Posts.{Post as Posted, post_under};

    ghost Value = { Posted };

    ghost view = { λ post. post_under post.position post.packet.items };
}

impl Post {
    /// A packet of these bytes under a position.
    pub fn new(position: Position, packet: &[u8]) -> Post
        requires { length packet.now ≤ PACKET_LIMIT }
        ensures { result ≡ post_under position packet.now }
    {
        Post {
            position,
            packet: in_room(packet),
        }
    }

    /// The position under which it stands.
    pub fn position(&self) -> Position
        ensures { result ≡ self.now.position }
    {
        self.position
    }

    /// Its bytes.
    pub fn packet(&self) -> &[u8]
        ensures value { result.now ≡ self.now.packet }
        ensures fits { length result.now ≤ PACKET_LIMIT }
    {
        self.packet.as_slice()
    }
}
