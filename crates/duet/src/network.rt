//! The network: it holds every packet that it got, and may change a bit of one.

ghost use Rattle.std.specs.Prelude.{◌≡◌, ◌%◌, ◌^◌, ◌<◌, ◌≤◌, bit_xor, length, option_copied, option_map, slice_index, slice_set, IfSome};
ghost use Rattle.dr_base.specs.Position.{is_at};
ghost use Rattle.dr_model.specs.Machines.Network.{flipped, flipped_at, held_at, held_nth, is_from_peer, packet_given};
ghost use Rattle.scripts.specs.Seen.{source_of};

use dr_base::{PACKET_LIMIT, Position, Side, in_room};
use parties::{Packet, Post};
use scripts::{Source, hex_bytes};

/// The value of each bit of a byte, the lowest first.
const BITS: [u8; 8] = [1, 2, 4, 8, 16, 32, 64, 128];

/// Whether a packet stands under a position.
fn is_at(post: &Post, position: Position) -> bool
    ensures { result ≡ is_at position post.now.position }
{
    let at = post.position();
    at.epoch == position.epoch && at.index == position.index
}

/// Whether the other side than this made the packet.
fn is_from_peer(post: &Post, side: Side) -> bool
    ensures { result ≡ is_from_peer side post.now }
{
    !side.owns(post.position().epoch)
}

/// The packet of a position.
fn held_at(posts: &[Post], position: Position) -> Option<&[u8]>
    ensures packet { option_copied result ≡ held_at posts.now position }
    ensures fits { IfSome result (λ bytes. length bytes.now ≤ PACKET_LIMIT) }
{
    'posts: for post in posts {
        if is_at(post, position) {
            return Some(post.packet());
        }
    }
    None
}

/// The packet that the other side than this made, counted from 1.
fn held_nth(posts: &[Post], side: Side, nth: u32) -> Option<&[u8]>
    ensures packet { option_copied result ≡ held_nth posts.now side nth }
    ensures fits { IfSome result (λ bytes. length bytes.now ≤ PACKET_LIMIT) }
{
    let mut left = nth;
    'posts: for post in posts {
        if is_from_peer(post, side) {
            if left == 1 {
                return Some(post.packet());
            }
            left = left.saturating_sub(1);
        }
    }
    None
}

/// The value of a bit.
fn bit_value(bit: u32) -> u8
    ensures { result ≡ 2 ^ (bit % 8) }
{
    BITS[(bit % 8) as usize]
}

/// Changes one bit of the byte at a place.
fn flip_at(bytes: &mut [u8], at: usize, value: u8)
    requires { at < length bytes.old }
    ensures { bytes.new ≡ slice_set bytes.old at (bit_xor (slice_index bytes.old at) value) }
{
    bytes[at] ^= value;
}

/// A copy of these bytes with one bit changed, counted from the lowest of the first byte, if they
/// have that bit.
#[tactic(auto, unfolding(dr_model::specs::Machines::Network::flipped))]
fn flipped(bit: u32, bytes: &[u8]) -> Option<Packet>
    requires { length bytes.now ≤ PACKET_LIMIT }
    ensures { option_map (λ packet. packet.items) result ≡ flipped bit bytes.now }
{
    let at = (bit / 8) as usize;
    if at >= bytes.len() {
        return None;
    }
    let mut packet = in_room(bytes);
    flip_at(packet.as_mut_slice(), at, bit_value(bit));
    Some(packet)
}

/// A copy of a packet, if there is one.
fn copied(bytes: Option<&[u8]>) -> Option<Packet>
    requires { IfSome bytes (λ bytes. length bytes.now ≤ PACKET_LIMIT) }
    ensures { option_map (λ packet. packet.items) result ≡ option_copied bytes.entry }
{
    match bytes {
        Some(bytes) => Some(in_room(bytes)),
        None => None,
    }
}

/// A copy of the packet of a position with one bit changed, if it has that bit.
fn held_flipped(posts: &[Post], position: Position, bit: u32) -> Option<Packet>
    ensures { option_map (λ packet. packet.items) result ≡ flipped_at posts.now position bit }
{
    match held_at(posts, position) {
        Some(bytes) => flipped(bit, bytes),
        None => None,
    }
}

/// The packet that a side takes, if the network has it to give.
pub fn packet_of(posts: &[Post], side: Side, source: Source<'_>) -> Option<Packet>
    ensures { option_map (λ packet. packet.items) result
        ≡ packet_given posts.now side (source_of source.entry) }
{
    match source {
        Source::At(position) => copied(held_at(posts, position)),
        Source::Nth(nth) => copied(held_nth(posts, side, nth)),
        Source::Flipped(position, bit) => held_flipped(posts, position, bit),
        Source::Bytes(digits) => Some(hex_bytes(digits)),
    }
}
