//! The outbox of a record.

ghost use Rattle.std.specs.Prelude.{◌≡◌, ℕ, ◌+◌, ◌<◌, ◌≤◌, [], ◌∷◌, ◌++◌, length, drop, IfOk};
ghost use Rattle.std.specs.Int.{w8};
ghost use Rattle.boxes.specs.Posts.{post_under};
ghost use Rattle.dr_base.specs.Buffer.{Puts};
ghost use Rattle.dr_base.specs.declared.position.Position.{Position};
ghost use Rattle.grammar.specs.Printer.{print_counted, print_items};
ghost use Rattle.grammar.specs.Reader.{items};
ghost use Rattle.grammar.specs.Standing.{Reads};
ghost use Rattle.session_model.specs.Leaving.{left_in_outbox};
ghost use Rattle.session_record.specs.Changes.{FitsOutbox, outbox_after};
ghost use Rattle.session_record.specs.Lists.{outbox_field, post_field, post_of, post_text};

use crate::change::Change;
use crate::groups::Heading;
use crate::numbers::read_len;
use boxes::Outbox;
use cka::agreement_length;
use dr_base::{OUTBOX_LIMIT, PACKET_LIMIT, Position, put, put_u8, put_u16};
use grammar::Cursor;
use kem_laws::{Kem, laws};
use packet::{grammar, parse};
use session_model::{Items, Which};

/// A packet of the session, of an own epoch, and its position.
#[tactic(auto, unfolding(crate::specs::Lists::post_field, crate::specs::Lists::is_post, crate::specs::Lists::post_of))]
fn read_post<'a, K: Kem>(
    cursor: &mut Cursor<'a>,
    heading: &Heading,
) -> Result<(Position, &'a [u8]), usize>
    ensures reads { let h = heading.now in
        let post = post_field K.mechanism h.version h.session h.side h.epoch in
        Reads (λ p. post_under p.0 p.1.now) post cursor.old cursor.new result }
    ensures fits { IfOk result (λ p. length p.1.now ≤ PACKET_LIMIT) }
{
    laws::<K>();
    grammar();
    let size = cursor.number16()?;
    let at = cursor.at();
    let bytes = cursor.piece(usize::from(size))?;
    match parse(bytes, agreement_length::<K>()) {
        Err(_) => Err(at),
        Ok(view) => {
            let of = view.epoch();
            if *view.session() != heading.session || !heading.side.owns(of) || of > heading.epoch {
                return Err(at);
            }
            let sealed = view.ciphertext().len();
            if !heading.version.holds(view.version(), sealed) {
                return Err(at);
            }
            let position = Position {
                epoch: of,
                index: view.index(),
            };
            Ok((position, bytes))
        }
    }
}

/// This many packets, put into the outbox.
fn read_posts<K: Kem>(
    cursor: &mut Cursor<'_>,
    heading: &Heading,
    count: u8,
    outbox: &mut Outbox,
) -> Result<(), usize>
    requires few { count ≤ OUTBOX_LIMIT }
    requires empty { outbox.old ≡ [] }
    ensures { let h = heading.now in
        let post = post_field K.mechanism h.version h.session h.side h.epoch in
        Reads (λ _. outbox.new) (items (λ _. post) count) cursor.old cursor.new result }
{
    'posts: for _ in 0..count {
        let (position, packet) = read_post::<K>(cursor, heading)?;
        outbox.push(position, packet).unwrap();
    }
    Ok(())
}

/// The packets after their count, put into the outbox, which is empty.
#[tactic(auto, unfolding(crate::specs::Lists::outbox_field))]
pub(crate) fn read_outbox<K: Kem>(
    cursor: &mut Cursor<'_>,
    heading: &Heading,
    outbox: &mut Outbox,
) -> Result<(), usize>
    requires { outbox.old ≡ [] }
    ensures { let h = heading.now in
        let posts = outbox_field K.mechanism h.version h.session h.side h.epoch in
        Reads (λ _. outbox.new) posts cursor.old cursor.new result }
{
    let count = read_len(cursor, heading.version.outbox_most())?;
    read_posts::<K>(cursor, heading, count, outbox)
}

/// Puts a packet after its length, whatever its position.
fn put_post(out: &mut [u8], at: usize, packet: &[u8]) -> usize
    requires short { length packet.now ≤ PACKET_LIMIT }
    requires room { at + 2 + length packet.now ≤ length out.old }
    ensures { (position : Position) → let post = post_under position packet.now in
        Puts out.old out.new at (post_text post) result }
{
    let at_packet = put_u16(out, at, packet.len() as u16);
    put(out, at_packet, packet)
}

/// Puts the packets from a place on.
fn put_posts(out: &mut [u8], at: usize, outbox: &Outbox, from: u32) -> usize
    requires inside { from ≤ length outbox.now }
    requires room { at + length (print_items post_text (drop from outbox.now)) ≤ length out.old }
    ensures { Puts out.old out.new at (print_items post_text (drop from outbox.now)) result }
{
    let mut next = at;
    'posts: for i in 0..outbox.len() - from {
        match outbox.at((from + i) as usize) {
            Some(pair) => next = put_post(out, next, pair.1),
            None => unreachable!(),
        }
    }
    next
}

/// Puts the packets from a place on, after their count.
fn put_later(out: &mut [u8], at: usize, outbox: &Outbox, from: u32) -> usize
    requires inside { from ≤ length outbox.now }
    requires room { let later = drop from outbox.now in
        at + length (print_counted w8 post_text later) ≤ length out.old }
    ensures { Puts out.old out.new at (print_counted w8 post_text (drop from outbox.now)) result }
{
    let next = put_u8(out, at, (outbox.len() - from) as u8);
    put_posts(out, next, outbox, from)
}

/// Puts the packets with one more, after their count.
fn put_more<K: Kem>(out: &mut [u8], at: usize, outbox: &Outbox, packet: &[u8]) -> usize
    requires space { length outbox.now < OUTBOX_LIMIT }
    requires short { length packet.now ≤ PACKET_LIMIT }
    requires room { let more = outbox.now ++ post_of K.mechanism packet.now ∷ [] in
        at + length (print_counted w8 post_text more) ≤ length out.old }
    ensures { let more = outbox.now ++ post_of K.mechanism packet.now ∷ [] in
        Puts out.old out.new at (print_counted w8 post_text more) result }
{
    let at_first = put_u8(out, at, outbox.len() as u8 + 1);
    let at_last = put_posts(out, at_first, outbox, 0);
    put_post(out, at_last, packet)
}

/// The place of the oldest packet that is left once items leave their box.
pub(crate) fn oldest_packet_left(outbox: &Outbox, which: Which) -> u32
    ensures inside { result ≤ length outbox.now }
    ensures left { drop result outbox.now ≡ left_in_outbox which outbox.now }
{
    match which {
        Which::Oldest(Items::Texts, _) | Which::OfId(_) => 0,
        Which::Oldest(Items::Packets, n) => n.min(outbox.len()),
    }
}

/// Puts the outbox as a change leaves it.
pub(crate) fn put_outbox<K: Kem>(
    out: &mut [u8],
    at: usize,
    outbox: &Outbox,
    change: &Change<'_>,
) -> usize
    requires fits { FitsOutbox outbox.now change.now }
    requires room { let after = outbox_after K.mechanism outbox.now change.now in
        at + length (print_counted w8 post_text after) ≤ length out.old }
    ensures { let after = outbox_after K.mechanism outbox.now change.now in
        Puts out.old out.new at (print_counted w8 post_text after) result }
{
    match change {
        Change::Said { packet } => put_more::<K>(out, at, outbox, packet),
        Change::Dropped(which) => put_later(out, at, outbox, oldest_packet_left(outbox, *which)),
        Change::Same | Change::Received { .. } => put_later(out, at, outbox, 0),
    }
}
