//! Pieces are looked for in an inbox.

ghost use Rattle.std.specs.Prelude.{◌≡◌, ◌<◌, ◌≤◌, ◌+◌, ◌*◌, [], true, length, drop, slice_get, find, filter, Option, option_map, IfSome, List, ℕ, if◌then◌else◌};
ghost use Rattle.std.specs.List.{list_any, range_with_len};
ghost use Rattle.boxes.specs.Entries.{Entry, is_of};
ghost use Rattle.boxes.specs.declared.limits.TheConstants.{PARTS_LIMIT, PART_LIMIT};
ghost use Rattle.long_text.specs.Longs.{clash_in, clashes, count_told, has_number, numbers_had};
ghost use Rattle.long_text.specs.Pieces.{Piece as Meant, piece, pieces};
ghost use Rattle.long_text.specs.declared.refusal.LongRefusal.{LongRefusal};
ghost use Rattle.long_text.specs.declared.refusal.LongRefusal.TheVariants.{Clash};

use crate::refusal::LongRefusal;
use boxes::{Inbox, PART_KIND, PARTS_LIMIT, parse_part};
use dr_base::Position;
use std::marker::Model;

/// A part of the long text, lent, under its position.
#[derive(Drop)]
pub(crate) struct Piece<'a> {
    pub(crate) position: Position,
    pub(crate) number: u8,
    pub(crate) count: u8,
    pub(crate) bytes: &'a [u8],
}

impl<'a> Model for Piece<'a> {
    ghost use Rattle.long_text.specs.Pieces.{Piece as Meant};

    ghost Value = { Meant };

    ghost view = { λ p. record {
      position = p.position;
      number = p.number;
      count = p.count;
      bytes = p.bytes.now;
    } };
}

/// The piece at a place of the inbox, if the entry there is one.
fn piece_at(inbox: &Inbox, at: usize, id: u32) -> Option<Piece<'_>>
    requires { at < length inbox.now }
    ensures value { (entry : Entry) → slice_get inbox.now at ≡ Option.Some entry
        → result ≡ (if is_of id entry then Option.Some (piece entry) else Option.None) }
    ensures one { IfSome result (λ p. 1 ≤ p.number) }
    ensures most { IfSome result (λ p. p.number ≤ PARTS_LIMIT) }
    ensures count { IfSome result (λ p. p.count ≤ PARTS_LIMIT) }
    ensures short { IfSome result (λ p. length p.bytes ≤ PART_LIMIT) }
{
    let Some(entry) = inbox.at(at) else {
        return None;
    };
    if entry.kind != PART_KIND {
        return None;
    }
    let Some(part) = parse_part(entry.text) else {
        return None;
    };
    if part.id != id {
        return None;
    }
    Some(Piece {
        position: entry.position,
        number: part.number,
        count: part.count,
        bytes: part.bytes,
    })
}

/// Whether two pieces can't be of one text.
fn clash(a: &Piece<'_>, b: &Piece<'_>) -> bool
    ensures { result ≡ clashes a.now b.now }
{
    a.count != b.count || (a.number == b.number && a.bytes != b.bytes)
}

/// Where the oldest piece from a place on stands that clashes with this one.
fn clash_after(inbox: &Inbox, first: &Piece<'_>, from: usize, id: u32) -> Option<Position>
    requires { from ≤ length inbox.now }
    ensures { result ≡ option_map (λ p. p.position)
        (find (clashes first.now) (pieces id (drop from inbox.now))) }
{
    'later: for at in from..inbox.len() as usize {
        if let Some(second) = piece_at(inbox, at, id) {
            if clash(first, &second) {
                return Some(second.position);
            }
        }
    }
    None
}

/// The first pair of pieces that clashes.
pub(crate) fn clash_in(inbox: &Inbox, id: u32) -> Option<LongRefusal>
    ensures { result ≡ clash_in (pieces id inbox.now) }
{
    'firsts: for at in 0..inbox.len() as usize {
        if let Some(first) = piece_at(inbox, at, id) {
            if let Some(second) = clash_after(inbox, &first, at + 1, id) {
                return Some(LongRefusal::Clash {
                    first: first.position,
                    second,
                });
            }
        }
    }
    None
}

/// The oldest piece under a number.
pub(crate) fn under(inbox: &Inbox, id: u32, number: u8) -> Option<Piece<'_>>
    ensures value { result ≡ find (has_number number) (pieces id inbox.now) }
    ensures short { IfSome result (λ p. length p.bytes ≤ PART_LIMIT) }
{
    'pieces: for at in 0..inbox.len() as usize {
        if let Some(piece) = piece_at(inbox, at, id) {
            if piece.number == number {
                return Some(piece);
            }
        }
    }
    None
}

/// The count that the oldest piece tells.
pub(crate) fn count_told(inbox: &Inbox, id: u32) -> Option<u8>
    ensures value { result ≡ count_told (pieces id inbox.now) }
    ensures few { IfSome result (λ count. count ≤ PARTS_LIMIT) }
{
    'pieces: for at in 0..inbox.len() as usize {
        if let Some(piece) = piece_at(inbox, at, id) {
            return Some(piece.count);
        }
    }
    None
}

/// How many numbers stand.
pub(crate) fn numbers_had(inbox: &Inbox, id: u32) -> u32
    ensures { result ≡ numbers_had (pieces id inbox.now) }
{
    let mut had = 0;
    'numbers: for i in 0..PARTS_LIMIT {
        if under(inbox, id, (i + 1) as u8).is_some() {
            had += 1;
        }
    }
    had
}
