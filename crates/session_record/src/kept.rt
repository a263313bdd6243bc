//! The kept keys of a record.

ghost use Rattle.std.specs.Prelude.{◌≡◌, ◌+◌, ◌≤◌, [], length, All};
ghost use Rattle.std.specs.Int.{w16};
ghost use Rattle.dr_base.specs.Buffer.{Puts};
ghost use Rattle.grammar.specs.Printer.{print_counted, print_items};
ghost use Rattle.grammar.specs.Reader.{items};
ghost use Rattle.grammar.specs.Standing.{Reads};
ghost use Rattle.session_record.specs.Lists.{kept_behind, kept_field, kept_item, kept_text};

use crate::groups::Heading;
use arrayvec::ArrayVec;
use dr_base::{INDEX_LIMIT, KEPT_LIMIT, Kept, Position, put, put_u16, put_u32};
use grammar::Cursor;
use record_fields::read_key;
use session_model::is_long;

/// A kept key after the one at a position.
#[tactic(auto, unfolding(crate::specs::Lists::kept_behind))]
fn read_one(
    cursor: &mut Cursor<'_>,
    heading: &Heading,
    reach: u32,
    last: Position,
) -> Result<Kept, usize>
    ensures { let h = heading.now in
        Reads (λ k. k) (kept_behind h.side h.epoch reach last) cursor.old cursor.new result }
{
    let at_epoch = cursor.at();
    let of = cursor.number32()?;
    if heading.side.owns(of) || of > heading.epoch || of < last.epoch {
        return Err(at_epoch);
    }
    let at_index = cursor.at();
    let index = cursor.number32()?;
    let most = if heading.epoch - of > 1 {
        INDEX_LIMIT
    } else {
        reach
    };
    if index == 0 || index > most || (of == last.epoch && index <= last.index) {
        return Err(at_index);
    }
    let key = read_key(cursor)?;
    Ok(Kept {
        position: Position { epoch: of, index },
        key,
    })
}

/// This many kept keys, put into a list.
fn read_each(
    cursor: &mut Cursor<'_>,
    heading: &Heading,
    reach: u32,
    count: u16,
    list: &mut ArrayVec<Kept, KEPT_LIMIT>,
) -> Result<(), usize>
    requires few { count ≤ KEPT_LIMIT }
    requires empty { list.old.items ≡ [] }
    ensures { let one = kept_item heading.now.side heading.now.epoch reach in
        Reads (λ _. list.new.items) (items one count) cursor.old cursor.new result }
{
    let mut last = Position { epoch: 0, index: 0 };
    'keys: for _ in 0..count {
        let one = read_one(cursor, heading, reach, last)?;
        last = one.position;
        list.push(one);
    }
    Ok(())
}

/// The kept keys after their count, put into a list, which is empty.
#[tactic(auto, unfolding(crate::specs::Lists::kept_field))]
pub(crate) fn read_kept(
    cursor: &mut Cursor<'_>,
    heading: &Heading,
    reach: u32,
    list: &mut ArrayVec<Kept, KEPT_LIMIT>,
) -> Result<(), usize>
    requires { list.old.items ≡ [] }
    ensures { let h = heading.now in let kept = kept_field h.version h.side h.epoch reach in
        Reads (λ _. list.new.items) kept cursor.old cursor.new result }
{
    let at = cursor.at();
    let count = cursor.number16()?;
    if usize::from(count) > heading.version.kept_most() {
        return Err(at);
    }
    read_each(cursor, heading, reach, count, list)
}

/// Puts a kept key.
fn put_one(out: &mut [u8], at: usize, kept: &Kept) -> usize
    requires { at + length (kept_text kept.now) ≤ length out.old }
    ensures { Puts out.old out.new at (kept_text kept.now) result }
{
    let at_index = put_u32(out, at, kept.position.epoch);
    let at_key = put_u32(out, at_index, kept.position.index);
    put(out, at_key, &kept.key.bytes)
}

/// Puts kept keys.
fn put_each(out: &mut [u8], at: usize, keys: &[Kept]) -> usize
    requires { at + length (print_items kept_text keys.now) ≤ length out.old }
    ensures { Puts out.old out.new at (print_items kept_text keys.now) result }
{
    let mut next = at;
    'keys: for i in 0..keys.len() {
        next = put_one(out, next, &keys[i]);
    }
    next
}

/// Puts kept keys after their count.
pub(crate) fn put_kept(out: &mut [u8], at: usize, keys: &[Kept]) -> usize
    requires few { length keys.now ≤ KEPT_LIMIT }
    requires room { at + length (print_counted w16 kept_text keys.now) ≤ length out.old }
    ensures { Puts out.old out.new at (print_counted w16 kept_text keys.now) result }
{
    let next = put_u16(out, at, keys.len() as u16);
    put_each(out, next, keys)
}

/// Each kept key has 32 bytes, which the proofs learn here.
pub(crate) fn are_long(keys: &[Kept])
    ensures { All (λ kept. length kept.key.bytes ≡ 32) keys.now }
{
    'keys: for i in 0..keys.len() {
        is_long(&keys[i].key.bytes);
    }
}
