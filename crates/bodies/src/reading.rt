//! Receipts and kinds, read by an opener.

ghost use Rattle.std.specs.Prelude.{◌≡◌, ◌≤◌};
ghost use Rattle.grammar.specs.Reader.{items};
ghost use Rattle.grammar.specs.Standing.{Reads};
ghost use Rattle.bodies.specs.Bodies.{head_field};
ghost use Rattle.bodies.specs.Receipts.{bound_field, is_listed, listed_behind, listed_item, receipt_field};

use crate::receipt::{Receipt, is_before, is_up_to};
use arrayvec::ArrayVec;
use boxes::TEXT_KIND;
use dr_base::{Position, RECEIPT_LIMIT, RECEIPTS, Side};
use grammar::Cursor;

/// Whether a position may be listed after another.
fn may_follow(side: Side, bound: Position, last: Position, position: Position) -> bool
    ensures { result ≡ is_listed side bound last (position.epoch, position.index) }
{
    side.owns(position.epoch)
        && position.index >= 1
        && is_before(last, position)
        && is_up_to(bound, position)
}

/// A listed position after another.
#[tactic(auto, unfolding(crate::specs::Receipts::listed_behind))]
fn read_one(
    cursor: &mut Cursor<'_>,
    side: Side,
    bound: Position,
    last: Position,
) -> Result<Position, usize>
    ensures { Reads (λ p. p) (listed_behind side bound last) cursor.old cursor.new result }
{
    let at = cursor.at();
    let epoch = cursor.number32()?;
    let index = cursor.number32()?;
    let position = Position { epoch, index };
    if !may_follow(side, bound, last, position) {
        return Err(at);
    }
    Ok(position)
}

/// So many listed positions.
fn read_listed(
    cursor: &mut Cursor<'_>,
    side: Side,
    bound: Position,
    count: u8,
) -> Result<ArrayVec<Position, RECEIPT_LIMIT>, usize>
    requires { count ≤ RECEIPT_LIMIT }
    ensures { Reads (λ v. v.items) (items (listed_item side bound) count)
        cursor.old cursor.new result }
{
    let mut list = ArrayVec::new();
    let mut last = Position { epoch: 0, index: 0 };
    'listed: for _ in 0..count {
        let one = read_one(cursor, side, bound, last)?;
        last = one;
        list.push(one);
    }
    Ok(list)
}

/// A bound, and the listed positions after their count.
#[tactic(auto, unfolding(crate::specs::Receipts::bound_field))]
fn read_bound(cursor: &mut Cursor<'_>, side: Side) -> Result<Receipt, usize>
    ensures { Reads (λ r. r) (bound_field side) cursor.old cursor.new result }
{
    let at = cursor.at();
    let epoch = cursor.number32()?;
    if !side.owns(epoch) {
        return Err(at);
    }
    let index = cursor.number32()?;
    let bound = Position { epoch, index };
    let at_count = cursor.at();
    let count = cursor.number8()?;
    if usize::from(count) > RECEIPT_LIMIT {
        return Err(at_count);
    }
    let listed = read_listed(cursor, side, bound, count)?;
    Ok(Receipt { bound, listed })
}

/// A receipt, or that there is none.
#[tactic(auto, unfolding(crate::specs::Receipts::receipt_field))]
fn read_receipt(cursor: &mut Cursor<'_>, side: Side) -> Result<Option<Receipt>, usize>
    ensures { Reads (λ r. r) (receipt_field side) cursor.old cursor.new result }
{
    let at = cursor.at();
    let there = cursor.number8()?;
    if there > 1 {
        return Err(at);
    }
    if there == 0 {
        return Ok(None);
    }
    let receipt = read_bound(cursor, side)?;
    Ok(Some(receipt))
}

/// What a packet of a version has before the content: the receipt and the kind.
#[tactic(auto, unfolding(crate::specs::Bodies::head_field))]
pub(crate) fn read_head(
    cursor: &mut Cursor<'_>,
    version: u8,
    side: Side,
) -> Result<(Option<Receipt>, u8), usize>
    ensures { Reads (λ e. e) (head_field version side) cursor.old cursor.new result }
{
    if version != RECEIPTS {
        return Ok((None, TEXT_KIND));
    }
    let receipt = read_receipt(cursor, side)?;
    let kind = cursor.number8()?;
    Ok((receipt, kind))
}
