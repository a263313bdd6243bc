//! Receipts, and what they tell.

ghost use Rattle.std.specs.Prelude.{◌≡◌, ◌+◌, ◌*◌, ◌≤◌, length, map, take};
ghost use Rattle.std.specs.List.{list_any};
ghost use Rattle.dr_base.specs.Position.{is_at};
ghost use Rattle.bodies.specs.Receipts.{is_before, is_covered, is_up_to, receipt_text, receipt_up_to};

use crate::limits::{BOUND_LEN, POSITION_LEN};
use arrayvec::ArrayVec;
use dr_base::{Kept, Position, RECEIPT_LIMIT};
use std::marker::Model;

/// What a side tells the other of that one's texts: it has opened all up to a bound, but for those
/// that are listed.
#[derive(Drop)]
pub struct Receipt {
    pub bound: Position,
    pub listed: ArrayVec<Position, RECEIPT_LIMIT>,
}

impl Model for Receipt {
    ghost use Rattle.bodies.specs.Receipts.{Receipt as Told};

    ghost Value = { Told };

    ghost view = { λ r. record { bound = r.bound; listed = r.listed.items } };
}

/// The positions of the first keys, at most as many as a receipt lists.
fn first_positions(keys: &[Kept]) -> ArrayVec<Position, RECEIPT_LIMIT>
    ensures { result.items ≡ take RECEIPT_LIMIT (map (λ kept. kept.position) keys.now) }
{
    let mut first = ArrayVec::new();
    'keys: for i in 0..keys.len().min(RECEIPT_LIMIT) {
        first.push(keys[i].position);
    }
    first
}

impl Receipt {
    /// The receipt of a side that has opened all texts up to a position but those whose keys are
    /// missing, which stand in the order of their positions. It lists them all; where they are too
    /// many, it lists the first ones, and its bound is the last of these.
    #[tactic(auto, unfolding(crate::specs::Receipts::receipt_up_to))]
    pub fn up_to(missing: &[Kept], reached: Position) -> Receipt
        ensures { result ≡ receipt_up_to (map (λ kept. kept.position) missing.now) reached }
    {
        let bound = if missing.len() <= RECEIPT_LIMIT {
            reached
        } else {
            missing[RECEIPT_LIMIT - 1].position
        };
        Receipt {
            bound,
            listed: first_positions(missing),
        }
    }
}

/// Whether a position comes before another.
pub(crate) fn is_before(p: Position, q: Position) -> bool
    ensures { result ≡ is_before p q }
{
    p.epoch < q.epoch || (p.epoch == q.epoch && p.index < q.index)
}

/// Whether a position stands at another or before it.
pub(crate) fn is_up_to(q: Position, p: Position) -> bool
    ensures { result ≡ is_up_to q p }
{
    p.epoch < q.epoch || (p.epoch == q.epoch && p.index <= q.index)
}

/// Whether a position stands among those that are listed.
fn is_listed(receipt: &Receipt, position: Position) -> bool
    ensures { result ≡ list_any (is_at position) receipt.now.listed }
{
    receipt
        .listed
        .as_slice()
        .iter()
        .any(|p| p.epoch == position.epoch && p.index == position.index)
}

/// Whether a receipt covers a position of the side that opens it: its sender says that the text
/// there was opened.
#[tactic(auto, unfolding(crate::specs::Receipts::is_covered_by))]
pub fn is_covered(receipt: &Option<Receipt>, position: Position) -> bool
    ensures { result ≡ is_covered receipt.now position }
{
    match receipt {
        None => false,
        Some(receipt) => {
            let bound = receipt.bound;
            position.epoch % 2 == bound.epoch % 2
                && is_up_to(bound, position)
                && !is_listed(receipt, position)
        }
    }
}

/// How many bytes a receipt has, or that there is none.
pub(crate) fn receipt_len(receipt: &Option<Receipt>) -> usize
    ensures value { result ≡ length (receipt_text receipt.now) }
    ensures few { result ≤ BOUND_LEN + POSITION_LEN * RECEIPT_LIMIT }
{
    match receipt {
        None => 1,
        Some(receipt) => BOUND_LEN + POSITION_LEN * receipt.listed.len(),
    }
}
