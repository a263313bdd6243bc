//! The own texts that wait for a receipt, which a record ends with.

ghost use Rattle.std.specs.Prelude.{◌≡◌, ◌+◌, ◌≤◌, length};
ghost use Rattle.bodies.specs.Receipts.{position_bytes};
ghost use Rattle.dr_base.specs.Buffer.{Puts};
ghost use Rattle.grammar.specs.Printer.{print_items};
ghost use Rattle.grammar.specs.Reader.{items};
ghost use Rattle.grammar.specs.Standing.{Reads};
ghost use Rattle.session_model.specs.Seen.{phase_seen};
ghost use Rattle.session_record.specs.Awaiting.{awaiting_field, awaiting_text, sent_of, waiting_behind, waiting_item};
ghost use Rattle.session_record.specs.Versions.{newest};

use crate::groups::Heading;
use crate::numbers::read_len;
use dr_base::{AWAITING_LIMIT, INDEX_LIMIT, Position, put_u8, put_u32};
use grammar::Cursor;
use kem_laws::Kem;
use session_model::{Awaiting, LentPart, Phase};

/// How many texts of the reached epoch may wait.
pub(crate) fn sent_of(phase: &Phase) -> u32
    ensures { result ≡ sent_of (phase_seen phase.now) }
{
    match phase {
        Phase::Own(own) => own.sent,
        Phase::Peers(_) => INDEX_LIMIT,
    }
}

/// The position of a text that waits, after the one at a position.
#[tactic(auto, unfolding(crate::specs::Awaiting::waiting_behind))]
fn read_one(
    cursor: &mut Cursor<'_>,
    heading: &Heading,
    sent: u32,
    last: Position,
) -> Result<Position, usize>
    ensures { let h = heading.now in
        Reads (λ p. p) (waiting_behind h.side h.epoch sent last) cursor.old cursor.new result }
{
    let at_epoch = cursor.at();
    let of = cursor.number32()?;
    if !heading.side.owns(of) || of > heading.epoch || of < last.epoch {
        return Err(at_epoch);
    }
    let at_index = cursor.at();
    let index = cursor.number32()?;
    let most = if of == heading.epoch {
        sent
    } else {
        INDEX_LIMIT
    };
    if index == 0 || index > most || (of == last.epoch && index <= last.index) {
        return Err(at_index);
    }
    Ok(Position { epoch: of, index })
}

/// This many positions.
fn read_each(
    cursor: &mut Cursor<'_>,
    heading: &Heading,
    sent: u32,
    count: u8,
) -> Result<Awaiting, usize>
    requires { count ≤ AWAITING_LIMIT }
    ensures { let one = waiting_item heading.now.side heading.now.epoch sent in
        Reads (λ a. a) (items one count) cursor.old cursor.new result }
{
    let mut list = Awaiting::new();
    let mut last = Position { epoch: 0, index: 0 };
    'positions: for _ in 0..count {
        let one = read_one(cursor, heading, sent, last)?;
        last = one;
        list.push(one);
    }
    Ok(list)
}

/// The texts that wait, none where the version doesn't know receipts.
#[tactic(auto, unfolding(crate::specs::Awaiting::awaiting_field))]
pub(crate) fn read_awaiting(
    cursor: &mut Cursor<'_>,
    heading: &Heading,
    sent: u32,
) -> Result<Awaiting, usize>
    ensures { let h = heading.now in
        let awaiting = awaiting_field h.version h.side h.epoch sent in
        Reads (λ a. a) awaiting cursor.old cursor.new result }
{
    if !heading.version.has_receipts() {
        return Ok(Awaiting::new());
    }
    let count = read_len(cursor, AWAITING_LIMIT)?;
    read_each(cursor, heading, sent, count)
}

/// Puts a position.
fn put_one(out: &mut [u8], at: usize, position: Position) -> usize
    requires { at + length (position_bytes position) ≤ length out.old }
    ensures { Puts out.old out.new at (position_bytes position) result }
{
    let at_index = put_u32(out, at, position.epoch);
    put_u32(out, at_index, position.index)
}

/// Puts positions.
fn put_each(out: &mut [u8], at: usize, positions: &[Position]) -> usize
    requires { at + length (print_items position_bytes positions.now) ≤ length out.old }
    ensures { Puts out.old out.new at (print_items position_bytes positions.now) result }
{
    let mut next = at;
    'positions: for i in 0..positions.len() {
        next = put_one(out, next, positions[i]);
    }
    next
}

/// Puts the texts that wait, after their count.
pub(crate) fn put_awaiting<K: Kem>(out: &mut [u8], at: usize, part: &LentPart<'_, K>) -> usize
    requires { at + length (awaiting_text newest part.now.awaiting) ≤ length out.old }
    ensures { Puts out.old out.new at (awaiting_text newest part.now.awaiting) result }
{
    let positions = part.head.awaiting.positions();
    let next = put_u8(out, at, positions.len() as u8);
    put_each(out, next, positions)
}
