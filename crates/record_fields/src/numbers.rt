//! The fields of a record that are numbers.

ghost use Rattle.std.specs.Prelude.{◌≡◌};
ghost use Rattle.grammar.specs.Standing.{Reads};
ghost use Rattle.record_fields.specs.Fields.{code_of, count_field, epoch_field, format_code, previous_field, side_field};

use bodies::Format;
use dr_base::{INDEX_LIMIT, LAST_EPOCH, Side};
use grammar::Cursor;

/// The side.
#[tactic(auto, unfolding(crate::specs::Fields::side_field))]
pub fn read_side(cursor: &mut Cursor<'_>) -> Result<Side, usize>
    ensures { Reads (λ s. s) side_field cursor.old cursor.new result }
{
    let at = cursor.at();
    match cursor.number8()? {
        1 => Ok(Side::First),
        2 => Ok(Side::Second),
        _ => Err(at),
    }
}

/// The epoch.
#[tactic(auto, unfolding(crate::specs::Fields::epoch_field))]
pub fn read_epoch(cursor: &mut Cursor<'_>) -> Result<u32, usize>
    ensures { Reads (λ n. n) epoch_field cursor.old cursor.new result }
{
    let at = cursor.at();
    let epoch = cursor.number32()?;
    if epoch > LAST_EPOCH {
        return Err(at);
    }
    Ok(epoch)
}

/// A count of texts.
#[tactic(auto, unfolding(crate::specs::Fields::count_field))]
pub fn read_count(cursor: &mut Cursor<'_>) -> Result<u32, usize>
    ensures { Reads (λ n. n) count_field cursor.old cursor.new result }
{
    let at = cursor.at();
    let count = cursor.number32()?;
    if count > INDEX_LIMIT {
        return Err(at);
    }
    Ok(count)
}

/// The texts of the own epoch before.
#[tactic(auto, unfolding(crate::specs::Fields::previous_field))]
pub fn read_previous(cursor: &mut Cursor<'_>, side: Side, epoch: u32) -> Result<u32, usize>
    ensures { Reads (λ n. n) (previous_field side epoch) cursor.old cursor.new result }
{
    let at = cursor.at();
    let previous = cursor.number32()?;
    let first = if side.owns(epoch) { 2 } else { 1 };
    if previous > INDEX_LIMIT || (previous != 0 && epoch < first) {
        return Err(at);
    }
    Ok(previous)
}

/// The byte of a side.
pub fn side_code(side: Side) -> u8
    ensures { result ≡ code_of side }
{
    match side {
        Side::First => 1,
        Side::Second => 2,
    }
}

/// The byte of a format.
pub fn format_code(format: Format) -> u8
    ensures { result ≡ format_code format }
{
    match format {
        Format::Plain => 1,
        Format::Padded => 2,
        Format::Receipts => 3,
    }
}
