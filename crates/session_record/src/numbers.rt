//! The fields of a record that are numbers, and which a version may lack or bound.

ghost use Rattle.std.specs.Prelude.{◌≤◌, IfOk};
ghost use Rattle.std.specs.Int.{w8};
ghost use Rattle.grammar.specs.Reader.{checked, number};
ghost use Rattle.grammar.specs.Standing.{Reads};
ghost use Rattle.session_record.specs.Fields.{format_field, up_to};
ghost use Rattle.session_record.specs.Lists.{kind_field};

use crate::versions::Version;
use bodies::{Format, TEXT_KIND};
use grammar::Cursor;

/// The format, plain where the version has no byte for it.
#[tactic(auto, unfolding(crate::specs::Fields::format_field, crate::specs::Fields::format_byte))]
pub(crate) fn read_format(cursor: &mut Cursor<'_>, version: Version) -> Result<Format, usize>
    ensures { Reads (λ f. f) (format_field version) cursor.old cursor.new result }
{
    if !version.has_format() {
        return Ok(Format::Plain);
    }
    let at = cursor.at();
    match cursor.number8()? {
        1 => Ok(Format::Plain),
        2 => Ok(Format::Padded),
        3 if version.has_receipts() => Ok(Format::Receipts),
        _ => Err(at),
    }
}

/// How many items a box holds: at most `limit`.
pub(crate) fn read_len(cursor: &mut Cursor<'_>, limit: usize) -> Result<u8, usize>
    ensures reads { let count = checked (up_to limit) (number w8) in
        Reads (λ n. n) count cursor.old cursor.new result }
    ensures few { IfOk result (λ n. n ≤ limit) }
{
    let at = cursor.at();
    let len = cursor.number8()?;
    if usize::from(len) > limit {
        return Err(at);
    }
    Ok(len)
}

/// The kind of a text, which the version may have a byte for: one that it has, else a text's.
#[tactic(auto, unfolding(crate::specs::Lists::kind_field))]
pub(crate) fn read_kind(cursor: &mut Cursor<'_>, version: Version) -> Result<u8, usize>
    ensures { Reads (λ kind. kind) (kind_field version) cursor.old cursor.new result }
{
    if !version.has_kinds() {
        return Ok(TEXT_KIND);
    }
    let at = cursor.at();
    let kind = cursor.number8()?;
    if !version.has_kind(kind) {
        return Err(at);
    }
    Ok(kind)
}
