//! The groups of a record before its boxes: what it begins with, and the keys.

ghost use Rattle.std.specs.Prelude.{◌≡◌, ◌+◌, ◌≤◌, [], length};
ghost use Rattle.dr_base.specs.Buffer.{Puts};
ghost use Rattle.grammar.specs.Standing.{Reads};
ghost use Rattle.session_record.specs.Groups.{heading_fields, heading_text, keys_fields, keys_text};
ghost use Rattle.session_record.specs.Record.{heading_in, keys_in};
ghost use Rattle.session_record.specs.Seen.{keys_seen};
ghost use Rattle.session_record.specs.Versions.{newest};

use crate::kept::{put_kept, read_kept};
use crate::numbers::read_format;
use crate::versions::{NEWEST, Version, read_version};
use arrayvec::ArrayVec;
use bodies::Format;
use dr_base::{KEPT_LIMIT, Kept, Key32, Side, put, put_u8, put_u32};
use grammar::Cursor;
use kem_laws::Kem;
use record_fields::{
    format_code, put_phase, put_receiving, reach_of, read_array, read_epoch, read_key, read_phase,
    read_previous, read_receiving, read_side, side_code,
};
use session_model::{LentPart, Phase, Reception};

/// What a record begins with.
#[derive(Drop)]
pub(crate) struct Heading {
    pub(crate) version: Version,
    pub(crate) side: Side,
    pub(crate) format: Format,
    pub(crate) session: [u8; 16],
    pub(crate) root: Key32,
    pub(crate) epoch: u32,
}

/// The keys of the epoch, the count of the own epoch before, and the stream of the latest peer's
/// epoch. The kept keys, which are 20 KB, are read into a list of their own.
#[derive(Drop)]
pub(crate) struct Keys {
    pub(crate) phase: Phase,
    pub(crate) previous: u32,
    pub(crate) receiving: Option<Reception>,
}

/// What a record begins with.
#[tactic(auto, unfolding(crate::specs::Groups::heading_fields))]
pub(crate) fn read_heading(cursor: &mut Cursor<'_>) -> Result<Heading, usize>
    ensures { Reads (λ h. h) heading_fields cursor.old cursor.new result }
{
    let version = read_version(cursor)?;
    let side = read_side(cursor)?;
    let format = read_format(cursor, version)?;
    let session = read_array(cursor)?;
    let root = read_key(cursor)?;
    let epoch = read_epoch(cursor)?;
    Ok(Heading {
        version,
        side,
        format,
        session,
        root,
        epoch,
    })
}

/// The keys. Those that are kept are put into the list, which is empty.
#[tactic(auto, unfolding(crate::specs::Groups::keys_fields))]
pub(crate) fn read_keys<K: Kem>(
    cursor: &mut Cursor<'_>,
    heading: &Heading,
    kept: &mut ArrayVec<Kept, KEPT_LIMIT>,
) -> Result<Keys, usize>
    requires { kept.old.items ≡ [] }
    ensures { Reads (λ keys. keys_seen keys kept.new.items) (keys_fields K.mechanism heading.now)
        cursor.old cursor.new result }
{
    let phase = read_phase::<K>(cursor, heading.side, heading.epoch)?;
    let previous = read_previous(cursor, heading.side, heading.epoch)?;
    let receiving = read_receiving(cursor, heading.side, heading.epoch)?;
    let reach = reach_of(&receiving);
    read_kept(cursor, heading, reach, kept)?;
    Ok(Keys {
        phase,
        previous,
        receiving,
    })
}

/// Puts what a record begins with, in the newest version.
pub(crate) fn put_heading<K: Kem>(out: &mut [u8], part: &LentPart<'_, K>) -> usize
    requires { length (heading_text (heading_in newest part.now)) ≤ length out.old }
    ensures { Puts out.old out.new 0 (heading_text (heading_in newest part.now)) result }
{
    let head = part.head;
    let at_side = put_u8(out, 0, NEWEST.code());
    let at_format = put_u8(out, at_side, side_code(head.side));
    let at_session = put_u8(out, at_format, format_code(head.format));
    let at_root = put(out, at_session, &head.session);
    let at_epoch = put(out, at_root, &head.root.bytes);
    put_u32(out, at_epoch, head.epoch)
}

/// Puts the keys.
pub(crate) fn put_keys<K: Kem>(out: &mut [u8], at: usize, part: &LentPart<'_, K>) -> usize
    requires { at + length (keys_text (keys_in part.now)) ≤ length out.old }
    ensures { Puts out.old out.new at (keys_text (keys_in part.now)) result }
{
    let head = part.head;
    let at_previous = put_phase(out, at, &head.phase);
    let at_receiving = put_u32(out, at_previous, head.previous);
    let at_kept = put_receiving(out, at_receiving, &head.receiving);
    put_kept(out, at_kept, part.kept.kept())
}
