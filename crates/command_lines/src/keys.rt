//! The lines of the keys of a session's boxes at a relay.

ghost use Rattle.std.specs.Prelude.{◌≡◌};
ghost use Rattle.dr_ports.specs.Writing.{Writes};
ghost use Rattle.command_lines.specs.KeysLines.{both_lines, box_line, owner_text, poster_text};

use client::box_bytes;
use dr_base::{Key32, Side};
use dr_ports::{Failed, OutputLine, Sink, write_all};
use session_model::RelayKeys;

/// The name of a side's box and its owner's key.
#[tactic(auto, unfolding(crate::specs::KeysLines::owner_text))]
fn owner_text(session: &[u8; 16], side: Side, owner: &Key32) -> OutputLine
    ensures { result ≡ owner_text session.now side owner.now }
{
    let mut digits = [0; 64];
    hex::encode_to_slice(&owner.bytes, &mut digits).unwrap();
    let mut line = box_bytes(session, side);
    line.text(b"=");
    line.text(&digits);
    line
}

/// The poster's key, and the end of the line.
#[tactic(auto, unfolding(crate::specs::KeysLines::poster_text))]
fn poster_text(poster: &Key32) -> OutputLine
    ensures { result ≡ poster_text poster.now }
{
    let mut digits = [0; 64];
    hex::encode_to_slice(&poster.bytes, &mut digits).unwrap();
    let mut line = OutputLine::new();
    line.text(b",");
    line.text(&digits);
    line.text(b"\n");
    line
}

/// Writes the line of a side's box.
fn write_box<O: Sink>(
    session: &[u8; 16],
    side: Side,
    owner: &Key32,
    poster: &Key32,
    out: &mut O,
) -> Result<(), Failed>
    ensures { Writes (O.at out.old) (O.at out.new)
        (box_line session.now side owner.now poster.now) result }
{
    match write_all(out, owner_text(session, side, owner).as_bytes()) {
        Err(Failed) => Err(Failed),
        Ok(()) => write_all(out, poster_text(poster).as_bytes()),
    }
}

/// Writes the lines of both boxes of a session.
pub fn write_keys<O: Sink>(session: &[u8; 16], keys: &RelayKeys, out: &mut O) -> Result<(), Failed>
    ensures { Writes (O.at out.old) (O.at out.new) (both_lines session.now keys.now) result }
{
    let first = write_box(
        session,
        Side::First,
        &keys.first_owner,
        &keys.first_poster,
        out,
    );
    match first {
        Err(Failed) => Err(Failed),
        Ok(()) => write_box(
            session,
            Side::Second,
            &keys.second_owner,
            &keys.second_poster,
            out,
        ),
    }
}
