//! The lines of a text that was said under several names.

ghost use Rattle.std.specs.Prelude.{◌++◌, codes, length, map};
ghost use Rattle.answer_lines.specs.Texts.{place_line};
ghost use Rattle.dr_ports.specs.Writing.{Writes};
ghost use Rattle.book.specs.Fans.{AreListed, said_at};
ghost use Rattle.book_commands.specs.FanLines.{said_if, said_line, said_lines};

use answer_lines::place_line;
use book::{Book, FanOut};
use dr_base::Position;
use dr_ports::{Failed, Sink, write_all};
use kem_laws::Kem;

/// Writes a name and where its session said a text.
fn write_place<O: Sink>(name: &str, position: Position, out: &mut O) -> Result<(), Failed>
    ensures { Writes (O.at out.old) (O.at out.new)
        (name.now ++ place_line (codes " ") position) result }
{
    match write_all(out, name.as_bytes()) {
        Err(Failed) => Err(Failed),
        Ok(()) => write_all(out, place_line(b" ", position).as_bytes()),
    }
}

/// Writes that the session of a name said a text.
#[tactic(auto, unfolding(crate::specs::FanLines::said_line))]
fn write_said<O: Sink>(name: &str, position: Position, out: &mut O) -> Result<(), Failed>
    ensures { Writes (O.at out.old) (O.at out.new) (said_line name.now position) result }
{
    match write_all(out, b"said ") {
        Err(Failed) => Err(Failed),
        Ok(()) => write_place(name, position, out),
    }
}

/// Writes where the session at a place of a fan, which has this name, said its latest text.
fn write_said_at<K: Kem, O: Sink>(
    book: &Book<K>,
    list: &FanOut,
    at: usize,
    name: &str,
    out: &mut O,
) -> Result<(), Failed>
    requires { AreListed book.now.rows list.now }
    ensures { Writes (O.at out.old) (O.at out.new)
        (said_if name.now (said_at book.now.rows list.now at)) result }
{
    match list.said(book, at) {
        None => Ok(()),
        Some(position) => write_said(name, position, out),
    }
}

/// Writes where the sessions of a fan, which have these names, said their latest texts.
pub(crate) fn write_all_said<K: Kem, O: Sink>(
    book: &Book<K>,
    list: &FanOut,
    names: &[&str],
    out: &mut O,
) -> Result<(), Failed>
    requires { AreListed book.now.rows list.now }
    ensures { Writes (O.at out.old) (O.at out.new)
        (said_lines book.now.rows (map (λ name. name.now) names.now) list.now
        (length names.now)) result }
{
    'names: for i in 0..names.len() {
        match write_said_at(book, list, i, names[i], out) {
            Err(Failed) => return Err(Failed),
            Ok(()) => {}
        }
    }
    Ok(())
}
