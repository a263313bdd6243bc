//! The lines of names.

ghost use Rattle.std.specs.Prelude.{◌++◌, codes};
ghost use Rattle.dr_ports.specs.Writing.{Writes};
ghost use Rattle.book_commands.specs.Forgetting.{forgot_line};

use dr_ports::{Failed, Sink, write_all};

/// Writes a name as a line.
pub(crate) fn write_name<O: Sink>(name: &str, out: &mut O) -> Result<(), Failed>
    ensures { Writes (O.at out.old) (O.at out.new) (name.now ++ codes "\n") result }
{
    match write_all(out, name.as_bytes()) {
        Err(Failed) => Err(Failed),
        Ok(()) => write_all(out, b"\n"),
    }
}

/// Writes that a name is forgotten.
#[tactic(auto, unfolding(crate::specs::Forgetting::forgot_line))]
pub(crate) fn write_forgot<O: Sink>(name: &str, out: &mut O) -> Result<(), Failed>
    ensures { Writes (O.at out.old) (O.at out.new) (forgot_line name.now) result }
{
    match write_all(out, b"forgot ") {
        Err(Failed) => Err(Failed),
        Ok(()) => write_name(name, out),
    }
}
