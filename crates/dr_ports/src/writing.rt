//! Writing more than a sink takes at once.

ghost use Rattle.std.specs.Prelude.{◌≡◌, ◌+◌, ◌<◌, ◌≤◌, length, take, drop, IfOk, OnErr};
ghost use Rattle.dr_ports.specs.Ports.{HasCause, appended};
ghost use Rattle.dr_ports.specs.Writing.{Writes};

use crate::port::Sink;
use dr_base::Failed;

/// Writes once, a piece from a place on.
fn write_from<O: Sink>(out: &mut O, bytes: &[u8], at: usize) -> Result<usize, Failed>
    requires { at < length bytes.now }
    ensures bound { IfOk result (λ count. at + count ≤ length bytes.now) }
    ensures progress { IfOk result (λ count. 0 < count) }
    ensures content { IfOk result (λ count.
        (O.at out.new).taken ≡ appended (O.at out.old).taken (take count (drop at bytes.now))) }
    ensures err { OnErr result ((O.at out.new).taken ≡ (O.at out.old).taken) }
    ensures cause { HasCause (O.at out.old).faults (O.at out.new).faults result }
{
    out.write(&bytes[at..])
}

/// Writes all the bytes. Where the sink fails, it has taken a beginning of them.
pub fn write_all<O: Sink>(out: &mut O, bytes: &[u8]) -> Result<(), Failed>
    ensures { Writes (O.at out.old) (O.at out.new) bytes.now result }
{
    let mut done = 0;
    'pieces: while done < bytes.len() {
        match write_from(out, bytes, done) {
            Err(Failed) => return Err(Failed),
            Ok(count) => done += count,
        }
    }
    Ok(())
}
