//! Frames out of a pipe.

ghost use Rattle.std.specs.Prelude.{◌≡◌, ◌+◌, ◌^◌, ◌<◌, ◌≤◌, length, take, drop, IfOk, OnOk, OnErr};
ghost use Rattle.dr_ports.specs.Wires.{Took};
ghost use Rattle.relay_pipe.specs.Pulling.{Pulls, TookBeginning};
ghost use Rattle.relay_wire.specs.Pipes.{LeavesPipe};
ghost use Rattle.relay_wire.specs.declared.limits.TheConstants.{FRAME_LIMIT};

use dr_ports::{Failed, Pipe};
use relay_wire::FrameReader;

/// Receives until a whole frame stands in the reader, and no byte more. `FrameReader::next` lends
/// it then. False where the pipe ended before.
pub fn pull<P: Pipe>(reader: &mut FrameReader, pipe: &mut P) -> Result<bool, Failed>
    requires { reader.old.place + FRAME_LIMIT < 2 ^ 64 }
    ensures pulls { Pulls reader.old reader.new (P.port pipe.old) (P.port pipe.new) result }
    ensures most { length reader.new.bytes ≤ FRAME_LIMIT }
    ensures leaves { LeavesPipe P.port P.behind pipe.old pipe.new result }
{
    'bytes: while reader.wanted() > 0 {
        match reader.receive(pipe) {
            Err(Failed) => return Err(Failed),
            Ok(0) => return Ok(false),
            Ok(_) => {}
        }
    }
    Ok(true)
}

fn send_from<P: Pipe>(pipe: &mut P, bytes: &[u8], at: usize) -> Result<usize, Failed>
    requires { at < length bytes.now }
    ensures bound { IfOk result (λ count. at + count ≤ length bytes.now) }
    ensures progress { IfOk result (λ count. 0 < count) }
    ensures content { IfOk result (λ count.
        Took (take count (drop at bytes.now)) (P.port pipe.old) (P.port pipe.new)) }
    ensures err { OnErr result ((P.port pipe.new).told ≡ (P.port pipe.old).told) }
    ensures leaves { LeavesPipe P.port P.behind pipe.old pipe.new result }
{
    pipe.send(&bytes[at..])
}

/// Sends all the bytes. Where the pipe fails, it has taken a beginning of them.
pub fn send_all<P: Pipe>(pipe: &mut P, bytes: &[u8]) -> Result<(), Failed>
    ensures whole { OnOk result (Took bytes.now (P.port pipe.old) (P.port pipe.new)) }
    ensures part { OnErr result (TookBeginning bytes.now (P.port pipe.old) (P.port pipe.new)) }
    ensures leaves { LeavesPipe P.port P.behind pipe.old pipe.new result }
{
    let mut done = 0;
    'pieces: while done < bytes.len() {
        match send_from(pipe, bytes, done) {
            Err(Failed) => return Err(Failed),
            Ok(count) => done += count,
        }
    }
    Ok(())
}
