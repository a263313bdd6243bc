//! The lines of a relay.

ghost use Rattle.std.specs.Prelude.{◌≡◌};
ghost use Rattle.relay_command.specs.Connections.{port_line};
ghost use Rattle.relay_command.specs.Turns.{line_of};

use crate::connecting::Connected;
use answer_lines::put_named;
use dr_ports::OutputLine;

/// The line that tells that a relay listens.
#[tactic(auto, unfolding(crate::specs::Connections::port_line))]
pub(crate) fn port_line(port: u16) -> OutputLine
    ensures { result ≡ port_line port }
{
    let mut line = OutputLine::new();
    put_named(&mut line, b"relay ", u64::from(port));
    line.text(b"\n");
    line
}

/// The line of a connection, by its number.
#[tactic(auto, unfolding(crate::specs::Connections::connection_line))]
pub(crate) fn connection_line(number: u64, connected: Connected) -> OutputLine
    ensures { result ≡ line_of number connected }
{
    let mut line = OutputLine::new();
    put_named(&mut line, b"connection ", number);
    match connected {
        Connected::Ended(answered) => put_named(&mut line, b" ended ", u64::from(answered)),
        Connected::Failed => line.text(b" failed"),
    }
    line.text(b"\n");
    line
}
