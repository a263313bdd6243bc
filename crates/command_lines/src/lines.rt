//! The lines that commands show.

ghost use Rattle.std.specs.Prelude.{◌≡◌, ◌+◌, ◌≤◌, ◌++◌, length};
ghost use Rattle.boxes.specs.Posts.{post_under};
ghost use Rattle.command_lines.specs.Lines.{count_line, count_lines, name_lines, packet_line, session_line, side_line};

use answer_lines::{put_named, put_position};
use arrayvec::ArrayVec;
use client::Core;
use dr_base::{PACKET_LIMIT, Position, Side};
use dr_ports::{OutputLine, ROOM};
use kem_laws::Kem;

/// The longest text of a packet's bytes: two hex digits for each.
const DIGITS: usize = 2 * PACKET_LIMIT;

/// The longest line of a packet: its digits, and room for the position before them and for the line
/// feed.
const PACKET_LINE_LIMIT: usize = DIGITS + 84;

/// The line of a packet: its bytes in hex, after its position.
pub(crate) type PacketLine = ArrayVec<u8, PACKET_LINE_LIMIT>;

/// The line of a packet in the outbox.
#[tactic(auto, unfolding(crate::specs::Lines::packet_line))]
pub(crate) fn packet_line(position: Position, packet: &[u8]) -> PacketLine
    requires { length packet.now ≤ PACKET_LIMIT }
    ensures { result.items ≡ packet_line (post_under position packet.now) }
{
    let mut head = OutputLine::new();
    put_position(&mut head, position);
    head.text(b" ");
    let mut digits = [0; DIGITS];
    hex::encode_to_slice(packet, &mut digits[..2 * packet.len()]).unwrap();
    let mut line = PacketLine::new();
    line.try_extend_from_slice(head.as_bytes()).unwrap();
    line.try_extend_from_slice(&digits[..2 * packet.len()])
        .unwrap();
    line.try_extend_from_slice(b"\n").unwrap();
    line
}

/// The line of a session's name.
#[tactic(auto, unfolding(crate::specs::Lines::session_line))]
pub fn session_line(session: &[u8; 16]) -> OutputLine
    ensures line { result ≡ session_line session.now }
    ensures len { length result ≤ 41 }
{
    let mut digits = [0; 32];
    hex::encode_to_slice(session, &mut digits).unwrap();
    let mut line = OutputLine::new();
    line.text(b"session ");
    line.text(&digits);
    line.text(b"\n");
    line
}

/// The line of a side.
#[tactic(auto, unfolding(crate::specs::Lines::side_line))]
fn side_line(side: Side) -> &'static [u8]
    ensures line { result.now ≡ side_line side }
    ensures len { length result.now ≤ 12 }
{
    match side {
        Side::First => b"side first\n",
        Side::Second => b"side second\n",
    }
}

/// Who a core is, in two lines.
#[tactic(auto, unfolding(crate::specs::Lines::name_lines))]
pub(crate) fn name_lines<K: Kem>(core: &Core<K>) -> OutputLine
    ensures { result ≡ name_lines core.now }
{
    let mut lines = session_line(core.session());
    lines.text(side_line(core.side()));
    lines
}

/// Puts a name and a number as a line.
#[tactic(auto, unfolding(crate::specs::Lines::count_line))]
pub fn put_count(lines: &mut OutputLine, name: &[u8], number: u32)
    requires { length lines.old + length name.now + 21 ≤ ROOM }
    ensures lines { lines.new ≡ lines.old ++ count_line name.now number }
    ensures len { length lines.new ≤ length lines.old + length name.now + 21 }
{
    put_named(lines, name, u64::from(number));
    lines.text(b"\n");
}

/// How far a core has come, in four lines.
#[tactic(auto, unfolding(crate::specs::Lines::count_lines))]
pub(crate) fn count_lines<K: Kem>(core: &Core<K>) -> OutputLine
    ensures { result ≡ count_lines core.now }
{
    let state = core.state();
    let mut lines = OutputLine::new();
    put_count(&mut lines, b"epoch ", state.epoch);
    put_count(&mut lines, b"missing ", state.missing);
    put_count(&mut lines, b"inbox ", state.inbox);
    put_count(&mut lines, b"outbox ", state.outbox);
    lines
}
