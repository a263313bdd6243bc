//! The end of a run: its last line, and its status.

ghost use Rattle.std.specs.Prelude.{◌≡◌, ◌+◌, ◌≤◌, ◌++◌, [], length, codes, decimal};
ghost use Rattle.answer_lines.specs.Answers.{refusal_text};
ghost use Rattle.answer_lines.specs.Longs.{long_refusal_text};
ghost use Rattle.endings.specs.Ending.{ending_text, last_line, peer_kind_text};
ghost use Rattle.endings.specs.Ends.{Ends};
ghost use Rattle.endings.specs.PeerNames.{shown_name};
ghost use Rattle.relay_wire.specs.declared.limits.TheConstants.{NAME_LIMIT};

use crate::ending::Ending;
use crate::peer_name::PeerName;
use answer_lines::{put_long_refusal, put_named, put_refusal};
use dr_ports::{Failed, OutputLine, ROOM, Sink, write_all};
use long_text::LongRefusal;
use relay_pipe::PeerKind;
use session_model::Refusal;

/// What the program ends with.
#[derive(Clone, Copy)]
pub struct Status {
    pub code: u8,
}

/// What it ends with where a line couldn't be written.
pub const UNWRITTEN: Status = Status { code: 5 };

/// What is wrong with a relay's bytes.
#[tactic(auto, unfolding(crate::specs::Ending::peer_kind_text))]
fn peer_kind_name(kind: PeerKind) -> &'static [u8]
    ensures name { result.now ≡ peer_kind_text kind }
    ensures short { length result.now ≤ 5 }
{
    match kind {
        PeerKind::Frame => b"Frame",
        PeerKind::Kind => b"Kind",
        PeerKind::Size => b"Size",
        PeerKind::Wrong => b"Wrong",
        PeerKind::Ended => b"Ended",
    }
}

/// Puts a refusal after what stands.
fn put_refused(line: &mut OutputLine, refusal: Refusal)
    requires { length line.old + 70 ≤ ROOM }
    ensures bytes { line.new ≡ line.old ++ codes "refused: " ++ refusal_text refusal }
    ensures len { length line.new ≤ length line.old + 70 }
{
    line.text(b"refused: ");
    put_refusal(line, refusal);
}

/// Puts a refusal of the session of a name after what stands.
fn put_peer_refusal(line: &mut OutputLine, name: &PeerName, refusal: Refusal)
    requires { length line.old + 76 + NAME_LIMIT ≤ ROOM }
    ensures bytes { line.new ≡ line.old ++ codes "refused: Peer " ++ shown_name name.now
        ++ codes " " ++ refusal_text refusal }
    ensures len { length line.new ≤ length line.old + 76 + NAME_LIMIT }
{
    line.text(b"refused: Peer ");
    line.text(name.shown());
    line.text(b" ");
    put_refusal(line, refusal);
}

/// Puts why there is no long text after what stands.
fn put_unjoined(line: &mut OutputLine, refusal: LongRefusal)
    requires { length line.old + 98 ≤ ROOM }
    ensures bytes { line.new ≡ line.old ++ codes "refused: " ++ long_refusal_text refusal }
    ensures len { length line.new ≤ length line.old + 98 }
{
    line.text(b"refused: ");
    put_long_refusal(line, refusal);
}

/// Puts which one is damaged, and where, after what stands.
fn put_damaged(line: &mut OutputLine, which: u32, at: u64)
    requires { length line.old + 60 ≤ ROOM }
    ensures bytes { line.new ≡ line.old ++ decimal which ++ codes " at " ++ decimal at }
    ensures len { length line.new ≤ length line.old + 60 }
{
    line.number(u64::from(which));
    put_named(line, b" at ", at);
}

/// Puts the fault of a relay's bytes after what stands.
fn put_peer(line: &mut OutputLine, kind: PeerKind, at: u32)
    requires { length line.old + 40 ≤ ROOM }
    ensures bytes { line.new ≡ line.old ++ codes "peer: " ++ peer_kind_text kind ++ codes " at " ++ decimal at }
    ensures len { length line.new ≤ length line.old + 40 }
{
    line.text(b"peer: ");
    line.text(peer_kind_name(kind));
    put_named(line, b" at ", u64::from(at));
}

/// Puts an ending in words into an empty line.
#[tactic(auto, unfolding(crate::specs::Ending::ending_text))]
fn put_ending(line: &mut OutputLine, ending: Ending)
    requires { line.old ≡ [] }
    ensures bytes { line.new ≡ ending_text ending }
    ensures len { length line.new ≤ 120 }
{
    match ending {
        Ending::Done => {}
        Ending::Usage => line.text(b"usage"),
        Ending::InputTooLong(limit) => {
            put_named(line, b"refused: InputTooLong ", u64::from(limit))
        }
        Ending::BadKey => line.text(b"refused: BadKey"),
        Ending::NotHex => line.text(b"refused: NotHex"),
        Ending::BadBox(number) => put_named(line, b"refused: BadBox ", u64::from(number)),
        Ending::BoxName(number) => put_named(line, b"refused: BoxName ", u64::from(number)),
        Ending::BoxKeys(number) => put_named(line, b"refused: BoxKeys ", u64::from(number)),
        Ending::BadName => line.text(b"refused: BadName"),
        Ending::NameTaken => line.text(b"refused: NameTaken"),
        Ending::NoName => line.text(b"refused: NoName"),
        Ending::BookFull(rows) => put_named(line, b"refused: BookFull ", u64::from(rows)),
        Ending::Twice => line.text(b"refused: Twice"),
        Ending::FanFull => line.text(b"refused: FanFull"),
        Ending::PeerRefused { name, refusal } => put_peer_refusal(line, &name, refusal),
        Ending::BadLine(number) => put_named(line, b"refused: Script ", u64::from(number)),
        Ending::NoRelayKeys => line.text(b"refused: NoRelayKeys"),
        Ending::Refused(refusal) => put_refused(line, refusal),
        Ending::Unjoined(refusal) => put_unjoined(line, refusal),
        Ending::NoSuchPart(count) => put_named(line, b"refused: NoSuchPart ", u64::from(count)),
        Ending::BoxFull => line.text(b"refused: BoxFull"),
        Ending::NoBox => line.text(b"refused: Unknown"),
        Ending::Denied(rule) => put_named(line, b"refused: Denied ", u64::from(rule)),
        Ending::ReadFault => line.text(b"fault: read"),
        Ending::DiskFault => line.text(b"fault: disk"),
        Ending::LinkFault => line.text(b"fault: link"),
        Ending::DrawFault => line.text(b"fault: draws"),
        Ending::NoSession => line.text(b"no session"),
        Ending::Exists => line.text(b"session exists"),
        Ending::Damaged { slot, at } => {
            line.text(b"damaged slot ");
            put_damaged(line, slot, at);
        }
        Ending::DamagedArea { area, slot, at } => {
            put_named(line, b"damaged area ", u64::from(area));
            line.text(b" slot ");
            put_damaged(line, slot, at);
        }
        Ending::DamagedBookTable { table, at } => {
            line.text(b"damaged book table ");
            put_damaged(line, table, at);
        }
        Ending::DamagedBookRow { row, at } => {
            line.text(b"damaged book row ");
            put_damaged(line, row, at);
        }
        Ending::Peer { kind, at } => put_peer(line, kind, at),
        Ending::NoMemory => line.text(b"no memory"),
    }
}

/// The last line of an ending.
#[tactic(auto, unfolding(crate::specs::Ending::last_line))]
fn closing(ending: Ending) -> OutputLine
    ensures { result ≡ last_line ending }
{
    let mut line = OutputLine::new();
    if matches!(ending, Ending::Done) {
        return line;
    }
    put_ending(&mut line, ending);
    line.text(b"\n");
    line
}

/// Writes an ending's last line, and answers its status, or 5 where that write failed.
pub fn finish<O: Sink>(out: &mut O, ending: Ending) -> Status
    ensures ends { Ends ending [] (O.at out.old) (O.at out.new) result.code }
    ensures later { (O.at out.old).faults ≤ (O.at out.new).faults }
{
    match write_all(out, closing(ending).as_bytes()) {
        Ok(()) => Status {
            code: ending.code(),
        },
        Err(Failed) => UNWRITTEN,
    }
}
