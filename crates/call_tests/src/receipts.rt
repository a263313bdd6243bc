//! The worked receipts of the protocol.

use crate::comparing::have_digest;
use crate::sessions::{Packet, begin, say, take};
use bodies::{Format, Receipt, is_covered};
use dr_base::{Kept, Key32, Position, Side};
use kem_laws::OpenKem;
use ratchet::Session;
use session_model::Refusal;
use std::alloc::Global;

/// Says so many texts, at least one, and answers the packet of the last one.
fn say_many(second: &mut Session<OpenKem>, n: u32) -> Result<Packet, Refusal> {
    for _ in 1..n {
        let _packet = say(second, b"a")?;
    }
    say(second, b"b")
}

/// What First says once it took a packet.
fn answer_to(packet: &Packet) -> Result<Packet, Refusal> {
    let mut first = begin(Side::First, Format::Receipts)?;
    let _text = take(&mut first, packet.as_slice())?;
    say(&mut first, b"c")
}

/// Whether so many texts wait, the oldest at 0.1.
fn awaits(session: &Session<OpenKem>, n: u32) -> bool {
    let part = session.part();
    let positions = part.head.awaiting.positions();
    positions.len() == n as usize && positions.first() == Some(&Position { epoch: 0, index: 1 })
}

/// How many texts Second says, of which First takes the last one; the length and the SHA-256 of
/// what First says then; and how many texts wait once that is taken.
type Row = (u32, usize, &'static str, u32);

/// Whether it is as a row has it.
fn is_told(alloc: Global, row: Row) -> Result<bool, Refusal> {
    let (n, len, sha256, rest) = row;
    let mut second = begin(Side::Second, Format::Receipts)?;
    let last = say_many(&mut second, n)?;
    let answer = answer_to(&last)?;
    let is_before = awaits(&second, n);
    let _text = take(&mut second, answer.as_slice())?;
    Ok(
        is_before
            && awaits(&second, rest)
            && answer.len() == len
            && have_digest(alloc, answer.as_slice(), sha256),
    )
}

/// Whether the receipt of who has opened 0.2, and not 0.1, covers 0.2 alone.
fn covers() -> bool {
    let first = Position { epoch: 0, index: 1 };
    let second = Position { epoch: 0, index: 2 };
    let missing = Kept {
        position: first,
        key: Key32 { bytes: [0; 32] },
    };
    let receipt = Some(Receipt::up_to(&[missing], second));
    is_covered(&receipt, second) && !is_covered(&receipt, first)
}

#[test]
fn receipts_are_sent(rt: HostRuntime) {
    let rows: [Row; 2] = [
        (
            2,
            385,
            "8d74ae001b133e2e4cf772980c4caca8cb902e1d1ee66cf37c077bd675fd2f6b",
            1,
        ),
        (
            35,
            641,
            "f0babaeade10c366a99872f88a7a6dff786569c1932278d12635d8f8ff97b12d",
            35,
        ),
    ];
    assert!(rt; covers());
    for row in rows {
        assert!(rt; matches!(is_told(rt.alloc(), row), Ok(true)));
    }
}
