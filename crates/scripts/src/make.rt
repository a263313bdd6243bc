//! Scripts that are made from a number.

ghost use Rattle.std.specs.Prelude.{◌≡◌, ◌≤◌, length, IfOk};
ghost use Rattle.scripts.specs.Make.{made_script, turn_deeds};
ghost use Rattle.scripts.specs.Printed.{script_text};
ghost use Rattle.scripts.specs.declared.make.rounds.Turn.TheVariants.{Says, Takes};

use crate::script::{KemName, Script};
use crate::sides::side_name;
use bodies::Format;
use dr_base::{Key32, Side};
use dr_ports::OutputLine;
use rounds::{Making, Turn};
use std::alloc::{AllocError, Global};

mod rounds;

/// The lines of a side that says a round's text.
fn said_text(round: u32, side: Side) -> OutputLine
    ensures { result ≡ script_text (turn_deeds round (Says side)) }
{
    let mut lines = OutputLine::new();
    lines.text(side_name(side));
    lines.text(b"say m");
    lines.number(u64::from(round));
    lines.text(b"\n");
    lines.text(side_name(side));
    lines.text(b"sent 1\n");
    lines
}

/// The lines of a side that takes a packet.
fn taken_text(round: u32, side: Side, nth: u32) -> OutputLine
    ensures { result ≡ script_text (turn_deeds round (Takes side nth)) }
{
    let mut lines = OutputLine::new();
    lines.text(side_name(side));
    lines.text(b"take #");
    lines.number(u64::from(nth));
    lines.text(b"\n");
    lines.text(side_name(side));
    lines.text(b"done all\n");
    lines
}

/// The lines of a round.
#[tactic(auto, unfolding(crate::specs::Make::turn_deeds))]
fn turn_text(round: u32, turn: Turn) -> OutputLine
    ensures { result ≡ script_text (turn_deeds round turn) }
{
    match turn {
        Turn::Says(side) => said_text(round, side),
        Turn::Takes(side, nth) => taken_text(round, side, nth),
        Turn::Rests => OutputLine::new(),
    }
}

/// How many lines a round has.
#[tactic(auto, unfolding(crate::specs::Make::turn_deeds))]
fn turn_count(round: u32, turn: Turn) -> usize
    ensures count { result ≡ length (turn_deeds round turn) }
    ensures few { result ≤ 2 }
{
    match turn {
        Turn::Says(_) | Turn::Takes(_, _) => 2,
        Turn::Rests => 0,
    }
}

impl Script {
    /// The script of this many rounds that is made from a number, over the stand-in and a key of
    /// zeros. Its only error is want of memory.
    pub fn make(alloc: Global, rounds: u32, number: u64) -> Result<Self, AllocError>
        ensures { IfOk result (λ script. script ≡ made_script rounds number) }
    {
        let mut made = Making::new(number);
        let mut text = Vec::new(alloc);
        let mut count = 0;
        'rounds: for round in 0..rounds {
            let turn = made.round();
            text.extend_from_slice(turn_text(round + 1, turn).as_bytes())?;
            count += turn_count(round + 1, turn);
        }
        Ok(Script {
            kem: KemName::Open,
            key: Key32 { bytes: [0; 32] },
            first: Format::Plain,
            second: Format::Plain,
            guarded: false,
            text,
            count,
            rounds,
        })
    }
}
