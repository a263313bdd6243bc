//! A script's text, read whole before its first line runs. Its first line names the mechanism, its
//! second the key of both sessions; a line for their formats and one for guarded boxes may follow.
//! Each later line is a deed.

ghost use Rattle.std.specs.Prelude.{◌≡◌, ◌≤◌, ◌<◌, ◌^◌, length, Ok, Err, IfOk, IfErr};
ghost use Rattle.dr_model.specs.Conversations.Formats.{side_format};
ghost use Rattle.scripts.specs.Faults.{IsFaultOf};
ghost use Rattle.scripts.specs.Script.{AreCounted, deeds_in, deeds_of, lines_of, script_of};

use crate::head::{parse_head, parse_kem, parse_key};
use crate::lined::Lined;
use crate::lines::Lines;
use bodies::Format;
use dr_base::{Key32, Side};
use script_parts::split_line;
use std::alloc::Global;
use std::marker::Model;

/// A key encapsulation mechanism, as a script names it.
#[derive(Clone, Copy)]
pub enum KemName {
    /// `kem open`: the stand-in without secrecy.
    Open,
    /// `kem sntrup761`: Streamlined NTRU Prime.
    Sntrup761,
}

/// A script that was read or made: a mechanism, the key of both sessions, how each seals its texts,
/// whether their boxes are guarded, and the deeds in order. It owns its text.
#[derive(Drop)]
pub struct Script {
    pub(crate) kem: KemName,
    pub(crate) key: Key32,
    pub(crate) first: Format,
    pub(crate) second: Format,
    /// Whether the relay guards the boxes of both.
    pub(crate) guarded: bool,
    /// The lines of the deeds, none of which is bad.
    pub(crate) text: Vec<u8>,
    /// How many lines these are.
    pub(crate) count: usize,
    /// The rounds that it was made of; 0 of one that was read.
    pub(crate) rounds: u32,
}

impl Model for Script {
    ghost use Rattle.scripts.specs.Script.{AreCounted, Scripted, deeds_in};
    ghost use Rattle.scripts.specs.ScriptCodes.{script_code};

    ghost Value = { Scripted };

    ghost coded = { script_code };

    ghost view = { λ s. record {
      kem = s.kem;
      key = s.key.bytes;
      formats = record { first = s.first; second = s.second };
      guarded = s.guarded;
      deeds = deeds_in s.text.items;
      rounds = s.rounds;
    } };

    ghost invariant = { λ s. AreCounted s.text.items s.count };
}

/// Why a text is no script.
#[derive(Clone, Copy)]
pub enum ScriptError {
    /// There was no memory for the lines.
    Memory,
    /// The first bad line, from 1.
    Line(u32),
}

impl Script {
    /// Reads a text as a script.
    #[tactic(auto, unfolding(crate::specs::Script::script_of, crate::specs::Script::deeds_in))]
    pub fn parse(alloc: Global, text: &[u8]) -> Result<Self, ScriptError>
        requires { length text.now < 2 ^ 31 }
        ensures ok { IfOk result (λ script. script_of text.now ≡ Ok script) }
        ensures err { IfErr result (IsFaultOf (script_of text.now)) }
    {
        let Some((line, rest)) = split_line(text) else {
            return Err(ScriptError::Line(1));
        };
        let Some(kem) = parse_kem(line) else {
            return Err(ScriptError::Line(1));
        };
        let Some((line, rest)) = split_line(rest) else {
            return Err(ScriptError::Line(2));
        };
        let Some(key) = parse_key(line) else {
            return Err(ScriptError::Line(2));
        };
        let head = parse_head(rest);
        let count = match count_lines(head.rest, head.number) {
            Ok(count) => count,
            Err(number) => return Err(ScriptError::Line(number)),
        };
        let Ok(text) = Vec::from_slice(alloc, head.rest) else {
            return Err(ScriptError::Memory);
        };
        Ok(Script {
            kem,
            key,
            first: head.first,
            second: head.second,
            guarded: head.guarded,
            text,
            count,
            rounds: 0,
        })
    }

    /// The mechanism that the first line names.
    pub fn kem(&self) -> KemName
        ensures { result ≡ self.now.kem }
    {
        self.kem
    }

    /// The key of both sessions.
    pub fn key(&self) -> &Key32
        ensures { result.now.bytes ≡ self.now.key }
    {
        &self.key
    }

    /// How a side seals its texts.
    pub fn format(&self, side: Side) -> Format
        ensures { result ≡ side_format self.now.formats side }
    {
        match side {
            Side::First => self.first,
            Side::Second => self.second,
        }
    }

    /// Whether the relay guards the boxes of both sides.
    pub fn guarded(&self) -> bool
        ensures { result ≡ self.now.guarded }
    {
        self.guarded
    }

    /// How many deeds there are.
    pub fn len(&self) -> usize
        ensures { result ≡ length self.now.deeds }
    {
        self.count
    }

    /// The rounds of a script that was made from a number; 0 of one that was read.
    pub fn rounds(&self) -> u32
        ensures { result ≡ self.now.rounds }
    {
        self.rounds
    }

    /// The deeds from the first on.
    pub fn lines(&self) -> Lines<'_>
        ensures { result ≡ self.now.deeds }
    {
        Lines::new(self.text.as_slice())
    }
}

/// How many lines there are, of which the first has this number in its script, or the number of the
/// first bad one.
fn count_lines(text: &[u8], from: u32) -> Result<usize, u32>
    requires few { length text.now < 2 ^ 31 }
    requires early { from ≤ 5 }
    ensures ok { IfOk result (AreCounted text.now) }
    ensures read { IfOk result (λ _. deeds_of from (lines_of text.now) ≡ Ok (deeds_in text.now)) }
    ensures err { IfErr result (λ number. deeds_of from (lines_of text.now) ≡ Err number) }
{
    let mut rest = text;
    let mut number = from;
    'lines: while let Some((line, next)) = split_line(rest) {
        if Lined::parse(line).is_none() {
            return Err(number);
        }
        rest = next;
        number += 1;
    }
    Ok((number - from) as usize)
}
