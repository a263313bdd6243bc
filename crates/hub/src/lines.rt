//! The lines of a hub's fan, put together before they are written.

ghost use Rattle.std.specs.Prelude.{◌≡◌, ◌≤◌, ◌+◌, ◌++◌, [], length};
ghost use Rattle.hub.specs.Lines.{PutsLines, PutsPeer, end_line, peer_line};

use crate::peers::{PEERS_LIMIT, peer_name};
use crate::playing::FanPlayError;
use crate::receiving::answer;
use crate::stopping::Left;
use answer_lines::put_answer;
use arrayvec::ArrayVec;
use book::Book;
use dr_ports::OutputLine;
use kem_laws::Kem;
use session_model::Answer;
use std::alloc::Global;

/// Room for a line of each peer, and one before them.
pub(crate) type Lines = ArrayVec<u8, 1024>;

/// How long a peer's line may be.
const LINE_MOST: usize = 120;

/// How long the first line may be.
const FIRST_MOST: usize = 9;

/// Puts a text after what stands.
fn put(lines: &mut Lines, text: &[u8])
    requires { length lines.old.items + length text.now ≤ 1024 }
    ensures bytes { lines.new.items ≡ lines.old.items ++ text.now }
    ensures len { length lines.new.items ≡ length lines.old.items + length text.now }
{
    lines.try_extend_from_slice(text).unwrap();
}

/// The line of a peer: its name, and what it answers.
#[tactic(auto, unfolding(crate::specs::Lines::peer_line))]
fn peer_line(number: u32, answer: Answer) -> OutputLine
    requires first { 1 ≤ number }
    requires few { number ≤ PEERS_LIMIT }
    ensures bytes { result ≡ peer_line number answer }
    ensures len { length result ≤ LINE_MOST }
{
    let mut line = OutputLine::new();
    line.text(peer_name(number).as_bytes());
    line.text(b" ");
    put_answer(&mut line, answer);
    line.text(b"\n");
    line
}

/// The line before those of the peers: whether the fan was acknowledged, or else whether the hub,
/// as recovered, has a packet for the first of them.
fn first_line<K: Kem>(left: &Left<K>) -> &'static [u8]
    ensures bytes { result.now ≡ end_line left.now.acknowledged left.now.book.rows }
    ensures len { length result.now ≤ FIRST_MOST }
{
    if left.acknowledged {
        return b"answered\n";
    }
    match left.book.outbox(peer_name(1), 0) {
        Ok(Some(_)) => b"after\n",
        _ => b"before\n",
    }
}

/// Puts the line of the peer of a number after what stands.
fn put_peer<K: Kem>(
    alloc: Global,
    book: &Book<K>,
    number: u32,
    lines: &mut Lines,
) -> Result<(), FanPlayError>
    requires first { 1 ≤ number }
    requires few { number ≤ PEERS_LIMIT }
    requires room { length lines.old.items + LINE_MOST ≤ 1024 }
    ensures puts { PutsPeer K.mechanism number book.now.rows lines.old.items lines.new.items
        result }
    ensures len { length lines.new.items ≤ length lines.old.items + LINE_MOST }
{
    match answer(alloc, book, number) {
        Ok(answer) => {
            put(lines, peer_line(number, answer).as_bytes());
            Ok(())
        }
        Err(error) => Err(error),
    }
}

/// Puts all lines into room that is empty.
pub(crate) fn put_lines<K: Kem>(
    alloc: Global,
    left: &Left<K>,
    peers: u32,
    lines: &mut Lines,
) -> Result<(), FanPlayError>
    requires few { peers ≤ PEERS_LIMIT }
    requires empty { lines.old.items ≡ [] }
    ensures { PutsLines K.mechanism peers left.now.acknowledged left.now.book.rows
        lines.new.items result }
{
    put(lines, first_line(left));
    'peers: for at in 0..peers {
        match put_peer(alloc, &left.book, at + 1, lines) {
            Ok(()) => {}
            Err(error) => return Err(error),
        }
    }
    Ok(())
}
