//! A fan of a hub, played: all of it is done before anything is written.

ghost use Rattle.std.specs.Prelude.{◌≡◌, ◌≤◌};
ghost use Rattle.kem_laws.specs.Open.{open_kem};
ghost use Rattle.hub.specs.Leaving.{PlaysOver};
ghost use Rattle.hub.specs.Plays.{PlaysFan};

use crate::hub::Hub;
use crate::lines::{Lines, put_lines};
use crate::peers::PEERS_LIMIT;
use dr_disk::Mode;
use dr_model::{acts_follow, said_is_opened};
use dr_ports::{Failed, Sink, write_all};
use kem_laws::{Kem, OpenKem, laws};
use session_model::Refusal;
use std::alloc::Global;

/// Why a fan of a hub wasn't played to its end.
#[derive(Clone, Copy)]
pub enum FanPlayError {
    /// There was no memory; nothing was written.
    Memory,
    /// A peer's key gives no first pair; nothing was written.
    NoPair,
    /// The session with the peer at this place, from 0, refuses the text; nothing was written.
    Peer { at: usize, refusal: Refusal },
    /// A write failed.
    Write,
}

/// Plays a hub's fan over a mechanism, and writes its lines.
fn play<K: Kem, O: Sink>(
    alloc: Global,
    peers: u32,
    after: u32,
    mode: Mode,
    out: &mut O,
) -> Result<(), FanPlayError>
    requires first { 1 ≤ peers }
    requires few { peers ≤ PEERS_LIMIT }
    ensures plays { PlaysOver K.mechanism peers after mode (O.at out.old) (O.at out.new) result }
    ensures later { (O.at out.old).faults ≤ (O.at out.new).faults }
{
    laws::<K>();
    acts_follow();
    said_is_opened();
    let hub = match Hub::<K>::new(alloc, peers) {
        Ok(hub) => hub,
        Err(error) => return Err(error),
    };
    let left = match hub.fan_stopped(alloc, peers, after, mode) {
        Ok(left) => left,
        Err(error) => return Err(error),
    };
    let mut lines = Lines::new();
    match put_lines(alloc, &left, peers, &mut lines) {
        Ok(()) => {}
        Err(error) => return Err(error),
    }
    match write_all(out, lines.as_slice()) {
        Ok(()) => Ok(()),
        Err(Failed) => Err(FanPlayError::Write),
    }
}

/// Plays a hub's fan of `hello` to peers p1, p2 and so on over the stand-in mechanism. The hub is
/// First to each of them, with keys of 32 bytes of the peer's number. Its disk stops once this many
/// writes and syncs of the fan have passed, crashes in this way, and is opened again.
///
/// It writes `answered`, or where the disk stopped `before` or `after`, as the hub is recovered.
/// Then comes what each peer answers to what the hub has for it: `p1 opened 1.1` to its packet,
/// where the hub has said the text, or else `p1 nothing`.
pub fn fan_play<O: Sink>(
    alloc: Global,
    peers: u32,
    after: u32,
    mode: Mode,
    out: &mut O,
) -> Result<(), FanPlayError>
    requires first { 1 ≤ peers }
    requires few { peers ≤ PEERS_LIMIT }
    // Exactly these lines, which these numbers alone tell: the fan makes two calls a peer and eight
    // more, and is a say of all peers or of none; or nothing is written, for this reason, or a
    // beginning of them.
    ensures plays { PlaysFan open_kem peers after mode (O.at out.old) (O.at out.new) result }
    ensures later { (O.at out.old).faults ≤ (O.at out.new).faults }
{
    laws::<OpenKem>();
    play::<OpenKem, O>(alloc, peers, after, mode, out)
}
