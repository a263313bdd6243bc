//! The command that plays a fan on a disk that stops meanwhile.

ghost use Rattle.std.specs.Prelude.{◌≡◌, ◌+◌, ◌<◌, ◌≤◌, IfSome};
ghost use Rattle.command_lines.specs.Runs.{Runs};
ghost use Rattle.endings.specs.PeerNames.{shown_name};
ghost use Rattle.hub.specs.Peers.{peer_name};
ghost use Rattle.hub.specs.declared.peers.TheConstants.{PEERS_LIMIT};
ghost use Rattle.messenger_cli.specs.FanPlaying.{PlaysFanBy, fan_mode};

use dr_disk::Mode;
use dr_ports::Sink;
use endings::{Ending, PeerName, Status, UNWRITTEN, finish};
use hub::{FanPlayError, PEERS_LIMIT, fan_play, peer_name};
use scripts::parse_mode;
use session_model::Refusal;
use std::alloc::Global;

/// How the disk crashes, by a word, for as many people as a hub may have.
fn mode_of(peers: u32, word: &str) -> Option<Mode>
    ensures value { result ≡ fan_mode peers word.now }
    ensures first { IfSome result (λ mode. 1 ≤ peers) }
    ensures few { IfSome result (λ mode. peers ≤ PEERS_LIMIT) }
{
    if peers >= 1 && peers <= PEERS_LIMIT {
        return parse_mode(word.as_bytes());
    }
    None
}

/// The name of the person at a place, from 0.
fn name_at(at: usize) -> PeerName
    requires { at < PEERS_LIMIT }
    ensures { shown_name result ≡ peer_name (at + 1) }
{
    PeerName::new(peer_name(at as u32 + 1).as_bytes())
}

/// Plays a fan to this many people, whose disk stops once this many writes and syncs have passed,
/// and crashes in the way that a word says. It writes what came of that, in a line for the fan and
/// one for each of them.
#[inline(never)]
pub(crate) fn play_fan<O: Sink>(
    alloc: Global,
    peers: u32,
    calls: u32,
    word: &str,
    out: &mut O,
) -> Status
    ensures runs { Runs (PlaysFanBy peers calls (fan_mode peers word.now))
        (O.at out.old) (O.at out.new) result.code }
    ensures writes { (O.at out.old).faults ≤ (O.at out.new).faults }
    // Status 0 says that no write failed.
    ensures quiet { result.code ≡ 0 → (O.at out.new).faults ≡ (O.at out.old).faults }
{
    let Some(mode) = mode_of(peers, word) else {
        return finish(out, Ending::Usage);
    };
    match fan_play(alloc, peers, calls, mode, out) {
        Ok(()) => finish(out, Ending::Done),
        Err(FanPlayError::Memory) => finish(out, Ending::NoMemory),
        Err(FanPlayError::NoPair) => finish(out, Ending::Refused(Refusal::NoPair)),
        Err(FanPlayError::Peer { at, refusal }) => {
            let name = name_at(at);
            finish(out, Ending::PeerRefused { name, refusal })
        }
        Err(FanPlayError::Write) => UNWRITTEN,
    }
}
