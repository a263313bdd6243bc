//! The name of a session, in room of its own.

ghost use Rattle.std.specs.Prelude.{◌≡◌, ◌≤◌, ◌++◌, drop, length};
ghost use Rattle.endings.specs.PeerNames.{peer_name, shown_name};
ghost use Rattle.relay_wire.specs.declared.limits.TheConstants.{NAME_LIMIT};

use relay_wire::NAME_LIMIT;

/// The name of a session: so many of these bytes, and zeros behind them.
#[derive(Clone, Copy)]
pub struct PeerName {
    pub bytes: [u8; NAME_LIMIT],
    pub len: usize,
}

/// Writes bytes over the beginning of a room.
fn put_first(room: &mut [u8], bytes: &[u8])
    requires { length bytes.now ≤ length room.old }
    ensures { room.new ≡ bytes.now ++ drop (length bytes.now) room.old }
{
    room[..bytes.len()].copy_from_slice(bytes);
}

impl PeerName {
    /// A copy of a name.
    #[tactic(auto, using(crate::proofs::PeerNames::name_filled))]
    pub fn new(name: &[u8]) -> PeerName
        requires { length name.now ≤ NAME_LIMIT }
        ensures { result ≡ peer_name name.now }
    {
        let mut bytes = [0; NAME_LIMIT];
        put_first(&mut bytes, name);
        PeerName {
            bytes,
            len: name.len(),
        }
    }

    /// The bytes of the name.
    #[tactic(auto, using(crate::proofs::PeerNames::all_shown))]
    pub fn shown(&self) -> &[u8]
        ensures name { result.now ≡ shown_name self.now }
        ensures fits { length result.now ≤ NAME_LIMIT }
    {
        if self.len > NAME_LIMIT {
            return &self.bytes;
        }
        &self.bytes[..self.len]
    }
}
