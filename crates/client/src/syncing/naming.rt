//! The names of a client's boxes at a relay.

ghost use Rattle.std.specs.Prelude.{◌≡◌, length, true};
ghost use Rattle.relay_wire.specs.Names.{is_name};
ghost use Rattle.client.specs.Syncing.Lines.{box_name, own_box, peers_box};

use crate::client::Client;
use dr_base::Side;
use dr_ports::OutputLine;
use kem_laws::Kem;
use relay_wire::Name;

/// A client's own box, and its peer's.
#[derive(Drop)]
pub struct Names {
    pub own: Name,
    pub peers: Name,
}

/// The name of a side's box, in bytes: the session in hex digits, a dash and the side's number.
#[tactic(auto, unfolding(crate::specs::Syncing::Lines::box_name))]
pub fn box_bytes(session: &[u8; 16], side: Side) -> OutputLine
    ensures name { result ≡ box_name session.now side }
    ensures len { length result ≡ 34 }
{
    let mut digits = [0; 32];
    hex::encode_to_slice(session, &mut digits).unwrap();
    let mut name = OutputLine::new();
    name.text(&digits);
    match side {
        Side::First => name.text(b"-1"),
        Side::Second => name.text(b"-2"),
    }
    name
}

/// The name of a side's box.
fn box_name(session: &[u8; 16], side: Side) -> Name
    ensures { result ≡ box_name session.now side }
{
    Name::new(box_bytes(session, side).as_bytes()).unwrap()
}

impl<K: Kem> Client<K> {
    /// The names of its boxes.
    pub fn names(&self) -> Names
        ensures own { result.own ≡ own_box self.now.kept }
        ensures peers { result.peers ≡ peers_box self.now.kept }
        ensures own_lawful { is_name result.own ≡ true }
        ensures peers_lawful { is_name result.peers ≡ true }
    {
        let session = self.session();
        let side = self.side();
        Names {
            own: box_name(session, side),
            peers: box_name(session, side.peer()),
        }
    }
}
