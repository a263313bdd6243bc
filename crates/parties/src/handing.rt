//! What waits at one side goes over to the other, by a sync of each over one relay in memory.

ghost use Rattle.std.specs.Prelude.{◌≡◌, None, true};
ghost use Rattle.kem_laws.specs.Mechanism.{Mechanism};
ghost use Rattle.parties.specs.GoingOver.{HasGoneOver, IsServedSync, SyncsGoOver};
ghost use Rattle.relay_link.specs.Connections.{boxes_now};
ghost use Rattle.scripts.specs.Sides.{side_text};

use crate::meeting::meet;
use crate::party::Party;
use dr_base::Side;
use dr_ports::Sink;
use kem_laws::Kem;
use relay_link::RelayLink;
use scripts::side_prefix;

/// The sender's sync and then its peer's, over the boxes that the first left: the texts that waited
/// go over, in order, each once. The function has no code.
pub fn goes_over()
    ensures { (k : Mechanism) → SyncsGoOver k }
{
    client::laws::goes_over();
}

impl<K: Kem> Party<K> {
    /// Syncs with the relay over another connection, on which no reply is lost. Answers whether
    /// that came to its end, which was by the relay's replies then.
    pub fn comes_to_end<O: Sink>(&mut self, relay: &mut RelayLink, out: &mut O, side: Side) -> bool
        requires open { self.old.shut ≡ None }
        ensures open { self.new.shut ≡ None }
        ensures served { result ≡ true
            → IsServedSync K.mechanism (side_text side) self.old.kept self.new.kept
            (boxes_now relay.old) (boxes_now relay.new) }
    {
        match meet(
            &mut self.client,
            &mut self.disk,
            relay,
            out,
            side_prefix(side),
            None,
        ) {
            Ok(_) => true,
            Err(_) => false,
        }
    }
}

/// The sender syncs, and then the receiver. Answers whether both came to their ends: then what
/// waited has gone over.
pub fn hand_over<K: Kem, O: Sink>(
    sender: &mut Party<K>,
    receiver: &mut Party<K>,
    relay: &mut RelayLink,
    out: &mut O,
    side: Side,
) -> bool
    requires sender { sender.old.shut ≡ None }
    requires receiver { receiver.old.shut ≡ None }
    ensures sender { sender.new.shut ≡ None }
    ensures receiver { receiver.new.shut ≡ None }
    ensures over { result ≡ true
        → HasGoneOver K.mechanism (side_text side) side sender.old.kept receiver.old.kept
        receiver.new.kept (boxes_now relay.old) }
{
    goes_over();
    if !sender.comes_to_end(relay, out, side) {
        return false;
    }
    receiver.comes_to_end(relay, out, side.peer())
}
