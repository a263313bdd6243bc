//! The network gets what a side adds to its outbox.

ghost use Rattle.std.specs.Prelude.{◌≡◌, ◌+◌, ◌≤◌, length};
ghost use Rattle.dr_model.specs.Machines.Sides.{client_of};
ghost use Rattle.duet.specs.Gathering.{gathered, newest_from};
ghost use Rattle.duet.specs.Held.{HasPostRoom};

use crate::sides::Duet;
use dr_base::Side;
use kem_laws::Kem;

impl<K: Kem> Duet<K> {
    /// The network gets the packet that stands after this many in a side's outbox, if there is one.
    #[tactic(auto, using(crate::proofs::Gathering::last_dropped))]
    pub(crate) fn gather(&mut self, side: Side, held: u32)
        requires room { HasPostRoom self.old }
        requires one { length (client_of self.old.sides side).outbox ≤ held + 1 }
        ensures { self.new ≡ record self.old { sides = gathered held side self.old.sides } }
    {
        if self.party(side).summary().outbox > held {
            let post = self.party(side).newest();
            self.posts.push_reserved(post);
        }
    }

    /// The network gets the newest packet of a side's outbox, if it has more than this many.
    #[tactic(auto, using(crate::proofs::Gathering::newest_dropped))]
    pub(crate) fn gather_newest(&mut self, side: Side, held: u32)
        requires room { HasPostRoom self.old }
        ensures { let outbox = (client_of self.old.sides side).outbox in
            self.new ≡ record self.old {
              sides = gathered (newest_from held (length outbox)) side self.old.sides;
            } }
    {
        if self.party(side).summary().outbox > held {
            let post = self.party(side).newest();
            self.posts.push_reserved(post);
        }
    }
}
