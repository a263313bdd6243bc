//! A side syncs with the relay that both sides have in memory.

ghost use Rattle.std.specs.Prelude.{◌≡◌, None, OnOk};
ghost use Rattle.dr_ports.specs.Writing.{Writes};
ghost use Rattle.duet.specs.Outcomes.{synced_on};
ghost use Rattle.duet.specs.Shuts.{shut_of};
ghost use Rattle.duet.specs.Held.{after_deed, beside};

use crate::sides::Duet;
use dr_base::Side;
use dr_ports::{Failed, Sink};
use kem_laws::Kem;

impl<K: Kem> Duet<K> {
    /// A side syncs with the relay. The reply to the request of this number, from 1, is lost, and
    /// with it the link.
    pub fn sync<O: Sink>(
        &mut self,
        out: &mut O,
        side: Side,
        lost: Option<u32>,
    ) -> Result<(), Failed>
        requires open { shut_of self.old.shuts side ≡ None }
        ensures writes { let k = K.mechanism in Writes (O.at out.old) (O.at out.new)
            (synced_on k (beside self.old) side lost).lines result }
        ensures next { let k = K.mechanism in
            OnOk result (self.new ≡ after_deed self.old
            (synced_on k (beside self.old) side lost)) }
    {
        match side {
            Side::First => self.first.sync(&mut self.relay, out, side, lost),
            Side::Second => self.second.sync(&mut self.relay, out, side, lost),
        }
    }
}
