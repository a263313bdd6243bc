//! A side whose disk stops in a sync.

ghost use Rattle.std.specs.Prelude.{◌≡◌, None, IfSome};
ghost use Rattle.parties.specs.CutSyncs.{IsCutSync};
ghost use Rattle.scripts.specs.Sides.{side_text};

use crate::party::Party;
use client::Client;
use dr_base::Side;
use dr_disk::Mode;
use dr_ports::Sink;
use kem_laws::Kem;
use relay_link::RelayLink;
use scripts::side_prefix;
use std::alloc::Global;

impl<K: Kem> Party<K> {
    /// Syncs over another connection, on which no reply is lost, and on a disk that stops once this
    /// many writes and syncs have passed. Then the disk crashes in this way, and the client is
    /// opened from what is left, if there is memory for it.
    pub fn cut_sync<O: Sink>(
        self,
        alloc: Global,
        relay: &mut RelayLink,
        out: &mut O,
        side: Side,
        after: u32,
        mode: Mode,
    ) -> Option<Self>
        requires { self.shut ≡ None }
        ensures cut { IfSome result
            (λ p. IsCutSync K.mechanism (side_text side) self.kept p.kept) }
        ensures open { IfSome result (λ p. p.shut ≡ None) }
    {
        let Party {
            mut client,
            mut disk,
            ..
        } = self;
        disk.stop_after(after);
        relay.connect(None);
        let _ended = client.sync(&mut disk, relay, out, side_prefix(side));
        let mut left = disk.crash(mode);
        match Client::open(alloc, &mut left) {
            Ok(client) => Some(Party {
                client,
                disk: left,
                shut: None,
            }),
            Err(_) => None,
        }
    }
}
