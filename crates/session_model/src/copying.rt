//! Copies of what a session keeps but for the kept keys, made in place: a head has 4 KB, and is
//! copied for each text.

ghost use Rattle.std.specs.Prelude.{◌≡◌, ◌≤◌, [], length};
ghost use Rattle.session_model.specs.Seen.{own_seen, phase_seen, seen};
ghost use Rattle.session_model.specs.States.{in_own, in_peers};

use crate::awaiting::Awaiting;
use crate::part::{Head, Own, Phase, Reception, copy_of_key};
use arrayvec::ArrayVec;
use cka::{Agreement, PublicText, SecretText};
use dr_base::Key32;
use kem_laws::Kem;
use std::marker::PhantomData;

/// Makes room hold a copy of bytes, in place.
fn refill<const N: usize>(room: &mut ArrayVec<u8, N>, bytes: &[u8])
    requires { length bytes.now ≤ N }
    ensures { room.new.items ≡ bytes.now }
{
    room.clear();
    let _whole = room.try_extend_from_slice(bytes);
}

impl Own {
    /// Room for an own epoch, with nothing in it.
    fn blank() -> Own {
        Own {
            secret: SecretText::new(),
            agreement: Agreement::new(),
            chain: Key32 { bytes: [0; 32] },
            sent: 0,
        }
    }

    /// Becomes a copy of another, in place.
    fn copy_from(&mut self, from: &Own)
        ensures { own_seen self.new ≡ own_seen from.now }
    {
        refill(&mut self.secret, from.secret.as_slice());
        refill(&mut self.agreement, from.agreement.as_slice());
        self.chain.bytes = from.chain.bytes;
        self.sent = from.sent;
    }
}

impl Phase {
    /// Becomes a copy of an own epoch, where it is a peer's. A function of its own, so that its
    /// room is set only there.
    #[inline(never)]
    fn become_own(&mut self, own: &Own)
        ensures { phase_seen self.new ≡ in_own (own_seen own.now) }
    {
        *self = Phase::Own(Own::blank());
        if let Phase::Own(to) = self {
            to.copy_from(own);
        }
    }

    /// Becomes a copy of a peer's epoch, where it is an own one.
    #[inline(never)]
    fn become_peers(&mut self, public: &PublicText)
        ensures { phase_seen self.new ≡ in_peers public.now.items }
    {
        *self = Phase::Peers(PublicText::new());
        if let Phase::Peers(to) = self {
            refill(to, public.as_slice());
        }
    }

    /// Becomes a copy of another phase, in place.
    fn copy_from(&mut self, from: &Phase)
        ensures { phase_seen self.new ≡ phase_seen from.now }
    {
        match from {
            Phase::Own(own) => match self {
                Phase::Own(to) => to.copy_from(own),
                Phase::Peers(_) => self.become_own(own),
            },
            Phase::Peers(public) => match self {
                Phase::Own(_) => self.become_peers(public),
                Phase::Peers(to) => refill(to, public.as_slice()),
            },
        }
    }
}

/// A second copy of a reception, if there is one.
fn copy_of_reception(receiving: &Option<Reception>) -> Option<Reception>
    ensures { result ≡ receiving.now }
{
    match receiving {
        Some(reception) => Some(Reception {
            chain: copy_of_key(&reception.chain),
            reach: reception.reach,
        }),
        None => None,
    }
}

impl<K: Kem> Head<K> {
    /// Becomes a copy of another head, in place.
    pub fn copy_from(&mut self, from: &Head<K>)
        ensures { seen self.new [] ≡ seen from.now [] }
    {
        self.side = from.side;
        self.format = from.format;
        self.session = from.session;
        self.root = copy_of_key(&from.root);
        self.epoch = from.epoch;
        self.phase.copy_from(&from.phase);
        self.previous = from.previous;
        self.receiving = copy_of_reception(&from.receiving);
        self.awaiting.copy_from(&from.awaiting);
    }

    /// A second copy. Inlined, it is made where it stays.
    #[inline(always)]
    pub fn copied(&self) -> Head<K>
        ensures { seen result [] ≡ seen self.now [] }
    {
        let mut phase = Phase::Peers(PublicText::new());
        phase.copy_from(&self.phase);
        let mut awaiting = Awaiting::new();
        awaiting.copy_from(&self.awaiting);
        Head {
            side: self.side,
            format: self.format,
            session: self.session,
            root: copy_of_key(&self.root),
            epoch: self.epoch,
            phase,
            previous: self.previous,
            receiving: copy_of_reception(&self.receiving),
            awaiting,
            mechanism: PhantomData,
        }
    }
}
