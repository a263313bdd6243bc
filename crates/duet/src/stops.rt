//! Both sides, one of which has a disk that stops in a call.

ghost use Rattle.std.specs.Prelude.{◌≡◌, ◌-◌, ◌^◌, ◌<◌, None, IfOk};
ghost use Rattle.dr_model.specs.Machines.Acts.{act_on};
ghost use Rattle.dr_model.specs.Machines.Sides.{client_of, step_on};
ghost use Rattle.dr_model.specs.Machines.Steps.{settled};
ghost use Rattle.parties.specs.Acts.{IsChecked, act_of_call};
ghost use Rattle.duet.specs.Gathering.{gathering, on_side};
ghost use Rattle.duet.specs.Held.{HasPostRoom, after_step, stepped};
ghost use Rattle.duet.specs.Shuts.{shut_of};
ghost use Rattle.parties.specs.Stops.{stopped_client};
ghost use Rattle.duet.specs.Stops.{stopped_on};
ghost use Rattle.scripts.specs.Seen.{call_event};

use crate::sides::Duet;
use dr_base::Side;
use dr_disk::Mode;
use kem_laws::Kem;
use parties::ClientCall;
use scripts::Stop;
use session_model::Answer;
use std::alloc::{AllocError, Global};

impl<K: Kem> Duet<K> {
    /// A side does an act, in which its disk stops.
    fn stopped(
        self,
        alloc: Global,
        side: Side,
        stops: (u32, Mode),
        call: ClientCall<'_>,
    ) -> Result<(Self, Answer), AllocError>
        requires open { shut_of self.shuts side ≡ None }
        requires checked { IsChecked (client_of self.sides side) (act_of_call call) }
        ensures { let c = client_of self.sides side in
            let step = settled c (act_on K.mechanism c (act_of_call call.entry)) in
            let made = on_side self.sides side (stopped_client stops.0 stops.1 c step) in
            IfOk result (λ pair. (pair.1 ≡ made.answer) × (pair.0 ≡ after_step self made)) }
    {
        let Duet {
            key,
            first,
            second,
            posts,
            draws,
            relay,
        } = self;
        let (stopping, other) = match side {
            Side::First => (first, second),
            Side::Second => (second, first),
        };
        let (stopped, answer) = match stopping.stopped(alloc, stops.0, stops.1, call) {
            Ok(pair) => pair,
            Err(AllocError) => return Err(AllocError),
        };
        let (first, second) = match side {
            Side::First => (stopped, other),
            Side::Second => (other, stopped),
        };
        let duet = Duet {
            key,
            first,
            second,
            posts,
            draws,
            relay,
        };
        Ok((duet, answer))
    }

    /// A side does an act, in which its disk stops, and the network gets the packet that it adds
    /// to its outbox.
    fn act_stopped(
        self,
        alloc: Global,
        side: Side,
        stops: (u32, Mode),
        call: ClientCall<'_>,
    ) -> Result<(Self, Answer), AllocError>
        requires room { HasPostRoom self }
        requires open { shut_of self.shuts side ≡ None }
        requires checked { IsChecked (client_of self.sides side) (act_of_call call) }
        ensures { let c = client_of self.sides side in
            let step = settled c (act_on K.mechanism c (act_of_call call.entry)) in
            let made = gathering self.sides side (stopped_client stops.0 stops.1 c step) in
            IfOk result (λ pair. (pair.1 ≡ made.answer) × (pair.0 ≡ after_step self made)) }
    {
        let held = self.party(side).summary().outbox;
        match self.stopped(alloc, side, stops, call) {
            Ok((duet, answer)) => {
                let mut duet = duet;
                duet.gather(side, held);
                Ok((duet, answer))
            }
            Err(AllocError) => Err(AllocError),
        }
    }

    /// One call, on a disk that stops. After the stop the disk crashes, and the side is opened
    /// again.
    pub fn stop(self, alloc: Global, stop: &Stop<'_>) -> Result<(Self, Answer), AllocError>
        requires room { HasPostRoom self }
        requires draws { self.sides.draws.made < 2 ^ 32 - 1 }
        requires open { shut_of self.shuts stop.now.side ≡ None }
        ensures { let k = K.mechanism in let call = call_event stop.now.side stop.now.call in
            let event = stopped_on k self.sides stop.now.after stop.now.mode call in
            IfOk result (λ pair. (pair.1 ≡ (step_on k self.sides event).answer)
            × (pair.0 ≡ stepped k self event)) }
    {
        let mut duet = self;
        match duet.prepared(stop.side, stop.call) {
            Ok(call) => duet.act_stopped(alloc, stop.side, (stop.after, stop.mode), call),
            Err(answer) => Ok((duet, answer)),
        }
    }
}
