//! Both sides, one of which has a disk that fails once in a call, and opens again.

ghost use Rattle.std.specs.Prelude.{◌≡◌, ◌≤◌, ◌-◌, ◌^◌, ◌<◌, None, IfOk, IfSome, IsSome, option_map};
ghost use Rattle.dr_model.specs.Machines.Sides.{client_of, with_client};
ghost use Rattle.parties.specs.Acts.{IsChecked, act_of_call};
ghost use Rattle.duet.specs.Failing.{FailsGathering, FailsOn, FailsSides};
ghost use Rattle.duet.specs.Held.{HasPostRoom, after_deed, beside};
ghost use Rattle.duet.specs.Outcomes.{barring, freely_on};
ghost use Rattle.duet.specs.Shuts.{needs_open, shut_of, with_shut};
ghost use Rattle.scripts.specs.Deeds.{reopens};
ghost use Rattle.scripts.specs.Lined.{lined_deed};
ghost use Rattle.scripts.specs.Seen.{call_event};

use crate::sides::Duet;
use dr_base::Side;
use dr_disk::Call;
use kem_laws::Kem;
use parties::ClientCall;
use scripts::{Failure, Line, Lined};
use session_model::Answer;
use std::alloc::{AllocError, Global};

/// Whether a line asks for an open client.
fn needs_open(line: &Lined<'_>) -> bool
    ensures { result ≡ needs_open (lined_deed line.now) }
{
    match line {
        Lined::Plain(Line::Does(_, _)) => true,
        Lined::Plain(Line::Awaiting(_)) => true,
        Lined::Plain(_) => false,
        Lined::Opening(_) => false,
        _ => true,
    }
}

impl<K: Kem> Duet<K> {
    /// The kind of the call that closed the client that a line asks for, if it is closed.
    #[tactic(auto, unfolding(crate::specs::Outcomes::barring))]
    pub fn barred_by(&self, line: &Lined<'_>) -> Option<Call>
        ensures { result ≡ option_map (λ shut. shut.call) (barring self.now.shuts (lined_deed line.now)) }
    {
        if needs_open(line) {
            return self.party(line.side()).closed_by();
        }
        None
    }

    /// A side does an act, in which its disk fails.
    fn failed(&mut self, side: Side, at: u32, call: ClientCall<'_>) -> Result<Answer, Call>
        requires open { shut_of self.old.shuts side ≡ None }
        requires checked { IsChecked (client_of self.old.sides side) (act_of_call call) }
        requires counted { 1 ≤ at }
        ensures { let act = act_of_call call.entry in
            FailsSides K.mechanism side at act self.old self.new result }
    {
        match side {
            Side::First => self.first.failed(at, call),
            Side::Second => self.second.failed(at, call),
        }
    }

    /// A side does an act, in which its disk fails, and the network gets the packet that it adds
    /// to its outbox.
    fn act_failed(&mut self, side: Side, at: u32, call: ClientCall<'_>) -> Result<Answer, Call>
        requires room { HasPostRoom self.old }
        requires open { shut_of self.old.shuts side ≡ None }
        requires checked { IsChecked (client_of self.old.sides side) (act_of_call call) }
        requires counted { 1 ≤ at }
        ensures { let act = act_of_call call.entry in
            FailsGathering K.mechanism side at act self.old self.new result }
    {
        let held = self.party(side).summary().outbox;
        let ended = self.failed(side, at, call);
        self.gather(side, held);
        ended
    }

    /// One call, in which the disk of its side fails. Where the call makes so many writes and syncs,
    /// the side is closed by the one that fails, whose kind is given.
    pub fn fail(&mut self, failure: &Failure<'_>) -> Result<Answer, Call>
        requires room { HasPostRoom self.old }
        requires draws { self.old.sides.draws.made < 2 ^ 32 - 1 }
        requires open { shut_of self.old.shuts failure.now.side ≡ None }
        ensures { let event = call_event failure.now.side failure.now.call in
            FailsOn K.mechanism failure.now.at event self.old self.new result }
    {
        match self.prepared(failure.side, failure.call) {
            Ok(call) => self.act_failed(failure.side, failure.at, call),
            Err(answer) => Ok(answer),
        }
    }

    /// A side's closed client opens again.
    fn opened(self, alloc: Global, side: Side) -> Result<Self, AllocError>
        requires { IsSome (shut_of self.shuts side) }
        ensures { IfOk result (λ duet. IfSome (shut_of self.shuts side) (λ shut.
            duet ≡ record self {
              sides = with_client self.sides side shut.left;
              shuts = with_shut self.shuts side None;
            })) }
    {
        let Duet {
            key,
            first,
            second,
            posts,
            draws,
            relay,
        } = self;
        let (closed, other) = match side {
            Side::First => (first, second),
            Side::Second => (second, first),
        };
        let opened = match closed.opened(alloc) {
            Ok(opened) => opened,
            Err(AllocError) => return Err(AllocError),
        };
        let (first, second) = match side {
            Side::First => (opened, other),
            Side::Second => (other, opened),
        };
        Ok(Duet {
            key,
            first,
            second,
            posts,
            draws,
            relay,
        })
    }

    /// A side's closed client opens again, and the network gets the packet that its outbox has more.
    pub fn reopen(self, alloc: Global, side: Side) -> Result<Self, AllocError>
        requires room { HasPostRoom self }
        requires closed { IsSome (shut_of self.shuts side) }
        ensures { IfOk result (λ duet. duet
            ≡ after_deed self (freely_on K.mechanism (beside self) (reopens side))) }
    {
        let held = self.party(side).summary().outbox;
        match self.opened(alloc, side) {
            Ok(duet) => {
                let mut duet = duet;
                duet.gather_newest(side, held);
                Ok(duet)
            }
            Err(AllocError) => Err(AllocError),
        }
    }
}
