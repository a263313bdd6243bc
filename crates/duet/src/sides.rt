//! Both sides of a conversation, with the network between them.

ghost use Rattle.std.specs.Prelude.{◌≡◌, ◌-◌, ◌^◌, ◌<◌, None, true, IfOk, IsErrOf, IsNone, IsSome};
ghost use Rattle.dr_model.specs.Conversations.Formats.{Formats};
ghost use Rattle.dr_model.specs.Machines.Sides.{client_of, step_on};
ghost use Rattle.session_model.specs.Schedule.{agreement_seed};
ghost use Rattle.parties.specs.Acts.{IsChecked, act_of_call};
ghost use Rattle.duet.specs.Acts.{acted_by, alone_by};
ghost use Rattle.duet.specs.Held.{HasPostRoom, after_step, opening_duet, stepped};
ghost use Rattle.duet.specs.Shuts.{asks_open, shut_of};
ghost use Rattle.duet.specs.Tally.{both_reached};
ghost use Rattle.scripts.specs.Sides.{acting_side};

use crate::draws::Draws;
use crate::relaying::opening_relay;
use crate::tally::{SideTally, Tally};
use bodies::Format;
use client::Begin;
use dr_base::{Key32, Side};
use kem_laws::Kem;
use parties::{BeginError, ClientCall, Party, Post};
use relay_link::RelayLink;
use scripts::{Line, LineCall};
use session_model::{Answer, Items};
use std::alloc::Global;
use std::marker::Model;

/// Both sides. The network holds every packet that stood in an outbox, and the relay the boxes of
/// both, in memory.
#[derive(Drop)]
pub struct Duet<K: Kem> {
    pub(crate) key: Key32,
    pub(crate) first: Party<K>,
    pub(crate) second: Party<K>,
    pub(crate) posts: Vec<Post>,
    pub(crate) draws: Draws,
    pub(crate) relay: RelayLink,
}

impl<K: Kem> Model for Duet<K> {
    ghost use Rattle.std.specs.Prelude.{vec_capacity};
    ghost use Rattle.relay_link.specs.Connections.{boxes_now};
    ghost use Rattle.duet.specs.Held.{DuetNow, duet_now};

    ghost Value = { DuetNow };

    ghost view = { λ d. duet_now d.key.bytes d.first d.second d.posts.items d.draws (boxes_now d.relay) (vec_capacity d.posts) };
}

impl<K: Kem> Duet<K> {
    ghost use Rattle.scripts.specs.Seen.{call_event, event_of};

    /// Both sides before the first event, which seal their texts in these formats, the relay with
    /// their boxes, which it may guard, and room in the network for this many packets. It takes all
    /// memory that the events need.
    pub fn new(
        alloc: Global,
        first_format: Format,
        second_format: Format,
        key: &Key32,
        guarded: bool,
        room: usize,
    ) -> Result<Self, BeginError>
        ensures ok { let both : Formats = record { first = first_format; second = second_format } in
            IfOk result
            (λ duet. duet ≡ opening_duet K.mechanism key.now.bytes both guarded room) }
        ensures few { IfOk result (λ _. room < 2 ^ 32 - 1) }
        ensures pair { IfOk result
            (λ _. IsSome (K.mechanism.meaning.pair_of (agreement_seed key.now.bytes))) }
        ensures none { IsErrOf result BeginError.NoPair
            → IsNone (K.mechanism.meaning.pair_of (agreement_seed key.now.bytes)) }
    {
        // No memory has room for the packets of so many events.
        if room >= u32::MAX as usize {
            return Err(BeginError::Memory);
        }
        let Ok(posts) = Vec::with_capacity(alloc, room) else {
            return Err(BeginError::Memory);
        };
        let mut begin = Begin {
            side: Side::First,
            format: first_format,
            key: Key32 { bytes: key.bytes },
        };
        let first = match Party::begin(alloc, &begin) {
            Ok(first) => first,
            Err(error) => return Err(error),
        };
        let Ok(relay) = opening_relay(alloc, first.names(), key, guarded) else {
            return Err(BeginError::Memory);
        };
        begin.side = Side::Second;
        begin.format = second_format;
        match Party::begin(alloc, &begin) {
            Ok(second) => Ok(Duet {
                key: Key32 { bytes: key.bytes },
                first,
                second,
                posts,
                draws: Draws::new(),
                relay,
            }),
            Err(error) => Err(error),
        }
    }

    /// A side.
    pub fn party(&self, side: Side) -> &Party<K>
        ensures kept { result.now.kept ≡ client_of self.now.sides side }
        ensures shut { result.now.shut ≡ shut_of self.now.shuts side }
    {
        match side {
            Side::First => &self.first,
            Side::Second => &self.second,
        }
    }

    /// A side does an act.
    fn act_by(&mut self, side: Side, call: ClientCall<'_>) -> Answer
        requires open { shut_of self.old.shuts side ≡ None }
        requires checked { IsChecked (client_of self.old.sides side) (act_of_call call) }
        ensures answer { let act = act_of_call call.entry in
            result ≡ (alone_by K.mechanism self.old.sides side act).answer }
        ensures next { let act = act_of_call call.entry in
            self.new ≡ after_step self.old (alone_by K.mechanism self.old.sides side act) }
    {
        match side {
            Side::First => self.first.act(call),
            Side::Second => self.second.act(call),
        }
    }

    /// A side does an act, and the network gets the packet that it adds to its outbox.
    fn act(&mut self, side: Side, call: ClientCall<'_>) -> Answer
        requires room { HasPostRoom self.old }
        requires open { shut_of self.old.shuts side ≡ None }
        requires checked { IsChecked (client_of self.old.sides side) (act_of_call call) }
        ensures answer { let act = act_of_call call.entry in
            result ≡ (acted_by K.mechanism self.old.sides side act).answer }
        ensures next { let act = act_of_call call.entry in
            self.new ≡ after_step self.old (acted_by K.mechanism self.old.sides side act) }
    {
        let held = self.party(side).summary().outbox;
        let answer = self.act_by(side, call);
        self.gather(side, held);
        answer
    }

    /// A side does a call.
    fn call(&mut self, side: Side, call: LineCall<'_>) -> Answer
        requires room { HasPostRoom self.old }
        requires draws { self.old.sides.draws.made < 2 ^ 32 - 1 }
        requires open { shut_of self.old.shuts side ≡ None }
        ensures answer { let k = K.mechanism in
            result ≡ (step_on k self.old.sides (call_event side call.entry)).answer }
        ensures next { let k = K.mechanism in
            self.new ≡ stepped k self.old (call_event side call.entry) }
    {
        match self.prepared(side, call) {
            Ok(call) => self.act(side, call),
            Err(answer) => answer,
        }
    }

    /// A run in numbers, with how far each side has come.
    pub fn reached(&self, tally: Tally) -> Tally
        ensures { result ≡ both_reached self.now.sides tally }
    {
        let (first, second) = (self.first.summary(), self.second.summary());
        Tally {
            rounds: tally.rounds,
            first: SideTally {
                epoch: first.epoch,
                missing: first.missing,
                ..tally.first
            },
            second: SideTally {
                epoch: second.epoch,
                missing: second.missing,
                ..tally.second
            },
        }
    }

    /// One event that no stop cuts off. A look at texts is answered with how many they are.
    pub fn step(&mut self, line: &Line<'_>) -> Answer
        requires room { HasPostRoom self.old }
        requires draws { self.old.sides.draws.made < 2 ^ 32 - 1 }
        requires open { asks_open (event_of line.now) ≡ true
            → shut_of self.old.shuts (acting_side (event_of line.now)) ≡ None }
        ensures answer { let k = K.mechanism in
            result ≡ (step_on k self.old.sides (event_of line.now)).answer }
        ensures next { let k = K.mechanism in self.new ≡ stepped k self.old (event_of line.now) }
    {
        match line {
            Line::Seed(seed) => {
                self.draws.give(seed);
                Answer::Seeded
            }
            Line::Does(side, call) => self.call(*side, *call),
            Line::Inbox(side) => Answer::Inbox(self.party(*side).standing(Items::Texts)),
            Line::Awaiting(side) => Answer::Awaiting(self.party(*side).waiting()),
            Line::State(side) => Answer::State(self.party(*side).summary()),
        }
    }
}
