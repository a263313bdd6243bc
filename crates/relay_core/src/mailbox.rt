//! One box.

ghost use Rattle.std.specs.Prelude.{◌≡◌, ◌≤◌, length, IfOk};
ghost use Rattle.dr_base.specs.Buffer.{Puts};
ghost use Rattle.relay_core.specs.Boxes.{answer_in, answer_of, empty_box, is_full, oldest};
ghost use Rattle.relay_core.specs.Lawful.{IsLawfulBox};
ghost use Rattle.relay_core.specs.Rooms.{IsPlaceOf};
ghost use Rattle.relay_wire.specs.Frames.{framed};
ghost use Rattle.relay_wire.specs.Replies.{reply_body};
ghost use Rattle.relay_wire.specs.Requests.{posts, acks};
ghost use Rattle.relay_wire.specs.Seen.{asked_of, asking_of, replied_of};
ghost use Rattle.relay_wire.specs.declared.limits.TheConstants.{FRAME_LIMIT};

use crate::guarding::pass;
use crate::limits::BOX_LIMIT;
use crate::rooms::Rooms;
use crate::spec::BoxSpec;
use relay_guard::Guard;
use relay_wire::{Ask, Name, Packet, Reply, Request, write_reply};
use std::alloc::{AllocError, Global};
use std::marker::Model;

/// A box: its name, the last number that it gave, its packets, in memory that is taken when it is
/// made, and its guard, where it has one.
#[derive(Drop)]
pub(crate) struct Mailbox {
    pub(crate) name: Name,
    pub(crate) last: u64,
    pub(crate) packets: Rooms,
    pub(crate) guard: Option<Guard>,
}

impl Model for Mailbox {
    ghost use Rattle.relay_core.specs.Boxes.{Box};
    ghost use Rattle.relay_core.specs.Lawful.{IsLawfulBox};

    ghost Value = { Box };

    ghost view = { λ m. record {
      name = m.name;
      last = m.last;
      packets = m.packets;
      guard = m.guard;
    } };

    ghost invariant = { λ m. IsLawfulBox (record {
      name = m.name;
      last = m.last;
      packets = m.packets;
      guard = m.guard;
    }) };
}

impl Mailbox {
    /// An empty box by a spec, with all the memory that it will ever use.
    pub(crate) fn new(alloc: Global, spec: &BoxSpec) -> Result<Mailbox, AllocError>
        ensures { IfOk result (λ mailbox. mailbox ≡ empty_box spec.now) }
    {
        let packets = Rooms::new(alloc)?;
        let name = spec.name.copied();
        let _lawful = name.bytes();
        let guard = spec.guard();
        Ok(Mailbox {
            name,
            last: 0,
            packets,
            guard,
        })
    }

    /// What it has is lawful. It has no code: a caller that needs this calls it.
    pub(crate) fn lawful(&self)
        ensures { IsLawfulBox self.now }
    {
        let _name = &self.name;
    }

    /// Its name.
    pub(crate) fn name(&self) -> &Name
        ensures { result.now ≡ self.now.name }
    {
        &self.name
    }

    /// Whether it keeps no further packet.
    fn is_full(&self) -> bool
        ensures { result ≡ is_full self.now }
    {
        self.packets.len() >= BOX_LIMIT || self.last == u64::MAX
    }

    /// The place of the packet of a number.
    fn place_of(&self, number: u64) -> Option<usize>
        ensures { IsPlaceOf number self.now.packets result }
    {
        for place in 0..self.packets.len() {
            if self.packets.at(place).number() == number {
                return Some(place);
            }
        }
        None
    }

    /// The reply to a fetch.
    fn oldest(&self) -> Reply<'_>
        ensures { replied_of result ≡ oldest self.now.packets }
    {
        if self.packets.len() == 0 {
            return Reply::Empty;
        }
        let kept = self.packets.at(0);
        Reply::Item(kept.number(), kept.packet())
    }

    /// Answers a post, and says whether the box changed.
    #[tactic(auto, unfolding(crate::specs::Boxes::answer_of))]
    fn post<'a>(&mut self, packet: &Packet<'_>) -> (Reply<'a>, bool)
        ensures { answer_of self.old (posts packet.now.bytes)
            ≡ record { reply = replied_of result.0; next = self.new; changed = result.1 } }
    {
        if self.is_full() {
            return (Reply::BoxFull, false);
        }
        let number = self.last + 1;
        self.packets.push(number, packet.bytes());
        self.last = number;
        (Reply::Stored(number), true)
    }

    /// Answers an acknowledgement, and says whether the box changed.
    #[tactic(auto, unfolding(crate::specs::Boxes::answer_of))]
    fn acknowledge<'a>(&mut self, number: u64) -> (Reply<'a>, bool)
        ensures { answer_of self.old (acks number)
            ≡ record { reply = replied_of result.0; next = self.new; changed = result.1 } }
    {
        let Some(place) = self.place_of(number) else {
            return (Reply::Absent(number), false);
        };
        self.packets.remove(place);
        (Reply::Acked, true)
    }

    /// Answers what is asked of the box, whoever asks: writes the reply's frame at the beginning of
    /// `out`, and tells how many bytes that has, and whether the box changed.
    #[tactic(auto, unfolding(crate::specs::Boxes::answer_of))]
    fn serve(&mut self, ask: &Ask<'_>, out: &mut [u8]) -> (usize, bool)
        requires { FRAME_LIMIT ≤ length out.old }
        ensures next { self.new ≡ (answer_of self.old (asking_of ask.now)).next }
        ensures changed { result.1 ≡ (answer_of self.old (asking_of ask.now)).changed }
        ensures reply { Puts out.old out.new 0
            (framed (reply_body (answer_of self.old (asking_of ask.now)).reply)) result.0 }
    {
        match ask {
            Ask::Post(packet) => {
                let (reply, changed) = self.post(packet);
                (write_reply(&reply, out), changed)
            }
            Ask::Fetch => (write_reply(&self.oldest(), out), false),
            Ask::Ack(number) => {
                let (reply, changed) = self.acknowledge(*number);
                (write_reply(&reply, out), changed)
            }
        }
    }

    /// Answers a request: writes the reply's frame at the beginning of `out`, and tells how many
    /// bytes that has, and whether the box changed. A guarded box serves only whom its guard lets
    /// through, and has changed then, since the guard keeps the counter.
    #[tactic(auto, unfolding(crate::specs::Boxes::answer_in))]
    pub(crate) fn answer(&mut self, request: &Request<'_>, out: &mut [u8]) -> (usize, bool)
        requires { FRAME_LIMIT ≤ length out.old }
        ensures next { self.new ≡ (answer_in self.old (asked_of request.now)).next }
        ensures changed { result.1 ≡ (answer_in self.old (asked_of request.now)).changed }
        ensures reply { Puts out.old out.new 0
            (framed (reply_body (answer_in self.old (asked_of request.now)).reply)) result.0 }
    {
        match pass(&mut self.guard, request) {
            Err(denied) => (write_reply(&Reply::Denied(denied), out), false),
            Ok(guarded) => {
                let (size, changed) = self.serve(&request.ask, out);
                (size, guarded || changed)
            }
        }
    }
}
