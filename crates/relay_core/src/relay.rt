//! All boxes of a relay.

ghost use Rattle.std.specs.Prelude.{◌≡◌, ◌≤◌, length, map, All, IfOk};
ghost use Rattle.dr_base.specs.Buffer.{Puts};
ghost use Rattle.relay_core.specs.Boxes.{IsPlaced, answers_of, empty_box};
ghost use Rattle.relay_core.specs.Lawful.{IsLawfulBox};
ghost use Rattle.relay_wire.specs.Frames.{framed};
ghost use Rattle.relay_wire.specs.Replies.{reply_body};
ghost use Rattle.relay_wire.specs.Seen.{asked_of};
ghost use Rattle.relay_wire.specs.declared.limits.TheConstants.{FRAME_LIMIT};

use crate::mailbox::Mailbox;
use crate::spec::BoxSpec;
use relay_wire::{Reply, Request, write_reply};
use std::alloc::{AllocError, Global};
use std::marker::Model;

/// The boxes of a relay, in the order of the specs that it was made by. A contract sees the list
/// of them.
///
/// Each has room for `BOX_LIMIT` packets of `PACKET_LIMIT` bytes, taken when the relay is made.
#[derive(Drop)]
pub struct Relay {
    pub(crate) boxes: Vec<Mailbox>,
}

impl Model for Relay {
    ghost use Rattle.std.specs.Prelude.{List};
    ghost use Rattle.relay_core.specs.Boxes.{Box};

    ghost Value = { List Box };

    ghost view = { λ r. r.boxes.items };
}

impl Relay {
    /// Empty boxes by these specs, with all the memory that they will ever use. A relay has up to
    /// `RELAY_LIMIT`, no two of one name.
    pub fn new(alloc: Global, specs: &[BoxSpec]) -> Result<Relay, AllocError>
        ensures { IfOk result (λ relay. relay ≡ map empty_box specs.now) }
    {
        let mut boxes = Vec::new(alloc);
        for spec in specs {
            boxes.push(Mailbox::new(alloc, spec)?)?;
        }
        Ok(Relay { boxes })
    }

    /// Its boxes are lawful. A caller that needs this calls it.
    pub fn lawful(&self)
        ensures { All IsLawfulBox self.now }
    {
        for mailbox in &self.boxes {
            mailbox.lawful();
        }
    }

    /// The place of the first box of a name.
    fn place_of(&self, name: &[u8]) -> Option<usize>
        ensures { IsPlaced name.now self.now result }
    {
        for (place, mailbox) in self.boxes.iter().enumerate() {
            if mailbox.name().bytes() == name {
                return Some(place);
            }
        }
        None
    }

    /// Answers a request: writes the reply's frame at the beginning of `out`, and tells how many
    /// bytes that has, and the place of the box that changed. A box without a guard changed exactly
    /// where the reply is Stored or Acked, and a guarded one exactly where the reply isn't Denied:
    /// it keeps the counter of each request that it served.
    pub fn answer(&mut self, request: &Request<'_>, out: &mut [u8]) -> (usize, Option<usize>)
        requires { FRAME_LIMIT ≤ length out.old }
        ensures next { self.new ≡ (answers_of self.old (asked_of request.now)).next }
        ensures changed { result.1 ≡ (answers_of self.old (asked_of request.now)).changed }
        ensures reply { Puts out.old out.new 0
            (framed (reply_body (answers_of self.old (asked_of request.now)).reply)) result.0 }
    {
        let Some(place) = self.place_of(request.name.bytes()) else {
            return (write_reply(&Reply::Unknown, out), None);
        };
        let mailbox = &mut self.boxes[place];
        let (size, changed) = mailbox.answer(request, out);
        (size, if changed { Some(place) } else { None })
    }
}
