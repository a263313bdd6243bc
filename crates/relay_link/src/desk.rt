//! The relay, and what it replied on one connection.

ghost use Rattle.std.specs.Prelude.{◌≡◌, ◌+◌, ◌*◌, ◌≤◌, ◌<◌, [], ◌++◌, length, map, nat_lt, take, IfOk};
ghost use Rattle.relay_core.specs.Boxes.{empty_box};
ghost use Rattle.relay_core.specs.declared.limits.TheConstants.{EXCHANGE_LIMIT};
ghost use Rattle.relay_link.specs.Desks.{HasAnswered, after_frame, fresh_desk};
ghost use Rattle.relay_link.specs.declared.limits.TheConstants.{REPLY_LIMIT};

use crate::limits::REPLY_LIMIT;
use relay_core::{BoxSpec, EXCHANGE_LIMIT, Relay, answer_frame};
use relay_wire::{FRAME_LIMIT, Frame, FrameReader};
use std::alloc::{AllocError, Global};
use std::marker::Model;

/// A relay that answers the frames of one connection, and keeps the replies that come.
#[derive(Drop)]
pub(crate) struct Desk {
    relay: Relay,
    replies: Vec<u8>,
    kept: usize,
    answered: usize,
    left: usize,
    room: Vec<u8>,
}

impl Model for Desk {
    ghost use Rattle.std.specs.Prelude.{◌≡◌, ◌+◌, ◌*◌, ◌≤◌, length, min, vec_len, vec_capacity};
    ghost use Rattle.relay_core.specs.declared.limits.TheConstants.{EXCHANGE_LIMIT};
    ghost use Rattle.relay_wire.specs.declared.limits.TheConstants.{FRAME_LIMIT};
    ghost use Rattle.relay_link.specs.Desks.{DeskNow};
    ghost use Rattle.relay_link.specs.declared.limits.TheConstants.{REPLY_LIMIT};

    ghost Value = { DeskNow };

    ghost view = { λ d. record {
      boxes = d.relay;
      replies = d.replies.items;
      kept = d.kept;
      answered = d.answered;
      left = d.left;
    } };

    ghost invariant = { λ d. (length d.room.items ≡ FRAME_LIMIT) × (d.kept ≤ REPLY_LIMIT)
        × (d.answered + d.left ≤ EXCHANGE_LIMIT)
        × (vec_len d.replies ≤ min d.answered d.kept * FRAME_LIMIT)
        × (REPLY_LIMIT * FRAME_LIMIT ≤ vec_capacity d.replies) };
}

impl Desk {
    /// The desk of a relay with empty boxes by these specs, before its first connection's first
    /// frame.
    pub(crate) fn new(alloc: Global, specs: &[BoxSpec]) -> Result<Desk, AllocError>
        ensures { IfOk result
            (λ desk. desk ≡ fresh_desk REPLY_LIMIT (map empty_box specs.now)) }
    {
        Ok(Desk {
            relay: Relay::new(alloc, specs)?,
            replies: Vec::with_capacity(alloc, REPLY_LIMIT * FRAME_LIMIT)?,
            kept: REPLY_LIMIT,
            answered: 0,
            left: EXCHANGE_LIMIT,
            room: vec![in alloc; 0; FRAME_LIMIT]?,
        })
    }

    /// Begins another connection on the boxes as they stand, on which this many replies come.
    pub(crate) fn begin(&mut self, kept: usize)
        requires { kept ≤ REPLY_LIMIT }
        ensures { self.new ≡ fresh_desk kept self.old.boxes }
    {
        self.replies.clear();
        self.kept = kept;
        self.answered = 0;
        self.left = EXCHANGE_LIMIT;
    }

    /// The relay.
    pub(crate) fn relay(&self) -> &Relay
        ensures { result.now ≡ self.now.boxes }
    {
        &self.relay
    }

    /// The replies that come, in bytes.
    pub(crate) fn replies(&self) -> &[u8]
        ensures { result.now ≡ self.now.replies }
    {
        self.replies.as_slice()
    }

    /// Whether a reply was lost.
    pub(crate) fn has_lost(&self) -> bool
        ensures { result ≡ nat_lt self.now.kept self.now.answered }
    {
        self.answered > self.kept
    }

    /// Answers a frame.
    pub(crate) fn answer(&mut self, frame: &Frame<'_>)
        ensures { self.new ≡ after_frame self.old frame.now.bytes.now }
    {
        if self.left == 0 {
            return;
        }
        let answered = answer_frame(&mut self.relay, frame, &mut self.room);
        if self.answered < self.kept {
            self.replies
                .extend_from_slice(&self.room[..answered.len])
                .unwrap();
        }
        self.answered += 1;
        self.left = if answered.last { 0 } else { self.left - 1 };
    }

    /// Answers the frame that stands in a reader, if one is whole.
    pub(crate) fn answer_next(&mut self, reader: &mut FrameReader)
        ensures { HasAnswered self.old self.new reader.old reader.new }
    {
        match reader.next() {
            None => {}
            Some(frame) => self.answer(&frame),
        }
    }
}
