//! A link to a relay in memory.

ghost use Rattle.std.specs.Prelude.{◌≡◌, ◌↔◌, ◌-◌, ◌≤◌, min, length, map, IfOk, IsErr};
ghost use Rattle.dr_ports.specs.Calls.{Receives, Sends};
ghost use Rattle.relay_core.specs.Boxes.{empty_box};
ghost use Rattle.relay_link.specs.Connections.{Behind, HasLost, IsLawfulConnection, behind_of, boxes_now, replies_coming, fresh_connection, connection_is_ahead, kept_before, connection_port};
ghost use Rattle.relay_link.specs.declared.limits.TheConstants.{REPLY_LIMIT, SENT_LIMIT};

use crate::desk::Desk;
use crate::limits::{REPLY_LIMIT, SENT_LIMIT};
use dr_base::put;
use dr_ports::{Failed, Pipe};
use relay_core::{BoxSpec, Relay};
use relay_wire::FrameReader;
use std::alloc::{AllocError, Global};
use std::marker::Model;
use std::snapshot::Snapshot;

/// A link to a relay in memory. A contract sees one connection, which stands from the beginning on:
/// what was sent and received on it, and the relay's boxes as it began.
///
/// The relay answers each frame as soon as it is whole. This many of its replies come, and after
/// them the link fails.
#[derive(Drop)]
pub struct RelayLink {
    desk: Desk,
    reader: FrameReader,
    start: Snapshot<Relay>,
    sent: Vec<u8>,
    at: usize,
    faults: u64,
}

impl Model for RelayLink {
    ghost use Rattle.std.specs.Prelude.{◌≡◌, ◌≤◌, ◌+◌, length, vec_len, vec_capacity};
    ghost use Rattle.relay_link.specs.Connections.{LinkConnection};
    ghost use Rattle.relay_link.specs.Serving.{IsServing};
    ghost use Rattle.relay_link.specs.declared.limits.TheConstants.{SENT_LIMIT};

    ghost Value = { LinkConnection };

    ghost view = { λ l. record { start = l.start.value; kept = l.desk.kept; sent = l.sent.items; at = l.at; faults = l.faults } };

    ghost invariant = { λ l. IsServing (record { start = l.start.value; kept = l.desk.kept; sent = l.sent.items; at = l.at; faults = l.faults }) l.desk l.reader.bytes
        × (vec_len l.sent ≤ SENT_LIMIT) × (SENT_LIMIT ≤ vec_capacity l.sent)
        × (l.reader.place + length l.reader.bytes ≡ vec_len l.sent) };
}

/// How many replies come before the lost one.
fn kept_before(lost: Option<u32>) -> usize
    ensures exact { result ≡ kept_before lost }
    ensures most { result ≤ REPLY_LIMIT }
{
    match lost {
        None => REPLY_LIMIT,
        Some(lost) => REPLY_LIMIT.min(lost.saturating_sub(1) as usize),
    }
}

impl RelayLink {
    /// A link to a relay with empty boxes by these specs, on which no reply is lost. A relay has up
    /// to 16, no two of one name.
    pub fn new(alloc: Global, specs: &[BoxSpec]) -> Result<RelayLink, AllocError>
        ensures { IfOk result
            (λ link. link ≡ fresh_connection REPLY_LIMIT (map empty_box specs.now)) }
    {
        let desk = Desk::new(alloc, specs)?;
        Ok(RelayLink {
            start: Snapshot::of(desk.relay()),
            desk,
            reader: FrameReader::new(alloc)?,
            sent: Vec::with_capacity(alloc, SENT_LIMIT)?,
            at: 0,
            faults: 0,
        })
    }

    /// Begins another connection, on the boxes as they stand. The reply to the request of this
    /// number, from 1, is lost, and with it the link; without one no reply is lost. Faults are
    /// counted anew.
    pub fn connect(&mut self, lost: Option<u32>)
        ensures { self.new ≡ fresh_connection (kept_before lost) (boxes_now self.old) }
    {
        self.start = Snapshot::of(self.desk.relay());
        self.desk.begin(kept_before(lost));
        self.reader.clear();
        self.sent.clear();
        self.at = 0;
        self.faults = 0;
    }

    /// The relay, with its boxes as they stand.
    pub fn relay(&self) -> &Relay
        ensures boxes { result.now ≡ boxes_now self.now }
        ensures lawful { IsLawfulConnection self.now }
    {
        self.desk.relay()
    }
}

impl Pipe for RelayLink {
    ghost port = { connection_port };

    ghost Behind = { Behind };

    ghost behind = { λ l. behind_of l };

    ghost ahead = { λ l. connection_is_ahead l };

    fn receive(&mut self, into: &mut [u8]) -> Result<usize, Failed>
        ensures receives { Receives (connection_port self.old) (connection_port self.new) (behind_of self.old)
            (behind_of self.new) into.old into.new result }
        ensures exact { IsErr result
            ↔ (HasLost self.old × (self.old.at ≡ length (replies_coming self.old))) }
        ensures most { IfOk result
            (λ count. count ≡ min (length into.old) (length (replies_coming self.old) - self.old.at)) }
        ensures stays { self.new ≡ record self.old { at = self.new.at; faults = self.new.faults } }
    {
        let left = self.desk.replies().len() - self.at;
        if left == 0 && self.desk.has_lost() {
            self.faults = self.faults.saturating_add(1);
            return Err(Failed);
        }
        let count = into.len().min(left);
        put(into, 0, &self.desk.replies()[self.at..self.at + count]);
        self.at += count;
        Ok(count)
    }

    fn send(&mut self, bytes: &[u8]) -> Result<usize, Failed>
        ensures sends { Sends (connection_port self.old) (connection_port self.new) (behind_of self.old)
            (behind_of self.new) bytes.now result }
        ensures exact { IsErr result ↔ (length self.old.sent ≡ SENT_LIMIT) }
        ensures stays { self.new
            ≡ record self.old { sent = self.new.sent; faults = self.new.faults } }
    {
        let free = SENT_LIMIT - self.sent.len();
        if free == 0 {
            self.faults = self.faults.saturating_add(1);
            return Err(Failed);
        }
        let count = self.reader.feed(&bytes[..bytes.len().min(free)]);
        self.sent.extend_from_slice(&bytes[..count]).unwrap();
        self.desk.answer_next(&mut self.reader);
        Ok(count)
    }
}
