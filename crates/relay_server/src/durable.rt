//! Boxes that stand on a disk.

ghost use Rattle.std.specs.Prelude.{◌≡◌, ◌≢◌, ◌<◌, ◌≤◌, ◌+◌, ◌^◌, ℕ, length, take, slice_get, Option, OnOk, IfOk, is_ok, [], Bool};
ghost use Rattle.dr_disk.specs.State.{Always};
ghost use Rattle.dr_disk.specs.Called.{Called, itself};
ghost use Rattle.dr_disk.specs.Spans.{IsQuiet, Span};
ghost use Rattle.slot_store.specs.Areas.{HasText};
ghost use Rattle.slot_store.specs.Stops.{calls_of};
ghost use Rattle.slot_store.specs.Store.{HasArea, Rests, SlotStore, content};
ghost use Rattle.relay_wire.specs.Frames.{IsFrame};
ghost use Rattle.relay_wire.specs.declared.limits.TheConstants.{FRAME_LIMIT};
ghost use Rattle.relay_server.specs.Durable.{FailsByCall, IsReplaced};
ghost use Rattle.relay_server.specs.declared.limits.TheConstants.{RECORD_PAGES};
ghost use Rattle.relay_server.specs.FrameByFrame.{IsServedInOrder};
ghost use Rattle.relay_server.specs.Places.{HasBoxMemory};
ghost use Rattle.relay_server.specs.Serving.{AnswersFrame, CanAnswer, LeavesCounts, Rounds};

use crate::answering::write_text;
use crate::serving::{Ended, Round, ServeFault};
use dr_disk::{Call, Disk};
use dr_ports::{Failed, Pipe};
use relay_core::laws::changes;
use relay_core::{Answered, EXCHANGE_LIMIT, Relay, answer_frame};
use relay_pipe::{pull, send_all};
use relay_wire::{Frame, FrameReader};
use slot_store::{SlotStore, locality, resting};
use std::marker::Model;

/// A relay's boxes, with a store for each. A contract sees both.
#[derive(Drop)]
pub struct DurableBoxes {
    pub(crate) relay: Relay,
    pub(crate) stores: Vec<SlotStore>,
    pub(crate) text: Vec<u8>,
}

impl Model for DurableBoxes {
    ghost use Rattle.relay_server.specs.Durable.{ServerNow};
    ghost use Rattle.relay_server.specs.Places.{HasBoxMemory};

    ghost Value = { ServerNow };

    ghost view = { λ s. record { boxes = s.relay; stores = s.stores.items } };

    ghost invariant = { λ s. HasBoxMemory s.text };
}

/// Replaces the record of one store by the first `len` bytes of a text, which gets the room of the
/// record before, with memory for any.
pub(crate) fn replace_at<D: Disk>(
    stores: &mut [SlotStore],
    place: usize,
    disk: &mut D,
    text: &mut Vec<u8>,
    len: usize,
) -> Result<(), Call>
    requires inside { place < length stores.old }
    requires ready { (store : SlotStore) → slice_get stores.old place ≡ Option.Some store
        → HasText store.area text.old len × HasArea store.area (D.state disk.old)
        × Always (Rests store) (D.state disk.old) × (store.area.most ≡ RECORD_PAGES) }
    ensures others { (j : ℕ) → j ≢ place → slice_get stores.new j ≡ slice_get stores.old j }
    ensures there { (old new : SlotStore) → slice_get stores.old place ≡ Option.Some old
        → slice_get stores.new place ≡ Option.Some new
        → IsReplaced (take len text.old.items) old new (D.state disk.old) (D.state disk.new)
        (is_ok result) }
    ensures count { length stores.new ≡ length stores.old }
    ensures room { HasBoxMemory text.new }
    ensures fault { FailsByCall (D.state disk.old) (D.state disk.new) result }
    ensures quiet { OnOk result (IsQuiet (D.state disk.old) (D.state disk.new)) }
    ensures calls { (store : SlotStore) → slice_get stores.old place ≡ Option.Some store
        → Called (calls_of (content store) (Option.Some (take len text.old.items))) itself
        (D.state disk.old) (D.state disk.new) result }
{
    match stores[place].replace(disk, text, len) {
        Ok(()) => Ok(()),
        Err(fault) => Err(fault.call),
    }
}

impl DurableBoxes {
    /// Answers one frame: what a reply says is on the disk before the reply is there. A box that
    /// changes costs the calls of one replacement, and a request that changes none costs no call. A
    /// guarded box changes by each request that it serves, a fetch too: its counter is on the disk
    /// before the reply is there.
    pub fn answer<D: Disk>(
        &mut self,
        disk: &mut D,
        frame: &Frame<'_>,
        out: &mut [u8],
    ) -> Result<Answered, Call>
        requires { CanAnswer self.old (D.state disk.old) out.old }
        ensures { AnswersFrame frame.now.bytes.now self.old self.new (D.state disk.old)
            (D.state disk.new) out.old out.new result }
    {
        locality();
        resting();
        changes();
        let answered = answer_frame(&mut self.relay, frame, out);
        if let Some(place) = answered.changed {
            let len = write_text(&self.relay, place, &mut self.text);
            if let Err(call) = replace_at(&mut self.stores, place, disk, &mut self.text, len) {
                return Err(call);
            }
        }
        Ok(answered)
    }

    // answers the frame that stands in the reader
    fn answer_next<D: Disk>(
        &mut self,
        disk: &mut D,
        reader: &mut FrameReader,
        out: &mut [u8],
    ) -> Result<Answered, Call>
        requires can { CanAnswer self.old (D.state disk.old) out.old }
        requires whole { IsFrame reader.old.bytes }
        ensures answers { AnswersFrame reader.old.bytes self.old self.new
            (D.state disk.old) (D.state disk.new) out.old out.new result }
        ensures given { reader.new.bytes ≡ [] }
        ensures place { reader.new.place ≡ reader.old.place + length reader.old.bytes }
    {
        match reader.next() {
            Some(frame) => self.answer(disk, &frame, out),
            None => unreachable!(),
        }
    }

    // one round: a frame is pulled and answered, and its reply sent
    fn round<D: Disk, P: Pipe>(
        &mut self,
        disk: &mut D,
        pipe: &mut P,
        reader: &mut FrameReader,
        out: &mut [u8],
    ) -> Result<Round, ServeFault>
        requires can { CanAnswer self.old (D.state disk.old) out.old }
        requires fresh { reader.old.bytes ≡ [] }
        requires ends { reader.old.place + FRAME_LIMIT < 2 ^ 64 }
        ensures rounds { Rounds self.old self.new (P.port pipe.old) (P.port pipe.new)
            (D.state disk.old) (D.state disk.new) result }
        ensures counts { LeavesCounts D.state P.port disk.old disk.new pipe.old pipe.new result }
        ensures fresh { IfOk result (λ r. (last : Bool) → r ≡ Round.Answered last
            → reader.new.bytes ≡ []) }
        ensures place { reader.new.place ≤ reader.old.place + FRAME_LIMIT }
    {
        match pull(reader, pipe) {
            Err(Failed) => return Err(ServeFault::Read),
            Ok(false) => return Ok(Round::AtEnd),
            Ok(true) => {}
        }
        let answered = match self.answer_next(disk, reader, out) {
            Err(call) => return Err(ServeFault::Store(call)),
            Ok(answered) => answered,
        };
        match send_all(pipe, &out[..answered.len]) {
            Err(Failed) => Err(ServeFault::Write),
            Ok(()) => Ok(Round::Answered(answered.last)),
        }
    }

    /// Serves a connection: answers its frames in order until it ends, until a frame had no lawful
    /// length, or until 65,536 frames were answered. A frame that the end cuts is dropped.
    pub fn serve<D: Disk, P: Pipe>(
        &mut self,
        disk: &mut D,
        pipe: &mut P,
        reader: &mut FrameReader,
        out: &mut [u8],
    ) -> Result<Ended, ServeFault>
        requires { CanAnswer self.old (D.state disk.old) out.old }
        ensures { IsServedInOrder D.state P.port self.old self.new disk.old disk.new
            pipe.old pipe.new result }
    {
        reader.clear();
        'rounds: for answered in 0..EXCHANGE_LIMIT as u32 {
            match self.round(disk, pipe, reader, out) {
                Err(fault) => return Err(fault),
                Ok(Round::AtEnd) => return Ok(Ended { answered }),
                Ok(Round::Answered(last)) => {
                    if last {
                        return Ok(Ended {
                            answered: answered + 1,
                        });
                    }
                }
            }
        }
        Ok(Ended {
            answered: EXCHANGE_LIMIT as u32,
        })
    }
}
