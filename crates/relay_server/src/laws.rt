//! The laws of what a crash leaves, of opening after it, of the counters that guarded boxes serve,
//! of disks of lower halves alone, and of this crate's limits. The functions have no code: a caller
//! that needs a fact calls them.

ghost use Rattle.std.specs.Prelude.{◌≡◌, List, Option, Result, length, slice_get, ℕ};
ghost use Rattle.dr_disk.specs.State.{Always};
ghost use Rattle.relay_core.specs.Boxes.{Box, box_of};
ghost use Rattle.relay_core.specs.Counters.{RiseIn};
ghost use Rattle.relay_core.specs.declared.spec.BoxSpec.{BoxSpec};
ghost use Rattle.relay_guard.specs.declared.guard.Role.{Role};
ghost use Rattle.relay_server.specs.FrameByFrame.{IsMoment, IsServedInOrder, StandsForSent};
ghost use Rattle.relay_server.specs.Lives.{GoesOn, Session, StandsForPast, boxes_past_all, counters_over};
ghost use Rattle.relay_server.specs.Durable.{IsServerReady, ServerNow};
ghost use Rattle.relay_server.specs.LowerHalves.{ReadsLowerHalves};
ghost use Rattle.relay_server.specs.Opening.{IsOpening};
ghost use Rattle.relay_server.specs.Reading.{AreUndamaged, KeepsUndamaged, StandsForBoxes};
ghost use Rattle.relay_server.specs.Reopening.{OpensAgain, ReadsBoxes, StaysUndamaged, specs_of_boxes};
ghost use Rattle.relay_server.specs.Serving.{Reached, StandsForPart};
ghost use Rattle.relay_server.specs.declared.serving.Ended.{Ended};
ghost use Rattle.relay_server.specs.declared.serving.ServeFault.{ServeFault};

pub use crate::limits::limits_in_numbers;
use dr_disk::Disk;
use dr_ports::Pipe;
use slot_store::{resting, widening};

/// Each image during a connection has, box by box, the box as the connection found it, after its
/// own requests in a beginning of the frames that came.
///
/// At a moment at which the replies to the first n frames were sent whole, and no other, this is
/// the box after its own accepted requests among these n frames, or among the first n + 1. A
/// guarded box has accepted each request that it served, whatever the reply.
pub fn crashes<D: Disk, P: Pipe>()
    ensures whenever { (boxes : List Box) (got c : List ℕ) → Reached boxes got c
        → StandsForPart boxes got c }
    ensures moment { (boxes : List Box) (start : D) (from : P) (frames : List (List ℕ)) (c : List ℕ)
        →
        IsMoment D.state P.port boxes start from frames c → StandsForSent boxes frames c }
{
    resting();
}

/// No crash leaves damage: over connections, failing calls, crashes and openings in any order, where
/// each area is read without damage in each image of the first moment, it is so at every moment.
/// What lies between two moments is what the calls' clauses say of crashes: an opening leaves no
/// area damaged that wasn't, and a connection none at all.
pub fn stays_undamaged<D: Disk>(moments: &[D])
    ensures opening { (specs : List BoxSpec) (start : D) (c : List ℕ)
        → IsOpening specs (D.state start) c
        → KeepsUndamaged (length specs) (D.state start) c }
    ensures serving { (boxes : List Box) (got c : List ℕ) → Reached boxes got c
        → AreUndamaged (length boxes) c }
    ensures moments { (count n : ℕ) (a : D) → StaysUndamaged D.state count moments.now
        → slice_get moments.now n ≡ Option.Some a → Always (AreUndamaged count) (D.state a) }
{}

/// Boxes that stand are opened again. They stand in each image of a disk at rest, and in what a
/// crash leaves of a connection, or of an opening of a disk on which they stood. Where a read gives
/// them, an opening has just these boxes, and is refused only for want of memory, or where a call
/// on the disk failed.
pub fn opens_again<D: Disk>(before: &D, after: &D)
    ensures at_rest { (server : ServerNow) → IsServerReady server (D.state before.now)
        → Always (StandsForBoxes server.boxes) (D.state before.now) }
    ensures opening { (boxes : List Box) (c : List ℕ)
        → Always (StandsForBoxes boxes) (D.state before.now)
        → IsOpening (specs_of_boxes boxes) (D.state before.now) c → StandsForBoxes boxes c }
    ensures opens { (boxes : List Box) → ReadsBoxes boxes (D.state before.now)
        → OpensAgain boxes (D.state before.now) (D.state after.now) }
{
    resting();
}

/// Of the requests that a guarded box answered as served under one of its keys, all counters differ
/// and rise: over connections one after the other, from above the last one that its guard had to
/// the one that it has then.
///
/// A connection leaves the boxes past the frames whose replies were sent whole, or past one frame
/// more. That is so where it ended, and where a crash cut it: what that leaves stands for such
/// boxes, and with these a server is opened again.
pub fn counters_rise<D: Disk, P: Pipe>()
    ensures rise { (role : Role) (name : List ℕ) (boxes : List Box) (sessions : List Session)
        → RiseIn role (box_of name boxes) (box_of name (boxes_past_all boxes sessions))
        (counters_over role name boxes sessions) }
    ensures connection { (old new : ServerNow) (start now : D) (from door : P)
        (result : Result Ended ServeFault)
        → IsServedInOrder D.state P.port old new start now from door result
        → GoesOn D.state P.port old.boxes new.boxes start from }
    ensures crash { (boxes : List Box) (start : D) (from : P) (sent : List (List ℕ)) (c : List ℕ)
        → IsMoment D.state P.port boxes start from sent c → StandsForPast boxes sent c }
{
    resting();
}

/// A disk that ends with the lower halves, and on which each record has pages of these alone, reads
/// as before once it has the size that has room for the upper ones.
pub fn lower_halves()
    ensures { ReadsLowerHalves }
{
    widening();
}
