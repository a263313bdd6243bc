//! The long texts of an inbox, and the parts of those that are said.

ghost use Rattle.std.specs.Prelude.{◌≡◌, ℕ, List, Option, IfOk, OnOk};
ghost use Rattle.boxes.specs.Parts.{IsPart, part_text};
ghost use Rattle.dr_base.specs.declared.position.Side.{Side};
ghost use Rattle.dr_model.specs.Machines.Acts.{saying};
ghost use Rattle.dr_model.specs.Machines.WorldActs.{act_in};
ghost use Rattle.dr_model.specs.Machines.Worlds.{World};
ghost use Rattle.long_text.specs.Longs.{long_of};
ghost use Rattle.long_text.specs.Seen.{Fills};
ghost use Rattle.session_model.specs.Contents.{part_content};
ghost use Rattle.client.specs.Clients.{IsOpenOn, MayActOn};
ghost use Rattle.client.specs.InWorlds.{IsIn};
ghost use Rattle.client.specs.Outcomes.{StaysPassing, said_as};
ghost use Rattle.client.specs.Saying.{IsSeedDrawn, SaysIn, SaysWithDraw};
ghost use Rattle.client.specs.Spent.{IsSpent};

use crate::client::Client;
use crate::refusals::SayRefusal;
use crate::saying::say;
use boxes::{PART_KIND, Part, put_part};
use dr_base::{Position, TEXT_LIMIT};
use dr_disk::Disk;
use dr_ports::Draws;
use kem_laws::Kem;
use long_text::{LONG_LIMIT, LongRefusal};

/// The bytes of a part, in room for them.
fn bytes_in<'a>(part: &Part<'_>, room: &'a mut [u8; TEXT_LIMIT]) -> &'a [u8]
    requires { IsPart part.now }
    ensures { result.now ≡ part_text part.now }
{
    let len = put_part(room, 0, part);
    &room[..len]
}

impl<K: Kem> Client<K> {
    /// Joins the parts of the long text of an id that stand in the inbox: it stands at the
    /// beginning of the room then, and the answer is its length. What is behind it stays, and all
    /// of it where this is refused. `NoLong` exactly where no part stands, else `Clash` with the
    /// first pair that clashes, else `Parts` where fewer numbers stand than the count says.
    pub fn long(&self, id: u32, into: &mut [u8; LONG_LIMIT]) -> Result<usize, LongRefusal>
        ensures { Fills into.old into.new result (long_of id self.now.kept.inbox) }
    {
        self.core.long(id, into)
    }

    /// Says a part of a long text, by the step of `say`: with a draw exactly where it needs a seed,
    /// and its packet goes into the outbox. `Closed` exactly where a call on the disk failed
    /// before, then `NoParts` exactly where the session's format isn't `Receipts`, then the other
    /// reasons of `say`; a part is never too long. It takes no memory.
    pub fn say_part<D: Disk, W: Draws>(
        &mut self,
        disk: &mut D,
        part: &Part<'_>,
        draws: &mut W,
    ) -> Result<Position, SayRefusal>
        requires part { IsPart part.now }
        requires disk { MayActOn self.old (D.state disk.old) }
        // Exactly what the side makes of it, but for a failing draw or call on the disk.
        ensures exact { SaysWithDraw D.state W.at K.mechanism (part_content part.now)
            self.old self.new disk.old disk.new draws.old draws.new result }
        ensures ready { OnOk result (IsOpenOn self.new (D.state disk.new)) }
        // In each world that the client stands for, at every moment.
        ensures in_worlds { (w : World) (side : Side) → IsIn K.mechanism w side self.old
            → SaysIn W.at K.mechanism w side (part_content part.now) self.old self.new
            (D.state disk.old) (D.state disk.new) draws.old draws.new (said_as result) }
        // Once it is said, the key of its position is used up, and nothing that a crash leaves
        // gives it.
        ensures spent { IfOk result (λ position. (w : World) (side : Side)
            → IsIn K.mechanism w side self.old
            → (draw : Option (List ℕ))
            × IsSeedDrawn W.at self.old (part_content part.now) draws.old draws.new draw
            × IsSpent K.mechanism
            (act_in K.mechanism w side (saying (part_content part.now) draw)).next side position
            (D.state disk.new)) }
        ensures fate { StaysPassing (D.state disk.old) (D.state disk.new) (said_as result) }
    {
        let mut room = [0; TEXT_LIMIT];
        let bytes = bytes_in(part, &mut room);
        say::<K, Client<K>, D, W>(self, disk, PART_KIND, bytes, draws)
    }
}
