//! Texts are said, and parts of long ones.

ghost use Rattle.std.specs.Prelude.{◌≡◌, ℕ, List, Option, Ok, IfOk, OnOk, is_some};
ghost use Rattle.dr_base.specs.declared.position.Side.{Side};
ghost use Rattle.dr_model.specs.Machines.Acts.{said_by, saying};
ghost use Rattle.dr_model.specs.Machines.WorldActs.{act_in};
ghost use Rattle.dr_model.specs.Machines.Worlds.{World};
ghost use Rattle.ratchet.specs.Seen.{seed_bytes};
ghost use Rattle.session_model.specs.Clients.{say_check, say_on};
ghost use Rattle.session_model.specs.Contents.{content_with, text_content};
ghost use Rattle.client.specs.Acting.{IsKeeperAct};
ghost use Rattle.client.specs.Clients.{IsOpenOn, MayActOn};
ghost use Rattle.client.specs.InWorlds.{IsIn, IsKeeperIn};
ghost use Rattle.client.specs.Keepings.{IsKeeperOpen, MayKeeperAct, cell_of};
ghost use Rattle.client.specs.Outcomes.{StaysPassing, said_as};
ghost use Rattle.client.specs.Saying.{HandsBack, IsKeeperSay, IsSeedDrawn, KeeperDraws, KeeperSaysIn, KeeperSaysWithDraw, SaysIn, SaysWithDraw};
ghost use Rattle.client.specs.Spent.{IsSpent, IsSpentInCell};

use crate::client::Client;
use crate::cores::Draft;
use crate::keepers::{Keeper, keep};
use crate::laws::grounds;
use crate::refusals::SayRefusal;
use boxes::TEXT_KIND;
use dr_base::{Key32, Position};
use dr_disk::Disk;
use dr_ports::Draws;
use kem_laws::Kem;
use ratchet::PacketRoom;
use session_model::Refusal;

impl<K: Kem> Client<K> {
    /// Whether bytes of a kind may be said, a text or a part of a long one, and then whether that
    /// needs a seed.
    pub fn say_check(&self, kind: u8, text: &[u8]) -> Result<bool, Refusal>
        ensures { result ≡ say_check self.now.kept (content_with kind text.now) }
    {
        self.core.say_check(kind, text)
    }

    /// Says a text, with a draw exactly where it needs a seed, and puts its packet into the outbox.
    /// `Closed` exactly where a call on the disk failed before, then the first reason against a
    /// text of this length, then `DrawFault` only where the draw failed, then `NoPair` exactly
    /// where its seed has no pair. None of these changes anything or calls the disk. `StoreFault`
    /// only where a call on the disk failed: then the client is closed, and shows what it showed.
    pub fn say<D: Disk, W: Draws>(
        &mut self,
        disk: &mut D,
        text: &[u8],
        draws: &mut W,
    ) -> Result<Position, SayRefusal>
        requires { MayActOn self.old (D.state disk.old) }
        // Exactly what the side makes of it, but for a failing draw or call on the disk.
        ensures exact { SaysWithDraw D.state W.at K.mechanism (text_content text.now)
            self.old self.new disk.old disk.new draws.old draws.new result }
        ensures ready { OnOk result (IsOpenOn self.new (D.state disk.new)) }
        // In each world that the client stands for, at every moment.
        ensures in_worlds { (w : World) (side : Side) → IsIn K.mechanism w side self.old
            → SaysIn W.at K.mechanism w side (text_content text.now) self.old self.new
            (D.state disk.old) (D.state disk.new) draws.old draws.new (said_as result) }
        // Once it is said, the key of its position is used up, and nothing that a crash leaves
        // gives it.
        ensures spent { IfOk result (λ position. (w : World) (side : Side)
            → IsIn K.mechanism w side self.old
            → (draw : Option (List ℕ))
            × IsSeedDrawn W.at self.old (text_content text.now) draws.old draws.new draw
            × IsSpent K.mechanism
            (act_in K.mechanism w side (saying (text_content text.now) draw)).next side position
            (D.state disk.new)) }
        ensures fate { StaysPassing (D.state disk.old) (D.state disk.new) (said_as result) }
    {
        say::<K, Client<K>, D, W>(self, disk, TEXT_KIND, text, draws)
    }
}

/// Says bytes of a kind, a text or a part of a long one, with a draw exactly where that needs a
/// seed, and puts the packet into the outbox. `Closed` exactly where a call on the disk failed
/// before, then the first reason against them, then `DrawFault` only where the draw failed, then
/// `NoPair` exactly where the seed has no pair. None of these changes anything or calls the disk.
/// `StoreFault` only where a call on the disk failed: then the keeper is closed, and shows what it
/// showed.
pub fn say<K: Kem, Q: Keeper<K>, D: Disk, W: Draws>(
    keeper: &mut Q,
    disk: &mut D,
    kind: u8,
    text: &[u8],
    draws: &mut W,
) -> Result<Position, SayRefusal>
    requires { MayKeeperAct Q.keeping keeper.old (D.state disk.old) }
    // Exactly what the side makes of it, but for a failing draw or call on the disk.
    ensures exact { KeeperSaysWithDraw Q.keeping D.state W.at K.mechanism
        (content_with kind text.now)
        keeper.old keeper.new disk.old disk.new draws.old draws.new result }
    ensures ready { OnOk result (IsKeeperOpen Q.keeping keeper.new (D.state disk.new)) }
    // In each world that the keeper stands for, at every moment.
    ensures in_worlds { (w : World) (side : Side)
        → IsKeeperIn Q.keeping K.mechanism w side keeper.old
        → KeeperSaysIn Q.keeping W.at K.mechanism w side (content_with kind text.now)
        keeper.old keeper.new (D.state disk.old) (D.state disk.new)
        draws.old draws.new (said_as result) }
    // Once it is said, the key of its position is used up, and nothing that a crash leaves
    // gives it.
    ensures spent { IfOk result (λ position. (w : World) (side : Side)
        → IsKeeperIn Q.keeping K.mechanism w side keeper.old
        → (draw : Option (List ℕ))
        × KeeperDraws Q.keeping W.at keeper.old (content_with kind text.now)
        draws.old draws.new draw
        × IsSpentInCell (cell_of Q.keeping keeper.old) K.mechanism
        (act_in K.mechanism w side (saying (content_with kind text.now) draw)).next side
        position (D.state disk.new)) }
    ensures fate { StaysPassing (D.state disk.old) (D.state disk.new) (said_as result) }
{
    grounds::<K>();
    Q::holds::<D>();
    say_exact::<K, Q, D, W>(keeper, disk, kind, text, draws)
}

fn say_exact<K: Kem, Q: Keeper<K>, D: Disk, W: Draws>(
    keeper: &mut Q,
    disk: &mut D,
    kind: u8,
    text: &[u8],
    draws: &mut W,
) -> Result<Position, SayRefusal>
    requires { MayKeeperAct Q.keeping keeper.old (D.state disk.old) }
    ensures { IsKeeperSay Q.keeping D.state W.at K.mechanism (content_with kind text.now)
        keeper.old keeper.new disk.old disk.new draws.old draws.new result }
{
    if let Some(call) = keeper.closed() {
        return Err(SayRefusal::Closed { call });
    }
    keeper.is_there(disk);
    match keeper.core().say_check(kind, text) {
        Err(refusal) => Err(SayRefusal::Refused(refusal)),
        Ok(false) => speak::<K, Q, D>(keeper, disk, kind, text, None),
        Ok(true) => match draws.draw() {
            Err(_) => Err(SayRefusal::DrawFault),
            Ok(seed) => {
                // The proof takes the length of the seed from this.
                let _bytes = &seed.bytes;
                speak::<K, Q, D>(keeper, disk, kind, text, Some(seed))
            }
        },
    }
}

/// Says what may be said, with a seed exactly where it needs one.
fn speak<K: Kem, Q: Keeper<K>, D: Disk>(
    keeper: &mut Q,
    disk: &mut D,
    kind: u8,
    text: &[u8],
    seed: Option<Key32>,
) -> Result<Position, SayRefusal>
    requires checked { say_check (Q.keeping.kept keeper.old) (content_with kind text.now)
        ≡ Ok (is_some seed) }
    requires open { IsKeeperOpen Q.keeping keeper.old (D.state disk.old) }
    ensures acts { IsKeeperAct Q.keeping D.state
        (said_by (say_on K.mechanism (Q.keeping.kept keeper.old) (content_with kind text.now)
        (seed_bytes seed)))
        keeper.old keeper.new disk.old disk.new (said_as result) }
    ensures seed { HandsBack seed result }
{
    let mut room = PacketRoom::new();
    keeper.is_there(disk);
    match keeper.draft_say(kind, text, seed, &mut room) {
        Err(none) => Err(SayRefusal::NoPair { seed: none.seed }),
        Ok(draft) => {
            let position = draft.position();
            match keep::<K, Q, D>(keeper, disk, Draft::Said(draft)) {
                Err(call) => Err(SayRefusal::StoreFault { call }),
                Ok(()) => Ok(position),
            }
        }
    }
}
