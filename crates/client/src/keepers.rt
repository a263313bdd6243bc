//! What keeps a core on a disk: a client, which is alone there, or a row of a book.

ghost use Rattle.std.specs.Prelude.{◌≡◌, Ok, IfErr, IfOk, IfSome, Some, is_some, true};
ghost use Rattle.dr_model.specs.Machines.Steps.{has_effect};
ghost use Rattle.ratchet.specs.Seen.{seed_bytes};
ghost use Rattle.session_model.specs.Clients.{accept_send, say_check, say_on};
ghost use Rattle.session_model.specs.Contents.{content_with};
ghost use Rattle.client.specs.Acting.{IsKeeperAct};
ghost use Rattle.client.specs.Drafting.{DraftsFor, IsDraftOf, IsReceivedOf, IsSaidOf, drafted_answer, drafted_step, said_if};
ghost use Rattle.client.specs.Keepings.{HoldsKept, IsKeeperOpen, Keeping};
ghost use Rattle.client.specs.Outcomes.{kept_as};

use crate::cores::{Core, Draft};
use dr_base::Key32;
use dr_disk::{Call, Disk};
use kem_laws::Kem;
use ratchet::{NoPairFor, OpeningRoom, PacketRoom, ReceiveDraft, SendDraft};
use session_model::Refusal;

/// Keeps a core, whose record lies in a place on a disk. All that a side does is one act of `say`,
/// `take` or `drop_items`, over any keeper.
pub trait Keeper<K: Kem> {
    /// What it keeps, and where.
    ghost keeping: { Keeping Self };

    /// The core that it keeps.
    fn core(&self) -> &Core<K>
        requires { keeping.there self.now }
        ensures { result.now ≡ keeping.kept self.now };

    /// The call on the disk that closed it.
    fn closed(&self) -> Option<Call>
        ensures { result ≡ keeping.closed self.now };

    /// Drafts bytes of a kind, as `Core::draft_say` does.
    fn draft_say<'a>(
        &mut self,
        kind: u8,
        text: &[u8],
        seed: Option<Key32>,
        room: &'a mut PacketRoom,
    ) -> Result<SendDraft<'a, K>, NoPairFor>
        requires there { keeping.there self.old }
        requires checked { say_check (keeping.kept self.old) (content_with kind text.now)
            ≡ Ok (is_some seed) }
        ensures exact { say_on K.mechanism (keeping.kept self.old) (content_with kind text.now)
            (seed_bytes seed)
            ≡ accept_send (keeping.kept self.old) (said_if (keeping.kept self.old).state result) }
        ensures draft { IfOk result (IsSaidOf K.mechanism (keeping.kept self.old)) }
        ensures seed { IfErr result (λ e. seed ≡ Some e.seed) }
        ensures same { self.new ≡ self.old };

    /// Drafts the taking of a packet, as `Core::draft_take` does.
    fn draft_take<'a>(
        &mut self,
        packet: &[u8],
        room: &'a mut OpeningRoom,
    ) -> Result<ReceiveDraft<'a, K>, Refusal>
        requires { keeping.there self.old }
        ensures exact { DraftsFor K.mechanism (keeping.kept self.old) packet.now result }
        ensures draft { IfOk result (IsReceivedOf K.mechanism (keeping.kept self.old)) }
        ensures same { self.new ≡ self.old };

    /// Keeps what was drafted, where something was: the record that it leads to replaces the one on
    /// the disk, and then it is accepted. A call on the disk that fails closes the keeper, which
    /// keeps what it kept.
    // Lent, since a trait can't be handed a draft as yet.
    fn keep_drafted<D: Disk>(
        &mut self,
        disk: &mut D,
        draft: &mut Option<Draft<'_, K>>,
    ) -> Result<(), Call>
        requires draft { IfSome draft.old (IsDraftOf K.mechanism (keeping.kept self.old)) }
        requires effect { IfSome draft.old (λ d. has_effect (drafted_answer d) ≡ true) }
        requires open { IsKeeperOpen keeping self.old (D.state disk.old) }
        ensures { IfSome draft.old (λ d.
            IsKeeperAct keeping D.state (Ok (drafted_step (keeping.kept self.old) d))
            self.old self.new disk.old disk.new (kept_as (drafted_answer d) result)) };

    /// Where a disk is at rest for what is kept, a session is kept. It has no code.
    fn is_there<D: Disk>(&self, disk: &D)
        requires { keeping.ready self.now (D.state disk.now) }
        ensures { keeping.there self.now };

    /// A disk at rest for what is kept has its record in each image. It has no code.
    fn holds<D: Disk>()
        ensures { (disk : D) → HoldsKept keeping (D.state disk) };
}

/// Gives up what is left of a draft.
fn give_up<K: Kem>(left: Option<Draft<'_, K>>) {
    if let Some(draft) = left {
        draft.discard();
    }
}

/// Keeps what was drafted.
// Inlined, so that the draft stays where it is.
#[inline(always)]
pub(crate) fn keep<K: Kem, Q: Keeper<K>, D: Disk>(
    keeper: &mut Q,
    disk: &mut D,
    draft: Draft<'_, K>,
) -> Result<(), Call>
    requires draft { IsDraftOf K.mechanism (Q.keeping.kept keeper.old) draft }
    requires effect { has_effect (drafted_answer draft) ≡ true }
    requires open { IsKeeperOpen Q.keeping keeper.old (D.state disk.old) }
    ensures { IsKeeperAct Q.keeping D.state
        (Ok (drafted_step (Q.keeping.kept keeper.old) draft.entry))
        keeper.old keeper.new disk.old disk.new (kept_as (drafted_answer draft.entry) result) }
{
    let mut left = Some(draft);
    let kept = keeper.keep_drafted(disk, &mut left);
    give_up(left);
    kept
}
