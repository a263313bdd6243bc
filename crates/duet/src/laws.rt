//! What a script comes to. These functions have no code: a caller that needs a fact calls one.

ghost use Rattle.std.specs.Prelude.{◌≡◌, All, true, is_some};
ghost use Rattle.kem_laws.specs.Mechanism.{IsLawfulMechanism, Mechanism};
ghost use Rattle.session_model.specs.Schedule.{agreement_seed};
ghost use Rattle.scripts.specs.Script.{Scripted};
ghost use Rattle.dr_base.specs.Position.{peer_of};
ghost use Rattle.dr_base.specs.declared.position.Position.{Position};
ghost use Rattle.dr_base.specs.declared.position.Side.{Side};
ghost use Rattle.dr_model.specs.Conversations.Views.{has_opened};
ghost use Rattle.dr_model.specs.Machines.Events.{PacketSource, does, takes};
ghost use Rattle.dr_model.specs.Machines.Worlds.{step_of, view_of};
ghost use Rattle.dr_model.specs.Theorems.Receipts.{EndsWaiting};
ghost use Rattle.duet.specs.Outcomes.{deed_in};
ghost use Rattle.duet.specs.Receipts.{ReceiptsHold};
ghost use Rattle.duet.specs.Tally.{tally_in, tally_of};
ghost use Rattle.duet.specs.Trace.{IsUnforgedScript, after_by, beginning_in, played, trace_of};
ghost use Rattle.scripts.specs.Deeds.{HasWholeSeed};

/// The lines that both sides answer to a script are those that the machine answers, over any
/// mechanism that keeps its law, where the shared key gives a first pair, its seeds have 32 bytes,
/// and no packet that it makes up has a forged tag.
pub fn played_is_the_trace()
    ensures { (k : Mechanism) (script : Scripted) → IsLawfulMechanism k
        → is_some (k.meaning.pair_of (agreement_seed script.key)) ≡ true
        → All HasWholeSeed script.deeds → IsUnforgedScript k script
        → played k script ≡ trace_of k script }
{}

/// Receipts hold in a script's world, under the same premises: each own text whose waiting a take
/// ends was opened by the other side. So it is of each line of the script in which a side takes
/// packets, also where its disk stops or fails meanwhile, where it opens again, and where it syncs;
/// and of one more take after the script.
pub fn receipts_hold()
    ensures within { (k : Mechanism) (script : Scripted) → IsLawfulMechanism k
        → is_some (k.meaning.pair_of (agreement_seed script.key)) ≡ true
        → All HasWholeSeed script.deeds → IsUnforgedScript k script
        → ReceiptsHold k (beginning_in k script) script.deeds }
    ensures after { (k : Mechanism) (script : Scripted) (side : Side) (source : PacketSource)
        (p : Position) → IsLawfulMechanism k
        → is_some (k.meaning.pair_of (agreement_seed script.key)) ≡ true
        → All HasWholeSeed script.deeds → IsUnforgedScript k script
        → let w = (after_by (deed_in k) (beginning_in k script) script.deeds).ends in
        EndsWaiting w (step_of k w (does side (takes source))).next side p
        → has_opened (view_of w (peer_of side)) p ≡ true }
{}

/// And a run in numbers is the machine's, under the same premises: what is counted, and how far
/// each side comes.
pub fn tallied_is_the_machines()
    ensures { (k : Mechanism) (script : Scripted) → IsLawfulMechanism k
        → is_some (k.meaning.pair_of (agreement_seed script.key)) ≡ true
        → All HasWholeSeed script.deeds → IsUnforgedScript k script
        → tally_of k script ≡ tally_in k script }
{}
