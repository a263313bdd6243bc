//! The laws of the machine. These functions have no code: a caller that needs the facts calls them.

ghost use Rattle.session_model.specs.Drafts.{IsSendDraft};
ghost use Rattle.session_model.specs.Saying.{SendDraft};
ghost use Rattle.session_model.specs.States.{State};
ghost use Rattle.dr_model.specs.Theorems.Acting.{ActsFollow};
ghost use Rattle.dr_model.specs.Theorems.Erasure.{IsErased};
ghost use Rattle.dr_model.specs.Theorems.Following.{Follows};
ghost use Rattle.dr_model.specs.Theorems.Headline.{Headline};
ghost use Rattle.dr_model.specs.Theorems.Receipts.{ReceiptsAreTrue};
ghost use Rattle.dr_model.specs.Theorems.ViewWorlds.{ViewsHaveWorlds};
ghost use Rattle.dr_model.specs.Theorems.Sessions.{SessionsAgree};
ghost use Rattle.dr_model.specs.Theorems.Spoken.{SaidIsOpened};
ghost use Rattle.kem_laws.specs.Mechanism.{IsLawfulMechanism, Mechanism};

/// Whatever is said and taken, in every order: within the limits each text is opened at its first
/// arrival, stands in the history once from then on, and a repeat or a refusal changes nothing,
/// over any mechanism.
pub fn headline()
    ensures { (k : Mechanism) → Headline k }
{}

/// Both sides follow the machine: from what they keep in a world, they answer each event as the
/// machine does, and keep what stands in the world after it, where no tag is forged, over any
/// mechanism that keeps its law.
pub fn both_sides_follow()
    ensures { (k : Mechanism) → IsLawfulMechanism k → Follows k }
{}

/// One session opens what the other drafted, over any mechanism that keeps its law: what a session
/// that stands in a view of a conversation answers to a packet, what it drafts, and what it keeps
/// then. `ratchet`'s sessions are these.
pub fn sessions_agree()
    ensures { (k : Mechanism) → IsLawfulMechanism k → SessionsAgree k }
{}

/// What a side keeps in a view doesn't give the message key of a text that it has opened or said:
/// neither does it stand there, nor does it follow by any step of the key schedule. This speaks of
/// derivation, not of strength.
pub fn erasure()
    ensures { (k : Mechanism) → IsErased k }
{}

/// What one side does by itself follows the machine: from what it keeps in a world it answers an
/// act as the machine does, and then keeps what stands in the next world, where no tag is forged,
/// over any mechanism that keeps its law.
pub fn acts_follow()
    ensures { (k : Mechanism) → IsLawfulMechanism k → ActsFollow k }
{}

/// Each lawful view of a lawful conversation is a side's view in a lawful world, so what is said of
/// worlds is said of every view.
pub fn views_have_worlds()
    ensures { (k : Mechanism) → ViewsHaveWorlds k }
{}

/// Of two texts that were drafted from one state one at most is accepted: once it is, the other is
/// no draft of the state that stands then. So no two texts have one position, and one message key.
pub fn one_draft_is_accepted()
    ensures { (k : Mechanism) (s : State) (first second : SendDraft) → IsSendDraft k s first
        → IsSendDraft k s second
        → IsSendDraft k first.next second → ⊥ }
{}

/// Receipts are true: the receipt that a side sends in a lawful view covers only texts that it has
/// opened there, and the other side may open it; and whatever is opened and said later, what it
/// covers was opened, also at the end of every run from a lawful world whose given seeds have 32
/// bytes, over any mechanism. So each text that a side takes off those that wait, since a packet
/// that it took says so, was opened by the other side.
pub fn receipts_are_true()
    ensures { (k : Mechanism) → ReceiptsAreTrue k }
{}

/// What one side says, the other opens: the packet comes last in the side's outbox, and whatever
/// happens from then on it is no forged one. When it arrives for the first time, within the limits,
/// the other side opens it to what was said, byte for byte, and so does its session; that stands in
/// the history once.
pub fn said_is_opened()
    ensures { (k : Mechanism) → IsLawfulMechanism k → SaidIsOpened k }
{}
