//! Answers in words.

ghost use Rattle.std.specs.Prelude.{◌≡◌, ℕ, ◌+◌, ◌≤◌, List, ◌++◌, length, codes, decimal};
ghost use Rattle.answer_lines.specs.Answers.{position_text, kind_text, refusal_text, summary_text, drop_word, which_text, answer_text};

use dr_base::Position;
use dr_ports::{OutputLine, ROOM};
use packet::{Kind, Malformed};
use session_model::{Answer, Items, Refusal, Summary, Which};

/// Puts a name and a number after what stands.
pub fn put_named(line: &mut OutputLine, name: &[u8], number: u64)
    requires { length line.old + length name.now + 20 ≤ ROOM }
    ensures bytes { line.new ≡ line.old ++ name.now ++ decimal number }
    ensures len { length line.new ≤ length line.old + length name.now + 20 }
{
    line.text(name);
    line.number(number);
}

/// Puts a position after what stands, as `epoch.index`.
#[tactic(auto, unfolding(crate::specs::Answers::position_text))]
pub fn put_position(line: &mut OutputLine, position: Position)
    requires { length line.old + 41 ≤ ROOM }
    ensures bytes { line.new ≡ line.old ++ position_text position }
    ensures len { length line.new ≤ length line.old + 41 }
{
    line.number(u64::from(position.epoch));
    line.text(b".");
    line.number(u64::from(position.index));
}

/// The name of a fault's kind.
#[tactic(auto, unfolding(crate::specs::Answers::kind_text))]
fn kind_name(kind: Kind) -> &'static [u8]
    ensures name { result.now ≡ kind_text kind }
    ensures short { length result.now ≤ 9 }
{
    match kind {
        Kind::Version => b"Version",
        Kind::Epoch => b"Epoch",
        Kind::Previous => b"Previous",
        Kind::Index => b"Index",
        Kind::Agreement => b"Agreement",
        Kind::Text => b"Text",
        Kind::Short => b"Short",
        Kind::Long => b"Long",
    }
}

/// Puts a fault's kind and place after what stands.
fn put_fault(line: &mut OutputLine, fault: Malformed)
    requires { length line.old + 40 ≤ ROOM }
    ensures bytes { line.new ≡ line.old ++ codes "Malformed " ++ kind_text fault.kind ++ codes " " ++ decimal fault.at }
    ensures len { length line.new ≤ length line.old + 40 }
{
    line.text(b"Malformed ");
    line.text(kind_name(fault.kind));
    line.text(b" ");
    line.number(fault.at as u64);
}

/// Puts a refusal's name and values after what stands.
#[tactic(auto, unfolding(crate::specs::Answers::refusal_text))]
pub fn put_refusal(line: &mut OutputLine, refusal: Refusal)
    requires { length line.old + 60 ≤ ROOM }
    ensures bytes { line.new ≡ line.old ++ refusal_text refusal }
    ensures len { length line.new ≤ length line.old + 60 }
{
    match refusal {
        Refusal::NoParts => line.text(b"NoParts"),
        Refusal::TextTooLong(len) => put_named(line, b"TextTooLong ", len as u64),
        Refusal::OutboxFull => line.text(b"OutboxFull"),
        Refusal::EpochFull => line.text(b"EpochFull"),
        Refusal::LastEpoch => line.text(b"LastEpoch"),
        Refusal::NoPair => line.text(b"NoPair"),
        Refusal::Malformed(fault) => put_fault(line, fault),
        Refusal::OtherSession => line.text(b"OtherSession"),
        Refusal::OwnPacket(epoch) => put_named(line, b"OwnPacket ", u64::from(epoch)),
        Refusal::Ahead { epoch, reached } => {
            put_named(line, b"Ahead ", u64::from(epoch));
            put_named(line, b" ", u64::from(reached));
        }
        Refusal::Spent(position) => {
            line.text(b"Spent ");
            put_position(line, position);
        }
        Refusal::Count { claimed, known } => {
            put_named(line, b"Count ", u64::from(claimed));
            put_named(line, b" ", u64::from(known));
        }
        Refusal::SkipLimit(would) => put_named(line, b"SkipLimit ", u64::from(would)),
        Refusal::BadTag => line.text(b"BadTag"),
        Refusal::BadPadding => line.text(b"BadPadding"),
        Refusal::InboxFull => line.text(b"InboxFull"),
        Refusal::Fewer(held) => put_named(line, b"Fewer ", u64::from(held)),
        Refusal::NoLong => line.text(b"NoLong"),
    }
}

/// Puts what a side holds after what stands.
#[tactic(auto, unfolding(crate::specs::Answers::summary_text))]
pub fn put_summary(line: &mut OutputLine, summary: Summary)
    requires { length line.old + 110 ≤ ROOM }
    ensures bytes { line.new ≡ line.old ++ summary_text summary }
    ensures len { length line.new ≤ length line.old + 110 }
{
    put_named(line, b"epoch ", u64::from(summary.epoch));
    put_named(line, b" missing ", u64::from(summary.missing));
    put_named(line, b" inbox ", u64::from(summary.inbox));
    put_named(line, b" outbox ", u64::from(summary.outbox));
}

/// The word of a call that drops items, before their number: `sent ` or `done `.
#[tactic(auto, unfolding(crate::specs::Answers::drop_word))]
pub fn drop_word(items: Items) -> &'static [u8]
    ensures word { result.now ≡ drop_word items }
    ensures len { length result.now ≡ 5 }
{
    match items {
        Items::Packets => b"sent ",
        Items::Texts => b"done ",
    }
}

/// Puts what left a box after what stands.
#[tactic(auto, unfolding(crate::specs::Answers::which_text))]
fn put_which(line: &mut OutputLine, which: Which)
    requires { length line.old + 30 ≤ ROOM }
    ensures bytes { line.new ≡ line.old ++ which_text which }
    ensures len { length line.new ≤ length line.old + 30 }
{
    match which {
        Which::Oldest(items, n) => put_named(line, drop_word(items), u64::from(n)),
        Which::OfId(id) => put_named(line, b"done-long ", u64::from(id)),
    }
}

/// Puts an answer in words after what stands.
#[tactic(auto, unfolding(crate::specs::Answers::answer_text))]
pub fn put_answer(line: &mut OutputLine, answer: Answer)
    requires { length line.old + 116 ≤ ROOM }
    ensures bytes { line.new ≡ line.old ++ answer_text answer }
    ensures len { length line.new ≤ length line.old + 116 }
{
    match answer {
        Answer::Said(position) => {
            line.text(b"said ");
            put_position(line, position);
        }
        Answer::Opened(position) => {
            line.text(b"opened ");
            put_position(line, position);
        }
        Answer::Dropped(which) => put_which(line, which),
        Answer::Inbox(n) => put_named(line, b"inbox ", u64::from(n)),
        Answer::Awaiting(n) => put_named(line, b"awaiting ", u64::from(n)),
        Answer::State(summary) => {
            line.text(b"state ");
            put_summary(line, summary);
        }
        Answer::Seeded => {}
        Answer::Stopped => line.text(b"stopped"),
        Answer::Nothing => line.text(b"nothing"),
        Answer::Refused(refusal) => {
            line.text(b"refused ");
            put_refusal(line, refusal);
        }
    }
}
