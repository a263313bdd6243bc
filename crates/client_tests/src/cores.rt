//! Cores of both sides in memory: each step once, drafted and accepted or let be, and a record that
//! is read again.

use crate::acts::ZEROS;
use bodies::Format;
use boxes::{Inbox, Outbox, TEXT_KIND};
use client::{Core, Draft};
use dr_base::{Position, Side};
use kem_laws::OpenKem;
use ratchet::{OpeningRoom, PacketRoom};
use session_model::{Items, Which};
use session_record::{RECORD_LIMIT, decode};
use std::alloc::Global;

/// Says the text "hi", which is in epoch 0: a first draft is let be, a second one accepted.
fn say(core: &mut Core<OpenKem>) -> bool {
    match core.say_check(TEXT_KIND, b"hi") {
        Ok(false) => {}
        _ => return false,
    }
    let mut room = PacketRoom::new();
    let Ok(draft) = core.draft_say(TEXT_KIND, b"hi", None, &mut room) else {
        return false;
    };
    draft.discard();
    let Ok(draft) = core.draft_say(TEXT_KIND, b"hi", None, &mut room) else {
        return false;
    };
    core.accept(Draft::Said(draft));
    core.state().outbox == 1
}

/// Takes a packet.
fn take(core: &mut Core<OpenKem>, packet: &[u8]) -> bool {
    let mut room = OpeningRoom::new();
    match core.draft_take(packet, &mut room) {
        Ok(draft) => {
            core.accept(Draft::Received(draft));
            true
        }
        Err(_) => false,
    }
}

/// Takes the packet that the other side has in its outbox, once.
fn take_from(core: &mut Core<OpenKem>, from: &Core<OpenKem>) -> bool {
    let Some((position, packet)) = from.outbox(0) else {
        return false;
    };
    position == (Position { epoch: 0, index: 1 }) && take(core, packet) && !take(core, packet)
}

/// Whether the inbox holds the text "hi" alone.
fn has_text(core: &Core<OpenKem>) -> bool {
    match core.inbox(0) {
        Some(entry) => entry.text == b"hi".as_slice() && core.inbox(1).is_none(),
        None => false,
    }
}

/// Whether the core of these bytes writes them as its record.
fn writes(alloc: Global, text: &[u8], out: &mut [u8]) -> bool {
    let (Ok(mut inbox), Ok(mut outbox)) = (Inbox::new(alloc), Outbox::new(alloc)) else {
        return false;
    };
    let read = decode::<OpenKem>(text, &mut inbox, &mut outbox);
    if out.len() < RECORD_LIMIT || read.is_err() {
        return false;
    }
    match Core::<OpenKem>::read(alloc, text) {
        Ok(core) => {
            let len = core.encode_now(out);
            &out[..len] == text
        }
        Err(_) => false,
    }
}

/// Whether a core's record is read as a core with the same record.
fn reads_back(alloc: Global, core: &Core<OpenKem>) -> bool {
    let Ok(mut text) = vec![in alloc; 0; RECORD_LIMIT] else {
        return false;
    };
    let Ok(mut again) = vec![in alloc; 0; RECORD_LIMIT] else {
        return false;
    };
    let len = core.encode_now(&mut text);
    writes(alloc, &text[..len], &mut again)
}

/// Drops one item of a box, which has no other. The draft's record is that of the core afterwards.
fn drop_in(core: &mut Core<OpenKem>, items: Items, early: &mut [u8], late: &mut [u8]) -> bool {
    let which = Which::Oldest(items, 1);
    let short = early.len() < RECORD_LIMIT || late.len() < RECORD_LIMIT;
    if short || core.drop_check(which).is_err() {
        return false;
    }
    let draft = Draft::Dropped(which);
    let len = core.encode(&draft, early);
    core.accept(draft);
    core.drop_check(which).is_err() && core.encode_now(late) == len && &early[..len] == &late[..len]
}

/// The same with room for both records.
fn drop_one(alloc: Global, core: &mut Core<OpenKem>, items: Items) -> bool {
    let Ok(mut early) = vec![in alloc; 0; RECORD_LIMIT] else {
        return false;
    };
    let Ok(mut late) = vec![in alloc; 0; RECORD_LIMIT] else {
        return false;
    };
    drop_in(core, items, &mut early, &mut late)
}

/// A text goes over, and leaves both boxes.
fn goes_over(alloc: Global, first: &mut Core<OpenKem>, second: &mut Core<OpenKem>) -> bool {
    say(second)
        && reads_back(alloc, second)
        && take_from(first, second)
        && has_text(first)
        && reads_back(alloc, first)
        && drop_one(alloc, second, Items::Packets)
        && drop_one(alloc, first, Items::Texts)
}

/// The same over cores of its own, begun with the key of zeros.
fn meet(alloc: Global) -> bool {
    let Ok(mut first) = Core::<OpenKem>::begin(alloc, Side::First, Format::Plain, &ZEROS) else {
        return false;
    };
    let Ok(mut second) = Core::<OpenKem>::begin(alloc, Side::Second, Format::Plain, &ZEROS) else {
        return false;
    };
    first.side() == Side::First
        && first.session() == second.session()
        && goes_over(alloc, &mut first, &mut second)
}

#[test]
fn cores_talk(rt: HostRuntime) {
    assert!(rt; meet(rt.alloc()));
}
