//! Each box made with ample memory, and each of its calls once.

use boxes::{Fewer, Inbox, Outbox, TEXT_KIND};
use dr_base::Position;
use std::test::Fail;

fn place(index: u32) -> Position {
    Position { epoch: 1, index }
}

fn shown(inbox: &Inbox, at: usize) -> Option<(Position, &[u8])> {
    match inbox.at(at) {
        Some(entry) if entry.kind == TEXT_KIND => Some((entry.position, entry.text)),
        _ => None,
    }
}

/// Whether an inbox without texts keeps three in order, and drops the oldest.
fn keeps_texts(inbox: &mut Inbox) -> bool {
    for index in 0..3 {
        if inbox.push(place(index), TEXT_KIND, b"text") != Ok(()) {
            return false;
        }
    }
    inbox.drop_first(1) == Ok(())
        && inbox.len() == 2
        && shown(inbox, 0) == Some((place(1), b"text".as_slice()))
}

/// Whether an outbox without packets keeps three in order, and doesn't drop four.
fn keeps_packets(outbox: &mut Outbox) -> bool {
    for index in 0..3 {
        if outbox.push(place(index), b"packet") != Ok(()) {
            return false;
        }
    }
    outbox.drop_first(4) == Err(Fewer { held: 3 })
        && outbox.len() == 3
        && outbox.at(0) == Some((place(0), b"packet".as_slice()))
}

#[test]
fn boxes_keep_order(rt: HostRuntime) -> Result<(), Fail> {
    let mut inbox = Inbox::new(rt.alloc())?;
    assert!(rt; keeps_texts(&mut inbox));
    let mut outbox = Outbox::new(rt.alloc())?;
    assert!(rt; keeps_packets(&mut outbox));
    Ok(())
}
