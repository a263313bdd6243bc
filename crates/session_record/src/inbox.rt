//! The inbox of a record.

ghost use Rattle.std.specs.Prelude.{◌≡◌, ◌+◌, ◌<◌, ◌≤◌, [], ◌∷◌, ◌++◌, length, drop, IfOk};
ghost use Rattle.std.specs.Int.{w8, w16};
ghost use Rattle.boxes.specs.Entries.{entry_with};
ghost use Rattle.boxes.specs.Parts.{is_content};
ghost use Rattle.boxes.specs.Seen.{entry_seen};
ghost use Rattle.dr_base.specs.Buffer.{Puts};
ghost use Rattle.grammar.specs.Printer.{print_counted, print_items};
ghost use Rattle.grammar.specs.Reader.{items, sized};
ghost use Rattle.grammar.specs.Standing.{Reads};
ghost use Rattle.session_model.specs.Leaving.{left_in_inbox};
ghost use Rattle.session_model.specs.declared.answer.Which.TheVariants.{Oldest};
ghost use Rattle.session_record.specs.Changes.{FitsInbox, inbox_after};
ghost use Rattle.session_record.specs.Fields.{up_to};
ghost use Rattle.session_record.specs.Lists.{entry_field, entry_text, inbox_field};
ghost use Rattle.session_record.specs.Versions.{newest};

use crate::change::Change;
use crate::groups::Heading;
use crate::numbers::{read_kind, read_len};
use crate::others::put_others;
use boxes::{Entry, Inbox, is_content};
use dr_base::{INBOX_LIMIT, INDEX_LIMIT, Position, TEXT_LIMIT, put, put_u8, put_u16, put_u32};
use grammar::Cursor;
use session_model::{Items, Which};

/// A content of a kind after its length, which is at most `limit`.
fn read_text<'a>(cursor: &mut Cursor<'a>, limit: usize, kind: u8) -> Result<&'a [u8], usize>
    ensures reads { let field = sized w16 (up_to limit) (is_content kind) in
        Reads (λ t. t.now) field cursor.old cursor.new result }
    ensures short { IfOk result (λ t. length t.now ≤ limit) }
{
    let at = cursor.at();
    let size = usize::from(cursor.number16()?);
    if size > limit {
        return Err(at);
    }
    let at_text = cursor.at();
    let text = cursor.piece(size)?;
    if !is_content(kind, text) {
        return Err(at_text);
    }
    Ok(text)
}

/// A content of the peer's, its kind and its position.
#[tactic(auto, unfolding(crate::specs::Lists::entry_field))]
fn read_entry<'a>(cursor: &mut Cursor<'a>, heading: &Heading) -> Result<Entry<'a>, usize>
    ensures reads { let h = heading.now in
        Reads entry_seen (entry_field h.version h.side h.epoch) cursor.old cursor.new result }
    ensures short { IfOk result (λ e. length e.text.now ≤ TEXT_LIMIT) }
{
    let at_epoch = cursor.at();
    let of = cursor.number32()?;
    if heading.side.owns(of) || of > heading.epoch {
        return Err(at_epoch);
    }
    let at_index = cursor.at();
    let index = cursor.number32()?;
    if index == 0 || index > INDEX_LIMIT {
        return Err(at_index);
    }
    let kind = read_kind(cursor, heading.version)?;
    let text = read_text(cursor, heading.version.text_most(), kind)?;
    Ok(Entry {
        position: Position { epoch: of, index },
        kind,
        text,
    })
}

/// This many texts, put into the inbox.
fn read_entries(
    cursor: &mut Cursor<'_>,
    heading: &Heading,
    count: u8,
    inbox: &mut Inbox,
) -> Result<(), usize>
    requires few { count ≤ INBOX_LIMIT }
    requires empty { inbox.old ≡ [] }
    ensures { let h = heading.now in let entry = entry_field h.version h.side h.epoch in
        Reads (λ _. inbox.new) (items (λ _. entry) count) cursor.old cursor.new result }
{
    'entries: for _ in 0..count {
        let one = read_entry(cursor, heading)?;
        inbox.push(one.position, one.kind, one.text).unwrap();
    }
    Ok(())
}

/// The texts after their count, put into the inbox, which is empty.
#[tactic(auto, unfolding(crate::specs::Lists::inbox_field))]
pub(crate) fn read_inbox(
    cursor: &mut Cursor<'_>,
    heading: &Heading,
    inbox: &mut Inbox,
) -> Result<(), usize>
    requires { inbox.old ≡ [] }
    ensures { let h = heading.now in
        Reads (λ _. inbox.new) (inbox_field h.version h.side h.epoch) cursor.old cursor.new result }
{
    let count = read_len(cursor, heading.version.inbox_most())?;
    read_entries(cursor, heading, count, inbox)
}

/// Puts a text, its kind and its position.
pub(crate) fn put_entry(
    out: &mut [u8],
    at: usize,
    position: Position,
    kind: u8,
    text: &[u8],
) -> usize
    requires short { length text.now ≤ TEXT_LIMIT }
    requires room { let entry = entry_with position kind text.now in
        at + length (entry_text newest entry) ≤ length out.old }
    ensures { let entry = entry_with position kind text.now in
        Puts out.old out.new at (entry_text newest entry) result }
{
    let at_index = put_u32(out, at, position.epoch);
    let at_kind = put_u32(out, at_index, position.index);
    let at_size = put_u8(out, at_kind, kind);
    let at_text = put_u16(out, at_size, text.len() as u16);
    put(out, at_text, text)
}

/// Puts the texts from a place on.
fn put_entries(out: &mut [u8], at: usize, inbox: &Inbox, from: u32) -> usize
    requires inside { from ≤ length inbox.now }
    requires room { let later = drop from inbox.now in
        at + length (print_items (entry_text newest) later) ≤ length out.old }
    ensures { let later = drop from inbox.now in
        Puts out.old out.new at (print_items (entry_text newest) later) result }
{
    let mut next = at;
    'entries: for i in 0..inbox.len() - from {
        match inbox.at((from + i) as usize) {
            Some(entry) => next = put_entry(out, next, entry.position, entry.kind, entry.text),
            None => unreachable!(),
        }
    }
    next
}

/// Puts the texts from a place on, after their count.
fn put_later(out: &mut [u8], at: usize, inbox: &Inbox, from: u32) -> usize
    requires inside { from ≤ length inbox.now }
    requires room { let later = drop from inbox.now in
        at + length (print_counted w8 (entry_text newest) later) ≤ length out.old }
    ensures { let later = drop from inbox.now in
        Puts out.old out.new at (print_counted w8 (entry_text newest) later) result }
{
    let next = put_u8(out, at, (inbox.len() - from) as u8);
    put_entries(out, next, inbox, from)
}

/// Puts the texts with one more, after their count.
fn put_more(
    out: &mut [u8],
    at: usize,
    inbox: &Inbox,
    position: Position,
    kind: u8,
    text: &[u8],
) -> usize
    requires space { length inbox.now < INBOX_LIMIT }
    requires short { length text.now ≤ TEXT_LIMIT }
    requires room { let more = inbox.now ++ entry_with position kind text.now ∷ [] in
        at + length (print_counted w8 (entry_text newest) more) ≤ length out.old }
    ensures { let more = inbox.now ++ entry_with position kind text.now ∷ [] in
        Puts out.old out.new at (print_counted w8 (entry_text newest) more) result }
{
    let at_first = put_u8(out, at, inbox.len() as u8 + 1);
    let at_last = put_entries(out, at_first, inbox, 0);
    put_entry(out, at_last, position, kind, text)
}

/// The place of the oldest text that is left once the oldest items leave their box.
pub(crate) fn oldest_text_left(inbox: &Inbox, items: Items, n: u32) -> u32
    ensures inside { result ≤ length inbox.now }
    ensures left { drop result inbox.now ≡ left_in_inbox (Oldest items n) inbox.now }
{
    match items {
        Items::Texts => n.min(inbox.len()),
        Items::Packets => 0,
    }
}

/// Puts the texts that are left once items leave their box, after their count.
fn put_left(out: &mut [u8], at: usize, inbox: &Inbox, which: Which) -> usize
    requires { let left = left_in_inbox which inbox.now in
        at + length (print_counted w8 (entry_text newest) left) ≤ length out.old }
    ensures { let left = left_in_inbox which inbox.now in
        Puts out.old out.new at (print_counted w8 (entry_text newest) left) result }
{
    match which {
        Which::Oldest(items, n) => { put_later(out, at, inbox, oldest_text_left(inbox, items, n)) }
        Which::OfId(id) => put_others(out, at, inbox, id),
    }
}

/// Puts the inbox as a change leaves it.
pub(crate) fn put_inbox(out: &mut [u8], at: usize, inbox: &Inbox, change: &Change<'_>) -> usize
    requires fits { FitsInbox inbox.now change.now }
    requires room { let after = inbox_after inbox.now change.now in
        at + length (print_counted w8 (entry_text newest) after) ≤ length out.old }
    ensures { let after = inbox_after inbox.now change.now in
        Puts out.old out.new at (print_counted w8 (entry_text newest) after) result }
{
    match change {
        Change::Received {
            position,
            kind,
            text,
        } => put_more(out, at, inbox, *position, *kind, text),
        Change::Dropped(which) => put_left(out, at, inbox, *which),
        Change::Same | Change::Said { .. } => put_later(out, at, inbox, 0),
    }
}
