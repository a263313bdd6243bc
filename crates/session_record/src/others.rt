//! The inbox of a record that the parts of a long text have left.

ghost use Rattle.std.specs.Prelude.{◌≡◌, ◌+◌, ◌*◌, ◌≤◌, [], ◌∷◌, length};
ghost use Rattle.std.specs.Int.{w8};
ghost use Rattle.boxes.specs.Seen.{entry_seen};
ghost use Rattle.dr_base.specs.Buffer.{Puts};
ghost use Rattle.grammar.specs.Printer.{print_counted, print_items};
ghost use Rattle.session_model.specs.Leaving.{left_in_inbox};
ghost use Rattle.session_model.specs.declared.answer.Which.TheVariants.{OfId};
ghost use Rattle.session_record.specs.Changes.{other_text};
ghost use Rattle.session_record.specs.Lists.{entry_text};
ghost use Rattle.session_record.specs.Versions.{newest};

use crate::inbox::put_entry;
use crate::limits::{ENTRY_LIMIT, ENTRY_SIZE};
use boxes::{Entry, Inbox};
use dr_base::{INBOX_LIMIT, TEXT_LIMIT, put, put_u8};

/// How many bytes it has there: none, where it is one of the parts.
fn other_len(entry: Entry<'_>, id: u32) -> usize
    requires { length entry.text.now ≤ TEXT_LIMIT }
    ensures len { result ≡ length (other_text id (entry_seen entry.entry)) }
    ensures limit { result ≤ ENTRY_LIMIT }
{
    if entry.is_of(id) {
        return 0;
    }
    ENTRY_SIZE + entry.text.len()
}

/// The length of the texts that are left.
pub(crate) fn others_len(inbox: &Inbox, id: u32) -> usize
    ensures len { let left = left_in_inbox (OfId id) inbox.now in
        result ≡ length (print_items (entry_text newest) left) }
    ensures limit { result ≤ ENTRY_LIMIT * INBOX_LIMIT }
{
    let mut sum = 0;
    'entries: for i in 0..inbox.len() {
        match inbox.at(i as usize) {
            Some(entry) => sum += other_len(entry, id),
            None => unreachable!(),
        }
    }
    sum
}

/// Counts it, unless it is one of the parts.
fn count_other(count: u32, entry: Entry<'_>, id: u32) -> u32
    requires { count ≤ INBOX_LIMIT }
    ensures { let left = left_in_inbox (OfId id) (entry_seen entry.entry ∷ []) in
        result ≡ count + length left }
{
    if entry.is_of(id) { count } else { count + 1 }
}

/// How many texts are left.
fn others_count(inbox: &Inbox, id: u32) -> u32
    ensures value { result ≡ length (left_in_inbox (OfId id) inbox.now) }
    ensures few { result ≤ INBOX_LIMIT }
{
    let mut count = 0;
    'entries: for i in 0..inbox.len() {
        match inbox.at(i as usize) {
            Some(entry) => count = count_other(count, entry, id),
            None => unreachable!(),
        }
    }
    count
}

/// Puts it, unless it is one of the parts.
fn put_other(out: &mut [u8], at: usize, entry: Entry<'_>, id: u32) -> usize
    requires short { length entry.text.now ≤ TEXT_LIMIT }
    requires room { at + length (other_text id (entry_seen entry)) ≤ length out.old }
    ensures { Puts out.old out.new at (other_text id (entry_seen entry.entry)) result }
{
    if entry.is_of(id) {
        return put(out, at, &[]);
    }
    put_entry(out, at, entry.position, entry.kind, entry.text)
}

/// Puts the texts that are left.
fn put_each_other(out: &mut [u8], at: usize, inbox: &Inbox, id: u32) -> usize
    requires { at + length (print_items (other_text id) inbox.now) ≤ length out.old }
    ensures { Puts out.old out.new at (print_items (other_text id) inbox.now) result }
{
    let mut next = at;
    'entries: for i in 0..inbox.len() {
        match inbox.at(i as usize) {
            Some(entry) => next = put_other(out, next, entry, id),
            None => unreachable!(),
        }
    }
    next
}

/// Puts the texts that are left, after their count.
pub(crate) fn put_others(out: &mut [u8], at: usize, inbox: &Inbox, id: u32) -> usize
    requires { let left = left_in_inbox (OfId id) inbox.now in
        at + length (print_counted w8 (entry_text newest) left) ≤ length out.old }
    ensures { let left = left_in_inbox (OfId id) inbox.now in
        Puts out.old out.new at (print_counted w8 (entry_text newest) left) result }
{
    let next = put_u8(out, at, others_count(inbox, id) as u8);
    put_each_other(out, next, inbox, id)
}
