//! How long a record is, before it is written.

ghost use Rattle.std.specs.Prelude.{◌≡◌, ◌*◌, ◌≤◌, length, drop, option_copied, option_map};
ghost use Rattle.std.specs.Int.{w8, w16};
ghost use Rattle.dr_base.specs.declared.limits.TheConstants.{INBOX_LIMIT, KEPT_LIMIT, OUTBOX_LIMIT};
ghost use Rattle.grammar.specs.Printer.{print_counted, print_items, print_maybe};
ghost use Rattle.session_model.specs.Leaving.{left_in_inbox};
ghost use Rattle.session_model.specs.Seen.{phase_seen, reception_seen};
ghost use Rattle.session_record.specs.declared.limits.TheConstants.{ENTRY_LIMIT, KEYS_LIMIT, PHASE_LIMIT, POST_LIMIT, RECORD_LIMIT, STREAM_SIZE};
ghost use Rattle.session_record.specs.Awaiting.{awaiting_text};
ghost use Rattle.session_record.specs.Changes.{FitsInbox, FitsOutbox, changed, inbox_after, outbox_after};
ghost use Rattle.session_record.specs.Fields.{phase_text, reception_text};
ghost use Rattle.session_record.specs.Groups.{heading_text, keys_text};
ghost use Rattle.session_record.specs.Lists.{entry_text, kept_text, post_text};
ghost use Rattle.session_record.specs.Record.{client_of, heading_in, keys_in, record_text};
ghost use Rattle.session_record.specs.Versions.{newest};

use crate::change::Change;
use crate::encoding::is_short;
use crate::inbox::oldest_text_left;
use crate::kept::are_long;
use crate::limits::{COUNT_SIZE, ENTRY_SIZE, HEADING_SIZE, KEPT_SIZE, PLACE_SIZE, STREAM_SIZE};
use crate::others::others_len;
use crate::outbox::oldest_packet_left;
use crate::relay::relay_len;
use boxes::{Inbox, Outbox};
use dr_base::Kept;
use kem_laws::Kem;
use session_model::{LentPart, Phase, Reception, RelayKeys, Which, is_long};

/// The length of what a record begins with.
fn heading_len<K: Kem>(part: &LentPart<'_, K>) -> usize
    ensures { result ≡ length (heading_text (heading_in newest part.now)) }
{
    let _head = part.head;
    HEADING_SIZE
}

/// The length of the keys of the epoch.
fn phase_len(phase: &Phase) -> usize
    ensures len { result ≡ length (phase_text (phase_seen phase.now)) }
    ensures limit { result ≤ PHASE_LIMIT }
{
    match phase {
        Phase::Own(own) => {
            is_long(&own.chain.bytes);
            own.secret.len() + own.agreement.len() + STREAM_SIZE
        }
        Phase::Peers(public) => public.len(),
    }
}

/// The length of the stream of the latest peer's epoch.
fn receiving_len(receiving: &Option<Reception>) -> usize
    ensures len { result
        ≡ length (print_maybe reception_text (option_map reception_seen receiving.now)) }
    ensures limit { result ≤ STREAM_SIZE }
{
    match receiving {
        None => 0,
        Some(reception) => {
            is_long(&reception.chain.bytes);
            STREAM_SIZE
        }
    }
}

/// The length of kept keys after their count.
fn kept_len(keys: &[Kept]) -> usize
    requires { length keys.now ≤ KEPT_LIMIT }
    ensures len { result ≡ length (print_counted w16 kept_text keys.now) }
    ensures limit { result ≤ KEYS_LIMIT }
{
    are_long(keys);
    2 + KEPT_SIZE * keys.len()
}

/// The length of the keys.
fn keys_len<K: Kem>(part: &LentPart<'_, K>) -> usize
    ensures { result ≡ length (keys_text (keys_in part.now)) }
{
    let head = part.head;
    let kept = kept_len(part.kept.kept());
    phase_len(&head.phase) + COUNT_SIZE + receiving_len(&head.receiving) + kept
}

/// The length of the texts from a place on.
fn entries_len(inbox: &Inbox, from: u32) -> usize
    requires { from ≤ length inbox.now }
    ensures len { result ≡ length (print_items (entry_text newest) (drop from inbox.now)) }
    ensures limit { result ≤ ENTRY_LIMIT * INBOX_LIMIT }
{
    let mut sum = 0;
    'entries: for i in 0..inbox.len() - from {
        match inbox.at((from + i) as usize) {
            Some(entry) => sum += ENTRY_SIZE + entry.text.len(),
            None => unreachable!(),
        }
    }
    sum
}

/// The length of the texts that are left once items leave their box.
fn left_len(inbox: &Inbox, which: Which) -> usize
    ensures len { let left = left_in_inbox which inbox.now in
        result ≡ length (print_items (entry_text newest) left) }
    ensures limit { result ≤ ENTRY_LIMIT * INBOX_LIMIT }
{
    match which {
        Which::Oldest(items, n) => entries_len(inbox, oldest_text_left(inbox, items, n)),
        Which::OfId(id) => others_len(inbox, id),
    }
}

/// The length of the inbox as a change leaves it.
fn inbox_len(inbox: &Inbox, change: &Change<'_>) -> usize
    requires { FitsInbox inbox.now change.now }
    ensures { let after = inbox_after inbox.now change.now in
        result ≡ length (print_counted w8 (entry_text newest) after) }
{
    match change {
        Change::Received { text, .. } => 1 + entries_len(inbox, 0) + ENTRY_SIZE + text.len(),
        Change::Dropped(which) => 1 + left_len(inbox, *which),
        Change::Same | Change::Said { .. } => 1 + entries_len(inbox, 0),
    }
}

/// The length of the packets from a place on.
fn posts_len(outbox: &Outbox, from: u32) -> usize
    requires { from ≤ length outbox.now }
    ensures len { result ≡ length (print_items post_text (drop from outbox.now)) }
    ensures limit { result ≤ POST_LIMIT * OUTBOX_LIMIT }
{
    let mut sum = 0;
    'posts: for i in 0..outbox.len() - from {
        match outbox.at((from + i) as usize) {
            Some(pair) => sum += 2 + pair.1.len(),
            None => unreachable!(),
        }
    }
    sum
}

/// The length of the outbox as a change leaves it.
fn outbox_len<K: Kem>(outbox: &Outbox, change: &Change<'_>) -> usize
    requires { FitsOutbox outbox.now change.now }
    ensures { let after = outbox_after K.mechanism outbox.now change.now in
        result ≡ length (print_counted w8 post_text after) }
{
    match change {
        Change::Said { packet } => 1 + posts_len(outbox, 0) + 2 + packet.len(),
        Change::Dropped(which) => 1 + posts_len(outbox, oldest_packet_left(outbox, *which)),
        Change::Same | Change::Received { .. } => 1 + posts_len(outbox, 0),
    }
}

/// The length of the texts that wait after their count.
fn awaiting_len<K: Kem>(part: &LentPart<'_, K>) -> usize
    ensures { result ≡ length (awaiting_text newest part.now.awaiting) }
{
    1 + PLACE_SIZE * part.head.awaiting.positions().len()
}

/// How many bytes the record has that `encode` writes of the same.
pub fn encoded_len<K: Kem>(
    part: &LentPart<'_, K>,
    inbox: &Inbox,
    outbox: &Outbox,
    change: &Change<'_>,
    keys: Option<&RelayKeys>,
) -> usize
    requires inbox { FitsInbox inbox.now change.now }
    requires outbox { FitsOutbox outbox.now change.now }
    ensures len { let keys = option_copied keys.entry in
        let client = client_of part.now inbox.now outbox.now keys in
        let text = record_text (changed K.mechanism client change.now) in
        result ≡ length text }
    ensures limit { result ≤ RECORD_LIMIT }
{
    is_short(part, inbox, outbox, change, keys);
    let groups = heading_len(part) + keys_len(part);
    let boxes = inbox_len(inbox, change) + outbox_len::<K>(outbox, change);
    groups + boxes + awaiting_len(part) + relay_len(keys)
}
