//! Writing a record.

ghost use Rattle.std.specs.Prelude.{◌≡◌, ◌≤◌, length, drop, option_copied, take};
ghost use Rattle.grammar.specs.Printer.{HasRoom};
ghost use Rattle.session_record.specs.declared.limits.TheConstants.{RECORD_LIMIT};
ghost use Rattle.session_record.specs.Changes.{FitsInbox, FitsOutbox, changed};
ghost use Rattle.session_record.specs.Record.{client_of, record_text};

use crate::awaiting::put_awaiting;
use crate::change::Change;
use crate::groups::{put_heading, put_keys};
use crate::inbox::put_inbox;
use crate::kept::are_long;
use crate::outbox::put_outbox;
use crate::relay::{have_length, put_relay};
use boxes::{Inbox, Outbox};
use kem_laws::{Kem, laws};
use session_model::{LentPart, RelayKeys};

/// No record is longer than `RECORD_LIMIT`, also after a change.
pub(crate) fn is_short<K: Kem>(
    part: &LentPart<'_, K>,
    inbox: &Inbox,
    outbox: &Outbox,
    change: &Change<'_>,
    keys: Option<&RelayKeys>,
)
    requires inbox { FitsInbox inbox.now change.now }
    requires outbox { FitsOutbox outbox.now change.now }
    ensures { let keys = option_copied keys.entry in
        let client = client_of part.now inbox.now outbox.now keys in
        length (record_text (changed K.mechanism client change.now)) ≤ RECORD_LIMIT }
{
    laws::<K>();
    are_long(part.kept.kept());
    have_length(keys);
    let _texts = inbox.len();
    let _packets = outbox.len();
}

/// Writes the record of a session's part, of the boxes as a change leaves them, and of the keys of
/// its boxes at a relay, in the newest version, and answers its length. What stands after it stays.
/// The buffer holds this record, or has room for any.
pub fn encode<K: Kem>(
    part: &LentPart<'_, K>,
    inbox: &Inbox,
    outbox: &Outbox,
    change: &Change<'_>,
    keys: Option<&RelayKeys>,
    out: &mut [u8],
) -> usize
    requires inbox { FitsInbox inbox.now change.now }
    requires outbox { FitsOutbox outbox.now change.now }
    requires room { let keys = option_copied keys in
        let client = client_of part.now inbox.now outbox.now keys in
        let text = record_text (changed K.mechanism client change.now) in
        HasRoom RECORD_LIMIT text (length out.old) }
    ensures len { let keys = option_copied keys.entry in
        let client = client_of part.now inbox.now outbox.now keys in
        let text = record_text (changed K.mechanism client change.now) in
        result ≡ length text }
    ensures written { let keys = option_copied keys.entry in
        let client = client_of part.now inbox.now outbox.now keys in
        let text = record_text (changed K.mechanism client change.now) in
        take result out.new ≡ text }
    ensures rest { drop result out.new ≡ drop result out.old }
    ensures limit { result ≤ RECORD_LIMIT }
{
    is_short(part, inbox, outbox, change, keys);
    let at_keys = put_heading(out, part);
    let at_inbox = put_keys(out, at_keys, part);
    let at_outbox = put_inbox(out, at_inbox, inbox, change);
    let at_awaiting = put_outbox::<K>(out, at_outbox, outbox, change);
    let at_relay = put_awaiting(out, at_awaiting, part);
    put_relay(out, at_relay, keys)
}
