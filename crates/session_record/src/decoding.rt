//! Reading a record.

ghost use Rattle.std.specs.Prelude.{◌≡◌, ◌≤◌, [], Ok, Err, IfOk, IfErr, OnErr, MatchResult};
ghost use Rattle.grammar.specs.Standing.{Reads};
ghost use Rattle.session_model.specs.LawfulStates.{IsLawfulState};
ghost use Rattle.session_record.specs.declared.limits.TheConstants.{RECORD_LIMIT};
ghost use Rattle.session_record.specs.Lawful.{IsLawfulClient};
ghost use Rattle.session_record.specs.Groups.{boxes_fields, boxes_of};
ghost use Rattle.session_record.specs.Record.{client_of, record_fields, record_read, saved_of, saved_read, state_of_groups};
ghost use Rattle.session_record.specs.Seen.{groups_read, keys_seen};

use crate::awaiting::{read_awaiting, sent_of};
use crate::damaged::Damaged;
use crate::groups::{Heading, Keys, read_heading, read_keys};
use crate::inbox::read_inbox;
use crate::laws::version_law;
use crate::outbox::read_outbox;
use crate::relay::read_relay;
use arrayvec::ArrayVec;
use boxes::{Inbox, Outbox};
use dr_base::{KEPT_LIMIT, Kept};
use fs_aead::Skipped;
use grammar::Cursor;
use kem_laws::{Kem, laws};
use session_model::{Awaiting, Head, RelayKeys, SessionPart};
use std::marker::PhantomData;

/// The boxes, which are empty before.
#[tactic(auto, unfolding(crate::specs::Groups::boxes_fields))]
fn read_boxes<K: Kem>(
    cursor: &mut Cursor<'_>,
    heading: &Heading,
    inbox: &mut Inbox,
    outbox: &mut Outbox,
) -> Result<(), usize>
    requires inbox { inbox.old ≡ [] }
    requires outbox { outbox.old ≡ [] }
    ensures { let fields = boxes_fields K.mechanism heading.now in
        Reads (λ _. boxes_of (inbox.new, outbox.new)) fields cursor.old cursor.new result }
{
    read_inbox(cursor, heading, inbox)?;
    read_outbox::<K>(cursor, heading, outbox)
}

/// The fields in their order. The kept keys are put into the list, and what the boxes hold into
/// them.
#[tactic(auto, unfolding(crate::specs::Record::record_fields))]
fn read_fields<K: Kem>(
    cursor: &mut Cursor<'_>,
    kept: &mut ArrayVec<Kept, KEPT_LIMIT>,
    inbox: &mut Inbox,
    outbox: &mut Outbox,
) -> Result<(Heading, Keys, Awaiting, Option<RelayKeys>), usize>
    requires kept { kept.old.items ≡ [] }
    requires inbox { inbox.old ≡ [] }
    requires outbox { outbox.old ≡ [] }
    ensures { let fields = record_fields K.mechanism in
        Reads (λ f. groups_read f.0 f.1 kept.new.items (f.2, f.3) inbox.new outbox.new) fields
        cursor.old cursor.new result }
{
    let heading = read_heading(cursor)?;
    let keys = read_keys::<K>(cursor, &heading, kept)?;
    read_boxes::<K>(cursor, &heading, inbox, outbox)?;
    let awaiting = read_awaiting(cursor, &heading, sent_of(&keys.phase))?;
    let relay = read_relay(cursor, heading.version)?;
    Ok((heading, keys, awaiting, relay))
}

/// Reads a whole text.
#[tactic(auto, unfolding(crate::specs::Record::saved_read))]
fn read_whole<K: Kem>(
    text: &[u8],
    kept: &mut ArrayVec<Kept, KEPT_LIMIT>,
    inbox: &mut Inbox,
    outbox: &mut Outbox,
) -> Result<(Heading, Keys, Awaiting, Option<RelayKeys>), usize>
    requires kept { kept.old.items ≡ [] }
    requires inbox { inbox.old ≡ [] }
    requires outbox { outbox.old ≡ [] }
    ensures { MatchResult result
        (λ f. let groups = groups_read f.0 f.1 kept.new.items (f.2, f.3) inbox.new outbox.new in
        saved_read K.mechanism text.now ≡ Ok (saved_of groups))
        (λ at. saved_read K.mechanism text.now ≡ Err at) }
{
    let mut cursor = Cursor::new(text);
    let fields = read_fields::<K>(&mut cursor, kept, inbox, outbox)?;
    if !cursor.is_at_end() {
        return Err(cursor.at());
    }
    Ok(fields)
}

/// The part of a session that these are. A function of its own, so that its room isn't set while
/// the fields are read.
#[inline(never)]
fn part_of<K: Kem>(
    heading: Heading,
    keys: Keys,
    awaiting: Awaiting,
    kept: &[Kept],
) -> SessionPart<K>
    requires { IsLawfulState K.mechanism
        (state_of_groups heading (keys_seen keys kept.now) awaiting) }
    ensures { result ≡ state_of_groups heading (keys_seen keys kept.now) awaiting }
{
    let session = heading.session;
    SessionPart {
        head: Head {
            side: heading.side,
            format: heading.format,
            session,
            root: heading.root,
            epoch: heading.epoch,
            phase: keys.phase,
            previous: keys.previous,
            receiving: keys.receiving,
            awaiting,
            mechanism: PhantomData,
        },
        kept: Skipped::resume(kept),
    }
}

/// Reads a client's record into the part of its session, the keys of its boxes at a relay, which a
/// session may lack, and the boxes, which are empty. A text that is no record leaves them empty. What is read is lawful.
pub fn decode<K: Kem>(
    text: &[u8],
    inbox: &mut Inbox,
    outbox: &mut Outbox,
) -> Result<(SessionPart<K>, Option<RelayKeys>), Damaged>
    requires inbox { inbox.old ≡ [] }
    requires outbox { outbox.old ≡ [] }
    ensures exact { MatchResult result
        (λ r. record_read K.mechanism text.now ≡ Ok (client_of r.0 inbox.new outbox.new r.1))
        (λ damaged. record_read K.mechanism text.now ≡ Err damaged.at) }
    ensures lawful { IfOk result (λ r.
        IsLawfulClient K.mechanism (client_of r.0 inbox.new outbox.new r.1)) }
    ensures within { IfErr result (λ damaged. damaged.at ≤ RECORD_LIMIT) }
    ensures empty_inbox { OnErr result (inbox.new ≡ []) }
    ensures empty_outbox { OnErr result (outbox.new ≡ []) }
{
    laws::<K>();
    version_law();
    let mut kept = ArrayVec::new();
    match read_whole::<K>(text, &mut kept, inbox, outbox) {
        Ok((heading, keys, awaiting, relay)) => {
            let part = part_of(heading, keys, awaiting, kept.as_slice());
            Ok((part, relay))
        }
        Err(at) => {
            inbox.drop_first(inbox.len()).unwrap();
            outbox.drop_first(outbox.len()).unwrap();
            Err(Damaged { at })
        }
    }
}
