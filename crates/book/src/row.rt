//! A row that is present: a session under its name.

ghost use Rattle.std.specs.Prelude.{◌≡◌, ◌<◌, ◌≤◌, ℕ, IfSome, MatchOption, None, Ok, IfOk, IfErr, OnOk, Some, get_or, is_some, length, true};
ghost use Rattle.book_model.specs.Rows.{Rows, under};
ghost use Rattle.ratchet.specs.Seen.{seed_bytes};
ghost use Rattle.relay_wire.specs.declared.limits.TheConstants.{NAME_LIMIT};
ghost use Rattle.session_model.specs.Clients.{Client, accept_send, say_check, say_on};
ghost use Rattle.session_model.specs.Contents.{content_with};
ghost use Rattle.client.specs.Drafting.{DraftsFor, IsReceivedOf, IsSaidOf, said_if};
ghost use Rattle.book.specs.Naming.{HasNone, IsFree, IsPlaceOf, is_named};
ghost use Rattle.book.specs.RowKeepings.{kept_of, name_of};

use crate::seat::Seated;
use book_store::words;
use client::Core;
use dr_base::Key32;
use kem_laws::Kem;
use ratchet::{NoPairFor, OpeningRoom, PacketRoom, ReceiveDraft, SendDraft};
use relay_wire::Name;
use session_model::Refusal;
use std::marker::Model;

/// A session under its name. A contract sees the name, and what the session keeps.
#[derive(Drop)]
pub(crate) struct Row<K: Kem> {
    pub(crate) name: Name,
    pub(crate) core: Seated<K>,
}

impl<K: Kem> Model for Row<K> {
    ghost use Rattle.book_model.specs.Rows.{Row as Named};
    ghost use Rattle.session_model.specs.Clients.{Client};

    ghost Value = { Named Client };

    ghost view = { λ r. record { name = r.name; kept = r.core } };
}

/// The session of a row that is present.
pub(crate) fn core_of<K: Kem>(row: &Option<Row<K>>) -> &Core<K>
    requires { is_some row.now ≡ true }
    ensures { result.now ≡ kept_of row.now }
{
    match row {
        Some(row) => row.core.core(),
        None => unreachable!(),
    }
}

/// The name of a row that is present.
pub(crate) fn row_name<K: Kem>(row: &Option<Row<K>>) -> Option<&str>
    ensures variant { is_some result ≡ is_some row.now }
    ensures value { IfSome result (λ name. name_of row.now ≡ Some name.now) }
    ensures fits { IfSome result (λ name. length name.now ≤ NAME_LIMIT) }
{
    match row {
        Some(row) => {
            // The proof takes the length of the name from this.
            let _bytes = row.name.bytes();
            Some(words(&row.name))
        }
        None => None,
    }
}

/// Whether a row is present under this name.
fn is_named<K: Kem>(row: &Option<Row<K>>, name: &[u8]) -> bool
    ensures { result ≡ is_named name.now row.now }
{
    match row {
        Some(row) => row.name.bytes() == name,
        None => false,
    }
}

/// The place of the first row that has this name; nothing exactly where no row has it.
pub(crate) fn find<K: Kem>(rows: &[Option<Row<K>>], name: &[u8]) -> Option<usize>
    ensures { MatchOption result (HasNone name.now rows.now) (IsPlaceOf name.now rows.now) }
{
    'rows: for at in 0..rows.len() {
        if is_named(&rows[at], name) {
            return Some(at);
        }
    }
    None
}

/// The lowest absent row; nothing exactly where all are present.
pub(crate) fn find_free<K: Kem>(rows: &[Option<Row<K>>]) -> Option<usize>
    ensures { MatchOption result
        ((q : ℕ) → q < length rows.now → is_some (get_or rows.now q None) ≡ true)
        (IsFree rows.now) }
{
    'rows: for at in 0..rows.len() {
        if rows[at].is_none() {
            return Some(at);
        }
    }
    None
}

/// Drafts bytes of a kind, of a row's session, as `Core::draft_say` does.
// Inlined, so that the draft is built where the caller keeps it.
#[inline(always)]
pub(crate) fn draft_say_in<'a, K: Kem>(
    row: &mut Option<Row<K>>,
    kind: u8,
    text: &[u8],
    seed: Option<Key32>,
    room: &'a mut PacketRoom,
) -> Result<SendDraft<'a, K>, NoPairFor>
    requires there { is_some row.old ≡ true }
    requires checked { say_check (kept_of row.old) (content_with kind text.now)
        ≡ Ok (is_some seed) }
    ensures exact { say_on K.mechanism (kept_of row.old) (content_with kind text.now)
        (seed_bytes seed)
        ≡ accept_send (kept_of row.old) (said_if (kept_of row.old).state result) }
    ensures draft { IfOk result (IsSaidOf K.mechanism (kept_of row.old)) }
    ensures seed { IfErr result (λ e. seed ≡ Some e.seed) }
    ensures same { row.new ≡ row.old }
{
    match row {
        Some(row) => row.core.draft_say(kind, text, seed, room),
        None => unreachable!(),
    }
}

/// Drafts the taking of a packet, as `Core::draft_take` does.
#[inline(always)]
pub(crate) fn draft_take_in<'a, K: Kem>(
    row: &mut Option<Row<K>>,
    packet: &[u8],
    room: &'a mut OpeningRoom,
) -> Result<ReceiveDraft<'a, K>, Refusal>
    requires { is_some row.old ≡ true }
    ensures exact { DraftsFor K.mechanism (kept_of row.old) packet.now result }
    ensures draft { IfOk result (IsReceivedOf K.mechanism (kept_of row.old)) }
    ensures same { row.new ≡ row.old }
{
    match row {
        Some(row) => row.core.draft_take(packet, room),
        None => unreachable!(),
    }
}
