//! The fields of a record that hold keys.

ghost use Rattle.std.specs.Prelude.{◌≡◌, ◌+◌, ◌≤◌, length, option_map, IfOk};
ghost use Rattle.dr_base.specs.Buffer.{Puts};
ghost use Rattle.grammar.specs.Printer.{print_maybe};
ghost use Rattle.grammar.specs.Reader.{checked, piece};
ghost use Rattle.grammar.specs.Standing.{Reads};
ghost use Rattle.session_model.specs.Seen.{own_seen, phase_seen, reception_seen};
ghost use Rattle.record_fields.specs.Fields.{is_secret, own_fields, own_text, phase_field, phase_text, reach_of, reception_fields, reception_text, receiving_field};

use crate::numbers::read_count;
use arrayvec::ArrayVec;
use cka::{SecretText, agreement_length};
use dr_base::{Key32, Side, in_room, put, put_u32};
use grammar::Cursor;
use kem_laws::{Kem, laws};
use session_model::{Own, Phase, Reception};

/// This many bytes, copied.
pub fn read_array<const N: usize>(cursor: &mut Cursor<'_>) -> Result<[u8; N], usize>
    ensures { Reads (λ a. a) (piece N) cursor.old cursor.new result }
{
    let bytes = cursor.piece(N)?;
    let mut array = [0; N];
    array.copy_from_slice(bytes);
    Ok(array)
}

/// A key.
pub fn read_key(cursor: &mut Cursor<'_>) -> Result<Key32, usize>
    ensures { Reads (λ k. k.bytes) (piece 32) cursor.old cursor.new result }
{
    let bytes = read_array(cursor)?;
    Ok(Key32 { bytes })
}

/// This many bytes, in fixed room.
fn read_text<const N: usize>(cursor: &mut Cursor<'_>, size: usize) -> Result<ArrayVec<u8, N>, usize>
    requires { size ≤ N }
    ensures reads { Reads (λ t. t.items) (piece size) cursor.old cursor.new result }
    ensures long { IfOk result (λ t. length t.items ≡ size) }
{
    let bytes = cursor.piece(size)?;
    Ok(in_room(bytes))
}

/// The secret of an own epoch. One that isn't lawful is a fault at its first byte, whatever byte is
/// bad.
fn read_secret<K: Kem>(cursor: &mut Cursor<'_>) -> Result<SecretText, usize>
    ensures { Reads (λ t. t.items) (checked (is_secret K.mechanism) (piece K.mechanism.secret))
        cursor.old cursor.new result }
{
    laws::<K>();
    let at = cursor.at();
    let secret = read_text(cursor, K::SECRET)?;
    if K::is_secret(secret.as_slice()).is_err() {
        return Err(at);
    }
    Ok(secret)
}

/// What an own epoch holds.
#[tactic(auto, unfolding(crate::specs::Fields::own_fields))]
fn read_own<K: Kem>(cursor: &mut Cursor<'_>, epoch: u32) -> Result<Own, usize>
    ensures { Reads own_seen (own_fields K.mechanism epoch) cursor.old cursor.new result }
{
    let secret = read_secret::<K>(cursor)?;
    let size = if epoch == 0 {
        0
    } else {
        agreement_length::<K>()
    };
    let agreement = read_text(cursor, size)?;
    let chain = read_key(cursor)?;
    let sent = read_count(cursor)?;
    Ok(Own {
        secret,
        agreement,
        chain,
        sent,
    })
}

/// The keys of the epoch.
#[tactic(auto, unfolding(crate::specs::Fields::phase_field))]
pub fn read_phase<K: Kem>(cursor: &mut Cursor<'_>, side: Side, epoch: u32) -> Result<Phase, usize>
    ensures { Reads phase_seen (phase_field K.mechanism side epoch) cursor.old cursor.new result }
{
    laws::<K>();
    if side.owns(epoch) {
        let own = read_own::<K>(cursor, epoch)?;
        return Ok(Phase::Own(own));
    }
    let public = read_text(cursor, K::PUBLIC)?;
    Ok(Phase::Peers(public))
}

/// A stream that receives.
#[tactic(auto, unfolding(crate::specs::Fields::reception_fields))]
fn read_reception(cursor: &mut Cursor<'_>) -> Result<Reception, usize>
    ensures { Reads reception_seen reception_fields cursor.old cursor.new result }
{
    let chain = read_key(cursor)?;
    let reach = read_count(cursor)?;
    Ok(Reception { chain, reach })
}

/// The stream of the latest peer's epoch.
#[tactic(auto, unfolding(crate::specs::Fields::receiving_field))]
pub fn read_receiving(
    cursor: &mut Cursor<'_>,
    side: Side,
    epoch: u32,
) -> Result<Option<Reception>, usize>
    ensures { Reads (λ r. option_map reception_seen r)
        (receiving_field side epoch) cursor.old cursor.new result }
{
    if side.owns(epoch) && epoch == 0 {
        return Ok(None);
    }
    let reception = read_reception(cursor)?;
    Ok(Some(reception))
}

/// The reach of a stream, 0 where there is none.
pub fn reach_of(receiving: &Option<Reception>) -> u32
    ensures { result ≡ reach_of (option_map reception_seen receiving.now) }
{
    match receiving {
        Some(reception) => reception.reach,
        None => 0,
    }
}

/// Puts what an own epoch holds.
fn put_own(out: &mut [u8], at: usize, own: &Own) -> usize
    requires { at + length (own_text (own_seen own.now)) ≤ length out.old }
    ensures { Puts out.old out.new at (own_text (own_seen own.now)) result }
{
    let at_agreement = put(out, at, own.secret.as_slice());
    let at_chain = put(out, at_agreement, own.agreement.as_slice());
    let at_sent = put(out, at_chain, &own.chain.bytes);
    put_u32(out, at_sent, own.sent)
}

/// Puts the keys of the epoch.
pub fn put_phase(out: &mut [u8], at: usize, phase: &Phase) -> usize
    requires { at + length (phase_text (phase_seen phase.now)) ≤ length out.old }
    ensures { Puts out.old out.new at (phase_text (phase_seen phase.now)) result }
{
    match phase {
        Phase::Own(own) => put_own(out, at, own),
        Phase::Peers(public) => put(out, at, public.as_slice()),
    }
}

/// Puts the stream of the latest peer's epoch.
pub fn put_receiving(out: &mut [u8], at: usize, receiving: &Option<Reception>) -> usize
    requires { at + length (print_maybe reception_text (option_map reception_seen receiving.now))
        ≤ length out.old }
    ensures { Puts out.old out.new at
        (print_maybe reception_text (option_map reception_seen receiving.now)) result }
{
    match receiving {
        None => at,
        Some(reception) => {
            let at_reach = put(out, at, &reception.chain.bytes);
            put_u32(out, at_reach, reception.reach)
        }
    }
}
