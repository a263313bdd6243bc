//! A row's session says a text: its record is staged first, and once it is committed the session
//! says it.

ghost use Rattle.std.specs.Prelude.{◌≡◌, ◌<◌, IsOk, List, Ok, Option, is_some, take};
ghost use Rattle.book_store.specs.Committing.{ReadsOutsideBook, StagesRow, call_of};
ghost use Rattle.book_store.specs.Kept.{row_bounds};
ghost use Rattle.book_store.specs.Shown.{BookRow};
ghost use Rattle.book_store.specs.Staging.{IsStagedOver, MayStage};
ghost use Rattle.book_store.specs.Store.{IsNewName, IsUnstaged, with_row, writes_at};
ghost use Rattle.dr_disk.specs.Called.{Called};
ghost use Rattle.dr_disk.specs.declared.call.Call.TheVariants.{Write};
ghost use Rattle.pages.specs.Runs.{FailsBy, only};
ghost use Rattle.paged_records.specs.Bounded.{HasRecordMemory, HasText};
ghost use Rattle.ratchet.specs.Seen.{seed_bytes};
ghost use Rattle.session_model.specs.Clients.{say_check, say_on};
ghost use Rattle.session_model.specs.Contents.{text_content};
ghost use Rattle.session_record.specs.Record.{record_text};
ghost use Rattle.book.specs.Fans.{Says, said_next};

use crate::keeping::write_draft;
use crate::row::Row;
use crate::seat::Seated;
use book_store::{BookStore, StoreFault};
use boxes::TEXT_KIND;
use client::Draft;
use dr_base::Key32;
use dr_disk::Disk;
use kem_laws::Kem;
use ratchet::PacketRoom;

/// Writes the record that a session has once it said a text, which it may, with this seed, and
/// answers its length.
fn write_said<K: Kem>(
    core: &mut Seated<K>,
    text: &[u8],
    seed: Option<Key32>,
    room: &mut Vec<u8>,
) -> usize
    requires checked { say_check core.old (text_content text.now) ≡ Ok (is_some seed) }
    requires said { IsOk (say_on K.mechanism core.old (text_content text.now) (seed_bytes seed)) }
    requires room { HasRecordMemory row_bounds room.old }
    ensures same { core.new ≡ core.old }
    ensures text { HasText row_bounds room.new result }
    ensures written { take result room.new.items
        ≡ record_text (said_next K.mechanism text.now core.old seed) }
{
    let mut packet = PacketRoom::new();
    match core.draft_say(TEXT_KIND, text, seed, &mut packet) {
        Err(_) => unreachable!(),
        Ok(said) => {
            let draft = Draft::Said(said);
            let len = write_draft(core.core(), &draft, room);
            draft.discard();
            len
        }
    }
}

/// Stages the record that a session has once it said a text, which it may, with this seed.
pub(super) fn stage_said<K: Kem, D: Disk>(
    row: &mut Row<K>,
    at: usize,
    text: &[u8],
    seed: Option<Key32>,
    store: &mut BookStore,
    room: &mut Vec<u8>,
    disk: &mut D,
) -> Result<(), StoreFault>
    requires says { Says K.mechanism text.now row.old.kept seed }
    requires inside { at < store.old.rows }
    requires once { IsUnstaged store.old at }
    requires name { IsNewName store.old at row.old.name }
    requires may { MayStage store.old (D.state disk.old) }
    requires room { HasRecordMemory row_bounds room.old }
    ensures same { row.new ≡ row.old }
    ensures next { store.new ≡ with_row store.old at row.old.name
        (record_text (said_next K.mechanism text.now row.old.kept seed)) }
    ensures stages { (standing : List (Option BookRow))
        → IsStagedOver store.old standing (D.state disk.old)
        → StagesRow store.new standing (D.state disk.old) (D.state disk.new) result }
    ensures reads { ReadsOutsideBook store.old.rows (D.state disk.old) (D.state disk.new) }
    ensures calls { Called (writes_at store.old at
        (record_text (said_next K.mechanism text.now row.old.kept seed))) call_of
        (D.state disk.old) (D.state disk.new) result }
    ensures kind { FailsBy call_of (only Write) (D.state disk.old) (D.state disk.new) result }
    ensures room { HasRecordMemory row_bounds room.new }
{
    let len = write_said(&mut row.core, text, seed, room);
    store.stage(disk, at, row.name.copied(), room, len)
}

/// A session says a text, which it may, with this seed.
pub(super) fn accept_said<K: Kem>(row: &mut Row<K>, text: &[u8], seed: Option<Key32>)
    requires { Says K.mechanism text.now row.old.kept seed }
    ensures { row.new ≡ record {
      name = row.old.name;
      kept = said_next K.mechanism text.now row.old.kept seed;
    } }
{
    let mut packet = PacketRoom::new();
    match row.core.draft_say(TEXT_KIND, text, seed, &mut packet) {
        Err(_) => unreachable!(),
        Ok(draft) => row.core.accept(Draft::Said(draft)),
    }
}
