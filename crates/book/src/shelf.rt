//! All rows of a book with their store, of which one is in use: it keeps its session as a client
//! does.

ghost use Rattle.std.specs.Prelude.{◌≡◌, ◌<◌, IfSome, MatchOption, None, Ok, Some, length, true};
ghost use Rattle.book_model.specs.Rows.{is_full, under};
ghost use Rattle.dr_model.specs.Machines.Steps.{has_effect};
ghost use Rattle.client.specs.Acting.{IsKeeperAct};
ghost use Rattle.client.specs.Drafting.{IsDraftOf, drafted_answer, drafted_step};
ghost use Rattle.client.specs.Keepings.{HoldsKept, IsKeeperOpen};
ghost use Rattle.client.specs.Outcomes.{kept_as};
ghost use Rattle.book.specs.Naming.{IsFree, IsPlaceOf};
ghost use Rattle.book.specs.RowKeepings.{row_keeping};

use crate::keeping::keep_row;
use crate::row::{Row, core_of, draft_say_in, draft_take_in, find, find_free};
use book_store::{BookStore, resting_books};
use client::{Core, Draft, Keeper};
use dr_base::Key32;
use dr_disk::{Call, Disk};
use kem_laws::Kem;
use ratchet::{NoPairFor, OpeningRoom, PacketRoom, ReceiveDraft, SendDraft};
use session_model::Refusal;
use std::marker::Model;
use std::mem::replace;

/// The rows and their store, and the row in use. A contract sees the book, and which row it is.
#[derive(Drop)]
pub(crate) struct Shelf<K: Kem> {
    pub(crate) rows: Vec<Option<Row<K>>>,
    pub(crate) store: BookStore,
    /// The room in which a record is put together. It is made long before one is.
    pub(crate) text: Vec<u8>,
    pub(crate) closed: Option<Call>,
    pub(crate) at: usize,
}

impl<K: Kem> Model for Shelf<K> {
    ghost use Rattle.std.specs.Prelude.{◌≡◌, ◌≤◌, length};
    ghost use Rattle.book_store.specs.declared.layout.TheConstants.{BOOK_ROWS};
    ghost use Rattle.book_store.specs.Kept.{row_bounds};
    ghost use Rattle.paged_records.specs.Bounded.{HasRecordMemory};
    ghost use Rattle.book.specs.Naming.{IsFree, IsPlaceOf};
    ghost use Rattle.book.specs.RowKeepings.{RowNow};

    ghost Value = { RowNow };

    ghost view = { λ s. record {
      book = record { rows = s.rows.items; store = s.store; closed = s.closed };
      at = s.at;
    } };

    ghost invariant = { λ s. HasRecordMemory row_bounds s.text
        × (length s.rows.items ≡ s.store.rows) × (length s.rows.items ≤ BOOK_ROWS) };
}

impl<K: Kem> Shelf<K> {
    /// The place of the row of a name; nothing exactly where no row has it.
    pub(crate) fn place(&self, name: &str) -> Option<usize>
        ensures { MatchOption result (under name.now self.now.book.rows ≡ None)
            (IsPlaceOf name.now self.now.book.rows) }
    {
        match find(&self.rows, name.as_bytes()) {
            Some(at) => Some(at),
            None => None,
        }
    }

    /// The lowest absent row; nothing exactly where all are present.
    pub(crate) fn free(&self) -> Option<usize>
        ensures free { MatchOption result (is_full self.now.book.rows ≡ true)
            (IsFree self.now.book.rows) }
        ensures inside { IfSome result (λ at. at < self.now.book.store.rows) }
    {
        match find_free(&self.rows) {
            Some(at) => Some(at),
            None => None,
        }
    }

    /// How many rows there may be.
    pub(crate) fn count(&self) -> u32
        ensures { result ≡ length self.now.book.rows }
    {
        self.rows.len() as u32
    }

    /// The session of a name; nothing exactly where no row has it.
    pub(crate) fn look(&self, name: &str) -> Option<&Core<K>>
        ensures { MatchOption result (under name.now self.now.book.rows ≡ None)
            (λ core. under name.now self.now.book.rows ≡ Some core.now) }
    {
        match find(&self.rows, name.as_bytes()) {
            Some(at) => Some(core_of(&self.rows[at])),
            None => None,
        }
    }

    /// Takes a row into use.
    pub(crate) fn use_row(&mut self, at: usize)
        ensures { self.new ≡ record { book = self.old.book; at = at } }
    {
        self.at = at;
    }

    /// Keeps what was drafted of the row in use. A call on the disk that fails closes the book.
    // Inlined, so that the draft stays where it is.
    #[inline(always)]
    fn keep<D: Disk>(&mut self, disk: &mut D, draft: Draft<'_, K>) -> Result<(), Call>
        requires draft { IsDraftOf K.mechanism (row_keeping.kept self.old) draft }
        requires effect { has_effect (drafted_answer draft) ≡ true }
        requires open { IsKeeperOpen row_keeping self.old (D.state disk.old) }
        ensures { IsKeeperAct row_keeping D.state
            (Ok (drafted_step (row_keeping.kept self.old) draft.entry))
            self.old self.new disk.old disk.new (kept_as (drafted_answer draft.entry) result) }
    {
        resting_books();
        let at = self.at;
        let row = &mut self.rows[at];
        match keep_row(row, at, &mut self.store, &mut self.text, disk, draft) {
            Ok(()) => Ok(()),
            Err(fault) => {
                self.closed = Some(fault.call);
                Err(fault.call)
            }
        }
    }
}

impl<K: Kem> Keeper<K> for Shelf<K> {
    ghost keeping = { row_keeping };

    fn core(&self) -> &Core<K> {
        core_of(&self.rows[self.at])
    }

    fn closed(&self) -> Option<Call> {
        self.closed
    }

    // Inlined, so that the draft is built where the caller keeps it.
    #[inline(always)]
    fn draft_say<'a>(
        &mut self,
        kind: u8,
        text: &[u8],
        seed: Option<Key32>,
        room: &'a mut PacketRoom,
    ) -> Result<SendDraft<'a, K>, NoPairFor> {
        let row = &mut self.rows[self.at];
        draft_say_in(row, kind, text, seed, room)
    }

    #[inline(always)]
    fn draft_take<'a>(
        &mut self,
        packet: &[u8],
        room: &'a mut OpeningRoom,
    ) -> Result<ReceiveDraft<'a, K>, Refusal> {
        let row = &mut self.rows[self.at];
        draft_take_in(row, packet, room)
    }

    #[inline(always)]
    fn keep_drafted<D: Disk>(
        &mut self,
        disk: &mut D,
        draft: &mut Option<Draft<'_, K>>,
    ) -> Result<(), Call>
        requires draft { IfSome draft.old (IsDraftOf K.mechanism (row_keeping.kept self.old)) }
        requires effect { IfSome draft.old (λ d. has_effect (drafted_answer d) ≡ true) }
        requires open { IsKeeperOpen row_keeping self.old (D.state disk.old) }
        ensures { IfSome draft.old (λ d.
            IsKeeperAct row_keeping D.state (Ok (drafted_step (row_keeping.kept self.old) d))
            self.old self.new disk.old disk.new (kept_as (drafted_answer d) result)) }
    {
        match replace(draft, None) {
            Some(draft) => self.keep(disk, draft),
            None => Ok(()),
        }
    }

    fn is_there<D: Disk>(&self, disk: &D)
        requires { row_keeping.ready self.now (D.state disk.now) }
        ensures { row_keeping.there self.now }
    {}

    fn holds<D: Disk>()
        ensures { (disk : D) → HoldsKept row_keeping (D.state disk) }
    {
        resting_books();
    }
}
