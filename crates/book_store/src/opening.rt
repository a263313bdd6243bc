//! Opening a book: a sync, the reading of both tables and of the rows' records, and the wiping of
//! all else.

ghost use Rattle.std.specs.Prelude.{◌≡◌, ◌≢◌, ◌-◌, ◌≤◌, [], IfErr, IfOk, OnOk, replicate, vec_capacity};
ghost use Rattle.dr_disk.specs.declared.call.Call.{Call};
ghost use Rattle.dr_disk.specs.State.{Fate, IsSettled, OnSeen};
ghost use Rattle.dr_disk.specs.Spans.{FailsLater, IsQuiet, Span};
ghost use Rattle.pages.specs.Counted.{MakesAtMost, ReadsAtMost};
ghost use Rattle.book_store.specs.Counts.{faulted, opening_reads, openings};
ghost use Rattle.book_store.specs.Layout.{HasBook};
ghost use Rattle.book_store.specs.LikeRead.{IsEntryOrLikeBook, IsLikeReadBook};
ghost use Rattle.book_store.specs.Opened.{IsBookLeft, IsBookOpened, IsBookReadAtRest, IsBookRefused, IsLookedAt};
ghost use Rattle.book_store.specs.Outcome.{IsWhole, OpensBook, opening_answer};
ghost use Rattle.book_store.specs.Readers.{HaveReadRows};
ghost use Rattle.book_store.specs.Scratch.{HasTables, IsScratch};
ghost use Rattle.book_store.specs.declared.layout.TheConstants.{BOOK_ROWS, BOOK_TABLE};

use crate::errors::BookOpenError;
use crate::layout::BOOK_ROWS;
use crate::locating::{Located, locate};
use crate::reading::settle_and_read;
use crate::row_grammar::RowGrammar;
use crate::scratch::Scratch;
use crate::settling::settle;
use crate::store::{BookStore, Rooms};
use dr_disk::{Call, Disk};
use std::alloc::{AllocError, Global};

/// The rooms of a store, what opening needs besides, and room for the rows' readers.
fn take_all<G: RowGrammar + Drop>(
    alloc: Global,
) -> Result<(Rooms, Scratch, Vec<Option<G>>), AllocError>
    ensures scratch { IfOk result (λ memory. IsScratch memory.1) }
    ensures none { IfOk result (λ memory. memory.2.items ≡ []) }
    ensures room { IfOk result (λ memory. BOOK_ROWS ≤ vec_capacity memory.2) }
{
    let rooms = Rooms::take(alloc)?;
    let scratch = Scratch::take(alloc)?;
    let readers = Vec::with_capacity(alloc, BOOK_ROWS as usize)?;
    Ok((rooms, scratch, readers))
}

/// Opens a book whose tables were read, with these gates: what counts is held, and all else is
/// wiped.
fn open_read<G: RowGrammar + Drop, D: Disk>(
    alloc: Global,
    disk: &mut D,
    count: u32,
    first_gate: u8,
    second_gate: u8,
    scratch: &mut Scratch,
    zeros: &[u8],
    readers: &mut Vec<Option<G>>,
) -> Result<Located, Call>
    requires few { count ≤ BOOK_ROWS }
    requires settled { IsSettled (D.state disk.old) }
    requires tables { HasTables count first_gate second_gate scratch.old (D.state disk.old) }
    requires zero { zeros.now ≡ replicate (BOOK_TABLE - 1) 0 }
    requires none { readers.old.items ≡ [] }
    requires room { BOOK_ROWS ≤ vec_capacity readers.old }
    ensures { OpensBook G.fault_at G.has_read count readers.new.items
        (D.state disk.old) (D.state disk.new) result }
{
    let located = locate(
        alloc,
        disk,
        count,
        first_gate,
        second_gate,
        scratch,
        readers,
    );
    let (desk, rows) = match located {
        Ok(Located::Held { desk, rows }) => (desk, rows),
        Ok(Located::Refused { error }) => return Ok(Located::Refused { error }),
        Err(call) => return Err(call),
    };
    match settle(disk, &desk, &rows, first_gate, second_gate, scratch, zeros) {
        Ok(()) => Ok(Located::Held { desk, rows }),
        Err(call) => Err(call),
    }
}

/// What callers are told.
fn answer<V: Drop>(
    outcome: Result<Located, Call>,
    rooms: Rooms,
    readers: V,
) -> Result<(BookStore, V), BookOpenError>
    requires { IfOk outcome IsWhole }
    ensures { result ≡ opening_answer outcome readers }
{
    match outcome {
        Ok(Located::Held { desk, rows }) => Ok((BookStore::of_rows(desk, rows, rooms), readers)),
        Ok(Located::Refused { error }) => Err(error),
        Err(call) => Err(BookOpenError::StoreFault { call }),
    }
}

impl BookStore {
    /// Opens the store of a book of so many rows: a sync, the reading of both tables and of the
    /// record of each present row, and the wiping of all that doesn't count. Each record is read
    /// once, by a reader that is made for it. Where no table is open all rows are absent, and the
    /// first commit will use table 0 and turn 1.
    pub fn open<G: RowGrammar + Drop, D: Disk>(
        alloc: Global,
        disk: &mut D,
        rows: u32,
    ) -> Result<(BookStore, Vec<Option<G>>), BookOpenError>
        requires few { rows ≤ BOOK_ROWS }
        requires within { HasBook rows (D.state disk.old) }

        // What was read. Meanwhile, and in each ending, crashes and reads give what they gave, but
        // for what was tidied.
        ensures opened { IfOk result (λ both. IsBookOpened G.fault_at rows
            (D.state disk.old) (D.state disk.new) both.0) }
        ensures read { IfOk result (λ both. HaveReadRows G.has_read both.1.items both.0.held) }
        ensures any_moment { Span (D.state disk.old) (D.state disk.new)
            (IsEntryOrLikeBook rows (D.state disk.old)) }
        ensures reads { OnSeen (IsLikeReadBook rows (D.state disk.old)) (D.state disk.new) }

        // A book that was read at rest is left as it is, after one sync.
        ensures still { IsBookReadAtRest rows (D.state disk.old) → IsBookLeft
            (D.state disk.old) (D.state disk.new) result }

        // However it ends, reads are bounded, and so are writes and syncs, the one that failed
        // among them.
        ensures looked { ReadsAtMost (opening_reads rows) (D.state disk.old) (D.state disk.new) }
        ensures few { MakesAtMost (openings rows) faulted
            (D.state disk.old) (D.state disk.new) result }

        // Each refusal has its cause.
        ensures refused { IfErr result (IsBookRefused G.fault_at rows
            (D.state disk.old) (D.state disk.new)) }
        ensures memory { IfErr result (λ e. e ≡ BookOpenError.Memory
            → IsLookedAt (D.state disk.old) (D.state disk.new)) }
        ensures quiet { OnOk result (IsQuiet (D.state disk.old) (D.state disk.new)) }
        ensures ahead { OnOk result (FailsLater (D.state disk.old) (D.state disk.new)) }
        ensures fate { (D.state disk.old).fate ≡ Fate.all_pass →
            IfErr result (λ e. (call : Call) → e ≢ BookOpenError.StoreFault call)
            × ((D.state disk.new).fate ≡ Fate.all_pass) }
    {
        let _size = disk.size();
        let Ok((rooms, mut scratch, mut readers)) = take_all::<G>(alloc) else {
            return Err(BookOpenError::Memory);
        };
        let (first_gate, second_gate) = match settle_and_read(disk, rows, &mut scratch) {
            Ok(gates) => gates,
            Err(call) => return Err(BookOpenError::StoreFault { call }),
        };
        let outcome = open_read(
            alloc,
            disk,
            rows,
            first_gate,
            second_gate,
            &mut scratch,
            &rooms.zeros,
            &mut readers,
        );
        answer(outcome, rooms, readers)
    }
}
