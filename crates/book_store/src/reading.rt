//! Both tables as they stand, for opening after a sync.

ghost use Rattle.std.specs.Prelude.{◌≡◌, ◌≤◌, ◌+◌, false, true, length, IfOk, OnOk};
ghost use Rattle.dr_disk.specs.declared.call.Call.TheVariants.{Sync};
ghost use Rattle.dr_disk.specs.State.{IsSettled, OnSeen};
ghost use Rattle.dr_disk.specs.Spans.{GoesBy, HavePassed, Span};
ghost use Rattle.dr_disk.specs.Calls.{Goes, HasFault, HasNotRead, Unwritten};
ghost use Rattle.dr_disk.specs.Called.{Went, itself};
ghost use Rattle.pages.specs.Layouts.{table_place};
ghost use Rattle.pages.specs.Tables.{table_at};
ghost use Rattle.pages.specs.Counted.{MakesAtMost, ReadsAtMost, one_of};
ghost use Rattle.pages.specs.Finds.{Finds};
ghost use Rattle.pages.specs.Judged.{table_with};
ghost use Rattle.book_store.specs.Layout.{HasBook, book_layout};
ghost use Rattle.book_store.specs.Scratch.{HasTables, IsScratch};
ghost use Rattle.book_store.specs.declared.layout.TheConstants.{BOOK_ROWS, BOOK_TABLE};

use crate::layout::book_layout;
use crate::scratch::Scratch;
use dr_base::Failed;
use dr_disk::{Call, Disk};

/// Where a table begins.
fn place(rows: u32, second: bool) -> u64
    requires { rows ≤ BOOK_ROWS }
    ensures { result ≡ table_place (book_layout rows) second }
{
    let layout = book_layout(rows);
    if second { layout.second } else { layout.first }
}

/// Reads a table. Answers its gate, and fills in all after it.
fn read_table<D: Disk>(
    disk: &mut D,
    rows: u32,
    second: bool,
    body: &mut Vec<u8>,
) -> Result<u8, Call>
    requires few { rows ≤ BOOK_ROWS }
    requires within { HasBook rows (D.state disk.old) }
    requires long { length body.old.items + 1 ≡ BOOK_TABLE }
    ensures table { Finds 2 (λ disk gate. OnSeen (λ s. table_at (book_layout rows) second s
        ≡ table_with gate body.new.items) disk) (D.state disk.old) (D.state disk.new) result }
    ensures long { length body.new.items + 1 ≡ BOOK_TABLE }
{
    let at = place(rows, second);
    let mut gate = [0];
    let Ok(()) = disk.read(at, &mut gate) else {
        return Err(Call::Read);
    };
    let Ok(()) = disk.read(at + 1, body) else {
        return Err(Call::Read);
    };
    Ok(gate[0])
}

/// The first sync: from then on a crash leaves what is read.
fn settle_first<D: Disk>(disk: &mut D) -> Result<(), Failed>
    ensures settled { OnOk result (IsSettled (D.state disk.new)) }
    ensures passes { GoesBy (D.state disk.old) (D.state disk.new) }
    ensures unwritten { Unwritten (D.state disk.old) (D.state disk.new) }
    ensures told { Goes (D.state disk.old) (D.state disk.new) result }
    ensures unread { HasNotRead (D.state disk.old) (D.state disk.new) }
    ensures cause { HasFault Sync (D.state disk.old) (D.state disk.new) result }
{
    disk.sync()
}

/// Reads both tables. Answers their gates, and fills in all after them.
fn read_tables<D: Disk>(disk: &mut D, rows: u32, scratch: &mut Scratch) -> Result<(u8, u8), Call>
    requires few { rows ≤ BOOK_ROWS }
    requires within { HasBook rows (D.state disk.old) }
    requires scratch { IsScratch scratch.old }
    ensures { Finds 4 (λ disk gates. HasTables rows gates.0 gates.1 scratch.new disk)
        (D.state disk.old) (D.state disk.new) result }
{
    let first_gate = match read_table(disk, rows, false, &mut scratch.first) {
        Ok(gate) => gate,
        Err(call) => return Err(call),
    };
    match read_table(disk, rows, true, &mut scratch.second) {
        Ok(second_gate) => Ok((first_gate, second_gate)),
        Err(call) => Err(call),
    }
}

/// Syncs, and reads both tables.
pub(crate) fn settle_and_read<D: Disk>(
    disk: &mut D,
    rows: u32,
    scratch: &mut Scratch,
) -> Result<(u8, u8), Call>
    requires few { rows ≤ BOOK_ROWS }
    requires within { HasBook rows (D.state disk.old) }
    requires scratch { IsScratch scratch.old }
    ensures tables { IfOk result (λ gates. HasTables rows gates.0 gates.1 scratch.new
        (D.state disk.new)) }
    ensures any_moment { Span (D.state disk.old) (D.state disk.new) (D.state disk.old).image }
    ensures unwritten { Unwritten (D.state disk.old) (D.state disk.new) }
    ensures settled { OnOk result (IsSettled (D.state disk.new)) }
    ensures passed { OnOk result (HavePassed 1 (D.state disk.old) (D.state disk.new)) }
    ensures calls { Went itself (D.state disk.old) (D.state disk.new) result }
    ensures few { MakesAtMost 1 one_of (D.state disk.old) (D.state disk.new) result }
    ensures reads { ReadsAtMost 4 (D.state disk.old) (D.state disk.new) }
{
    let Ok(()) = settle_first(disk) else {
        return Err(Call::Sync);
    };
    match read_tables(disk, rows, scratch) {
        Ok(gates) => Ok(gates),
        Err(call) => Err(call),
    }
}
