//! What doesn't count is wiped: the other table, and the pages that no row has.

ghost use Rattle.std.specs.Prelude.{◌≡◌, ◌≢◌, ◌+◌, ◌-◌, ◌*◌, ◌≤◌, false, not, length, replicate, OnOk};
ghost use Rattle.dr_base.specs.declared.limits.TheConstants.{PAGE};
ghost use Rattle.dr_disk.specs.State.{Always, IsSettled, OnSeen};
ghost use Rattle.pages.specs.declared.layout.TheConstants.{OPEN};
ghost use Rattle.pages.specs.declared.rows.TheConstants.{ROW_PAGES as READ_PAGES};
ghost use Rattle.pages.specs.Clearing.{AreReadBlank, AreUnmarked, KeepsShots};
ghost use Rattle.pages.specs.Counted.{MakesAtMost, ReadsAtMost, lookings, one_of, tidyings};
ghost use Rattle.pages.specs.Judged.{AreTablesRead, table_with};
ghost use Rattle.pages.specs.Runs.{IsUntouched};
ghost use Rattle.pages.specs.Tables.{table_at};
ghost use Rattle.pages.specs.Tidying.{AreNamed, IsMute, IsTidied};
ghost use Rattle.book_store.specs.Layout.{book_layout};
ghost use Rattle.book_store.specs.Locating.{store_with};
ghost use Rattle.book_store.specs.Rows.{book_names};
ghost use Rattle.book_store.specs.Scratch.{HasTables};
ghost use Rattle.book_store.specs.Settling.{IsSettledBook, MaySettle, Settles};
ghost use Rattle.book_store.specs.declared.layout.TheConstants.{BOOK_ROWS, BOOK_TABLE, ROW_PAGES};

use crate::desk::Desk;
use crate::held::HeldRow;
use crate::layout::book_layout;
use crate::naming::mark_rows;
use crate::scratch::Scratch;
use crate::table::BookTable;
use dr_base::PAGE;
use dr_disk::{Call, Disk};
use pages::is_blank;

/// Wipes a table that doesn't count, and all pages without a mark. It was read with this gate, and
/// with these bytes after it.
fn wipe_table<D: Disk>(
    disk: &mut D,
    rows: u32,
    second: bool,
    gate: u8,
    body: &[u8],
    named: &[bool],
    room: &mut [u8],
    zeros: &[u8],
) -> Result<(), Call>
    requires few { rows ≤ BOOK_ROWS }
    requires ready { IsSettledBook rows (D.state disk.old) }
    requires long { length body.now + 1 ≡ BOOK_TABLE }
    requires marks { length named.now ≡ ROW_PAGES * BOOK_ROWS }
    requires room { length room.old ≡ PAGE * READ_PAGES }
    requires zero { zeros.now ≡ replicate (BOOK_TABLE - 1) 0 }
    requires read { OnSeen (λ s. table_at (book_layout rows) second s ≡ table_with gate body.now)
        (D.state disk.old) }
    requires counts { Always (AreNamed book_names (book_layout rows)) (D.state disk.old) }
    requires unnamed { AreUnmarked book_names (book_layout rows) named.now (D.state disk.old) }
    requires mute { gate ≡ OPEN → Always (IsMute (book_layout rows) second) (D.state disk.old) }
    ensures shots { KeepsShots book_names (book_layout rows)
        (D.state disk.old) (D.state disk.new) result }
    ensures done { OnOk result (Always
        (IsTidied (book_layout rows) second named.now (D.state disk.old)) (D.state disk.new)) }
    ensures settled { OnOk result (IsSettled (D.state disk.new)) }
    ensures still { gate ≡ 0 → body.now ≡ replicate (BOOK_TABLE - 1) 0
        → AreReadBlank (book_layout rows) named.now (D.state disk.old)
        → IsUntouched (D.state disk.old) (D.state disk.new) }
    ensures reads { ReadsAtMost (lookings (book_layout rows))
        (D.state disk.old) (D.state disk.new) }
    ensures few { MakesAtMost (tidyings (book_layout rows)) one_of
        (D.state disk.old) (D.state disk.new) result }
{
    let _size = disk.size();
    let blank = is_blank(body);
    match pages::tidy::<BookTable, D>(
        disk,
        book_layout(rows),
        second,
        gate,
        blank,
        named,
        room,
        &zeros[..PAGE],
        zeros,
    ) {
        Ok(()) => Ok(()),
        Err(call) => Err(call),
    }
}

/// Wipes what doesn't count beside these rows: the other table, which was read with this gate and
/// with these bytes after it, and all pages that no row has.
fn settle_newer<D: Disk>(
    disk: &mut D,
    desk: &Desk,
    rows: &[HeldRow],
    gate: u8,
    other: &[u8],
    named: &mut [bool],
    room: &mut [u8],
    zeros: &[u8],
) -> Result<(), Call>
    requires settling { MaySettle (store_with desk.now rows.now) (D.state disk.old) }
    requires all { length rows.now ≡ BOOK_ROWS }
    requires turn { desk.now.turn ≢ 0 }
    requires long { length other.now + 1 ≡ BOOK_TABLE }
    requires marks { named.old ≡ replicate (ROW_PAGES * BOOK_ROWS) false }
    requires room { length room.old ≡ PAGE * READ_PAGES }
    requires zero { zeros.now ≡ replicate (BOOK_TABLE - 1) 0 }
    requires read { OnSeen (λ s. table_at (book_layout desk.now.rows) (not desk.now.second) s
        ≡ table_with gate other.now) (D.state disk.old) }
    ensures { Settles (store_with desk.now rows.now) (D.state disk.old) (D.state disk.new) result }
{
    mark_rows(rows, named);
    wipe_table(
        disk,
        desk.rows,
        !desk.second,
        gate,
        other,
        named,
        room,
        zeros,
    )
}

/// Wipes all of a book of which no table is open.
fn settle_empty<D: Disk>(
    disk: &mut D,
    desk: &Desk,
    held: &[HeldRow],
    first_gate: u8,
    first: &[u8],
    second_gate: u8,
    second: &[u8],
    named: &[bool],
    room: &mut [u8],
    zeros: &[u8],
) -> Result<(), Call>
    requires settling { MaySettle (store_with desk.now held.now) (D.state disk.old) }
    requires turn { desk.now.turn ≡ 0 }
    requires first_long { length first.now + 1 ≡ BOOK_TABLE }
    requires second_long { length second.now + 1 ≡ BOOK_TABLE }
    requires marks { named.now ≡ replicate (ROW_PAGES * BOOK_ROWS) false }
    requires room { length room.old ≡ PAGE * READ_PAGES }
    requires zero { zeros.now ≡ replicate (BOOK_TABLE - 1) 0 }
    requires read { AreTablesRead (book_layout desk.now.rows) (table_with first_gate first.now)
        (table_with second_gate second.now) (D.state disk.old) }
    ensures { Settles (store_with desk.now held.now) (D.state disk.old) (D.state disk.new) result }
{
    let rows = desk.rows;
    match wipe_table(disk, rows, false, first_gate, first, named, room, zeros) {
        Ok(()) => {}
        Err(call) => return Err(call),
    }
    wipe_table(disk, rows, true, second_gate, second, named, room, zeros)
}

/// Wipes what doesn't count beside these rows, or all where no table is open. Both tables were
/// read, with these gates.
pub(crate) fn settle<D: Disk>(
    disk: &mut D,
    desk: &Desk,
    rows: &[HeldRow],
    first_gate: u8,
    second_gate: u8,
    scratch: &mut Scratch,
    zeros: &[u8],
) -> Result<(), Call>
    requires settling { MaySettle (store_with desk.now rows.now) (D.state disk.old) }
    requires all { length rows.now ≡ BOOK_ROWS }
    requires tables { HasTables desk.now.rows first_gate second_gate scratch.old
        (D.state disk.old) }
    requires zero { zeros.now ≡ replicate (BOOK_TABLE - 1) 0 }
    ensures { Settles (store_with desk.now rows.now) (D.state disk.old) (D.state disk.new) result }
{
    let Scratch {
        first,
        second,
        room,
        named,
    } = scratch;
    if desk.turn == 0 {
        return settle_empty(
            disk,
            desk,
            rows,
            first_gate,
            first,
            second_gate,
            second,
            named,
            room,
            zeros,
        );
    }
    if desk.second {
        settle_newer(disk, desk, rows, first_gate, first, named, room, zeros)
    } else {
        settle_newer(disk, desk, rows, second_gate, second, named, room, zeros)
    }
}
