//! Where a book lies on its disk. Each limit is said once, here.

ghost use Rattle.std.specs.Prelude.{◌≡◌, ◌≤◌};
ghost use Rattle.book_store.specs.Layout.{book_layout};
ghost use Rattle.book_store.specs.Limits.{HasLimits};
ghost use Rattle.book_store.specs.declared.layout.TheConstants.{BOOK_ROWS};

use dr_base::PAGE;
use pages::{LOWER_PAGES, Layout};
use relay_wire::NAME_LIMIT;

/// The most rows of a book. Its tables have a place for each of them.
pub const BOOK_ROWS: u32 = 32;

/// How many pages a row has. They are numbered from 0.
pub const ROW_PAGES: u32 = 384;

/// The most pages of a row's record.
pub const ROW_MOST: u32 = 190;

/// How many bytes a table has.
pub const BOOK_TABLE: u32 = 5 * PAGE as u32;

/// How many bytes of a table a row has. As many stand before the first row.
pub const TABLE_ROW: usize = 512;

/// From which of these bytes on they are the table of the row's record. The first of that table,
/// where a record's own table has its turn, is the last byte of the name.
pub const RECORD_PLACE: usize = 1 + NAME_LIMIT;

/// Where the first row's pages begin.
pub const BOOK_START: u64 = 65_536;

/// How many bytes the pages of a row have.
pub const ROW_SIZE: u64 = PAGE as u64 * ROW_PAGES as u64;

/// How many bytes a disk has for a book of `BOOK_ROWS` rows.
pub const BOOK_SIZE: u64 = BOOK_START + ROW_SIZE * BOOK_ROWS as u64;

/// The tables and pages of a book of so many rows. Page p of row s has the number
/// `ROW_PAGES` s + p.
pub(crate) fn book_layout(rows: u32) -> Layout
    requires { rows ≤ BOOK_ROWS }
    ensures { result ≡ book_layout rows }
{
    Layout {
        first: 0,
        second: BOOK_TABLE as u64,
        table: BOOK_TABLE,
        lower: BOOK_START,
        upper: BOOK_START + PAGE as u64 * LOWER_PAGES as u64,
        least: 0,
        count: ROW_PAGES * rows,
    }
}

/// The limits of this crate as numbers. The function has no code.
pub fn limits_in_numbers()
    ensures { HasLimits }
{}
