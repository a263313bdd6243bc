//! Pages that lie in a row, which are read at once.

ghost use Rattle.std.specs.Prelude.{◌≡◌, ◌+◌, ◌*◌, ◌<◌, ◌≤◌, ℕ, List, length, OnOk};
ghost use Rattle.dr_base.specs.declared.limits.TheConstants.{PAGE};
ghost use Rattle.dr_disk.specs.State.{OnSeen};
ghost use Rattle.pages.specs.Layouts.{IsPage, IsSound};
ghost use Rattle.pages.specs.declared.rows.TheConstants.{ROW_PAGES};
ghost use Rattle.pages.specs.Rows.{IsRow, row_page};
ghost use Rattle.pages.specs.Runs.{ReadsAlone};
ghost use Rattle.pages.specs.Snapshots.{page_of};

use crate::layout::{LOWER_PAGES, Layout, page_at};
use dr_base::PAGE;
use dr_disk::{Call, Disk};

/// The most pages that are read at once.
pub const ROW_PAGES: u32 = 16;

/// Which pages were read ahead, and a place from which on the disk has zeros.
#[derive(Drop)]
pub(crate) struct Ahead {
    pub(crate) first: u32,
    pub(crate) count: u32,
    pub(crate) end: u64,
    ghost few: { count ≤ ROW_PAGES },
}

/// How many pages without a mark lie in a row from one on, of those that are read at once.
pub(crate) fn row_from(layout: Layout, named: &[bool], number: u32) -> u32
    requires page { IsPage layout number }
    requires marks { layout.count ≤ length named.now }
    ensures row { IsRow layout number result }
    ensures few { result ≤ ROW_PAGES }
{
    let end = if number < LOWER_PAGES {
        layout.count.min(LOWER_PAGES)
    } else {
        layout.count
    };
    let most = ROW_PAGES.min(end - number);
    'pages: for count in 1..most {
        if named[(number + count) as usize] {
            return count;
        }
    }
    most
}

/// Reads pages that lie in a row.
pub(crate) fn read_row<D: Disk>(
    disk: &mut D,
    layout: Layout,
    number: u32,
    count: u32,
    into: &mut [u8],
) -> Result<(), Call>
    requires sound { IsSound layout (D.state disk.old).size }
    requires row { IsRow layout number count }
    requires long { PAGE * count ≤ length into.old }
    ensures pages { OnOk result (OnSeen (λ s. (j : ℕ) → j < count
        → row_page into.new j ≡ page_of layout s (number + j)) (D.state disk.old)) }
    ensures long { length into.new ≡ length into.old }
    ensures looks { ReadsAlone 1 (D.state disk.old) (D.state disk.new) result }
{
    let at = page_at(layout, number);
    let Ok(()) = disk.read(at, &mut into[..PAGE * count as usize]) else {
        return Err(Call::Read);
    };
    Ok(())
}
