//! Pages that lie in a row are read at once, and looked at one after the other.

ghost use Rattle.std.specs.Prelude.{◌≡◌, ◌+◌, ◌*◌, ◌<◌, ◌≤◌, ◌↔◌, ℕ, List, length, IfOk, IsTrue, OnOk};
ghost use Rattle.dr_base.specs.declared.limits.TheConstants.{PAGE};
ghost use Rattle.dr_disk.specs.State.{OnSeen};
ghost use Rattle.pages.specs.Ahead.{IsAhead, IsHeld};
ghost use Rattle.pages.specs.Layouts.{IsPage, IsSound, blank_page};
ghost use Rattle.pages.specs.Rows.{row_page};
ghost use Rattle.pages.specs.Runs.{ReadsAlone};
ghost use Rattle.pages.specs.Snapshots.{page_of};

use crate::layout::{Layout, page_at};
use crate::page::is_blank;
use crate::rows::{Ahead, ROW_PAGES, read_row, row_from};
use dr_base::PAGE;
use dr_disk::{Call, Disk};

/// No page was read yet.
pub(crate) fn none_ahead<D: Disk>(disk: &mut D, layout: Layout) -> Result<Ahead, Call>
    requires { IsSound layout (D.state disk.old).size }
    ensures ahead { (bytes : List ℕ) → IfOk result (λ ahead.
        OnSeen (IsAhead layout layout.least ahead bytes) (D.state disk.old)) }
    ensures looks { ReadsAlone 1 (D.state disk.old) (D.state disk.new) result }
{
    let Ok(end) = disk.end() else {
        return Err(Call::Read);
    };
    Ok(Ahead {
        first: 0,
        count: 0,
        end,
    })
}

/// Whether a page was read ahead.
fn is_held(ahead: &Ahead, number: u32) -> bool
    ensures { IsTrue result ↔ IsHeld ahead.now number }
{
    ahead.first <= number && number - ahead.first < ahead.count
}

/// Reads a page, with those behind it in a row, unless it was read ahead.
fn reach<D: Disk>(
    disk: &mut D,
    layout: Layout,
    named: &[bool],
    number: u32,
    ahead: &mut Ahead,
    bytes: &mut [u8],
) -> Result<(), Call>
    requires sound { IsSound layout (D.state disk.old).size }
    requires page { IsPage layout number }
    requires marks { layout.count ≤ length named.now }
    requires long { length bytes.old ≡ PAGE * ROW_PAGES }
    requires ahead { OnSeen (IsAhead layout number ahead.old bytes.old) (D.state disk.old) }
    ensures held { OnOk result (IsHeld ahead.new number) }
    ensures ahead { OnOk result (OnSeen (IsAhead layout number ahead.new bytes.new)
        (D.state disk.old)) }
    ensures long { length bytes.new ≡ PAGE * ROW_PAGES }
    ensures looks { ReadsAlone 1 (D.state disk.old) (D.state disk.new) result }
{
    if is_held(ahead, number) {
        return Ok(());
    }
    let count = row_from(layout, named, number);
    match read_row(disk, layout, number, count, bytes) {
        Ok(()) => {}
        Err(call) => return Err(call),
    }
    ahead.first = number;
    ahead.count = count;
    Ok(())
}

/// Whether a page of those that were read is zeros.
fn is_blank_at(bytes: &[u8], place: u32) -> bool
    requires { PAGE * place + PAGE ≤ length bytes.now }
    ensures { IsTrue result ↔ (row_page bytes.now place ≡ blank_page) }
{
    let at = PAGE * place as usize;
    is_blank(&bytes[at..at + PAGE])
}

/// Whether a page is zeros. It is read with those behind it in a row, unless it was read ahead or
/// the disk has zeros from it on.
pub(crate) fn is_zeros<D: Disk>(
    disk: &mut D,
    layout: Layout,
    named: &[bool],
    number: u32,
    ahead: &mut Ahead,
    bytes: &mut [u8],
) -> Result<bool, Call>
    requires sound { IsSound layout (D.state disk.old).size }
    requires page { IsPage layout number }
    requires marks { layout.count ≤ length named.now }
    requires long { length bytes.old ≡ PAGE * ROW_PAGES }
    requires ahead { OnSeen (IsAhead layout number ahead.old bytes.old) (D.state disk.old) }
    ensures zeros { IfOk result (λ zeros. OnSeen (λ s. IsTrue zeros
        ↔ (page_of layout s number ≡ blank_page)) (D.state disk.old)) }
    ensures ahead { OnOk result (OnSeen (IsAhead layout number ahead.new bytes.new)
        (D.state disk.old)) }
    ensures long { length bytes.new ≡ PAGE * ROW_PAGES }
    ensures looks { ReadsAlone 1 (D.state disk.old) (D.state disk.new) result }
{
    if page_at(layout, number) >= ahead.end {
        return Ok(true);
    }
    match reach(disk, layout, named, number, ahead, bytes) {
        Ok(()) => {}
        Err(call) => return Err(call),
    }
    Ok(is_blank_at(bytes, number - ahead.first))
}
