//! The record that a table names is read into memory, and judged.

ghost use Rattle.std.specs.Prelude.{◌≡◌, ◌≤◌, ◌+◌, ◌*◌, length, map, take, drop, vec_capacity, IfOk, IsNone, OnOk};
ghost use Rattle.dr_base.specs.declared.limits.TheConstants.{PAGE};
ghost use Rattle.dr_disk.specs.State.{OnSeen};
ghost use Rattle.pages.specs.Finds.{Finds};
ghost use Rattle.pages.specs.Layouts.{IsSound};
ghost use Rattle.pages.specs.Runs.{ReadsAlone};
ghost use Rattle.pages.specs.Snapshots.{page_of};
ghost use Rattle.pages.specs.Writing.{ArePages};
ghost use Rattle.record_pages.specs.declared.limits.TheConstants.{NAMED_LIMIT};
ghost use Rattle.record_pages.specs.Pages.{cut};
ghost use Rattle.record_pages.specs.Tables.{nonzero_from, or_else};
ghost use Rattle.paged_records.specs.Faults.{behind_table};
ghost use Rattle.paged_records.specs.Loading.{IsLoaded, IsNamedRecord, IsReadRecord};
ghost use Rattle.paged_records.specs.Memory.{HasRoomToLoad};

use crate::bounds::{Bounds, least_number, number_end, record_most};
use crate::grammar::Grammar;
use crate::kept::{Kept, stretch};
use dr_base::PAGE;
use dr_disk::{Call, Disk};
use pages::{Layout, read_page};
use record_pages::{nonzero, record_length, table_fault};

/// A record, or the first place that no record's table and pages have: in the table, or a page's
/// size and the place in the pages.
#[derive(Drop)]
pub enum Loaded {
    Whole { kept: Kept },
    Faulty { at: u64 },
}

/// Reads the pages of these numbers, one after the other.
fn read_pages<D: Disk>(
    disk: &mut D,
    layout: Layout,
    numbers: &[u32],
    bytes: &mut [u8],
) -> Result<(), Call>
    requires sound { IsSound layout (D.state disk.old).size }
    requires pages { ArePages layout numbers.now }
    requires room { PAGE * length numbers.now ≤ length bytes.old }
    ensures pages { OnOk result (OnSeen (λ s. cut (length numbers.now) bytes.new
        ≡ map (page_of layout s) numbers.now) (D.state disk.old)) }
    ensures long { length bytes.new ≡ length bytes.old }
    ensures looks { ReadsAlone (length numbers.now) (D.state disk.old) (D.state disk.new) result }
{
    'pages: for i in 0..numbers.len() {
        let at = PAGE * i;
        match read_page(disk, layout, numbers[i], &mut bytes[at..at + PAGE]) {
            Ok(()) => {}
            Err(call) => return Err(call),
        }
    }
    Ok(())
}

/// Reads the pages of these numbers into a room, which has just these pages then.
fn fill<D: Disk>(
    disk: &mut D,
    layout: Layout,
    numbers: &[u32],
    bytes: &mut Vec<u8>,
) -> Result<(), Call>
    requires sound { IsSound layout (D.state disk.old).size }
    requires pages { ArePages layout numbers.now }
    requires room { PAGE * length numbers.now ≤ vec_capacity bytes.old }
    ensures pages { OnOk result (OnSeen (λ s. cut (length numbers.now) bytes.new.items
        ≡ map (page_of layout s) numbers.now) (D.state disk.old)) }
    ensures long { length bytes.new.items ≡ PAGE * length numbers.now }
    ensures room { vec_capacity bytes.old ≤ vec_capacity bytes.new }
    ensures looks { ReadsAlone (length numbers.now) (D.state disk.old) (D.state disk.new) result }
{
    stretch(bytes, numbers.len());
    read_pages(disk, layout, numbers, bytes)
}

/// The first place in a record's pages that no record has, counted from its table, if there is one.
fn record_fault<G: Grammar>(pages: &[u8], len: usize, reader: &mut G) -> Option<u64>
    requires fits { len ≤ length pages.now }
    requires short { length pages.now ≤ PAGE * NAMED_LIMIT }
    requires new { G.is_new reader.old }
    ensures fault { result ≡ behind_table (or_else (G.fault_at (take len pages.now))
        (nonzero_from len (drop len pages.now))) }
    ensures read { IsNone result → G.has_read reader.new (take len pages.now) }
{
    if let Err(at) = reader.read(&pages[..len]) {
        return Some(PAGE as u64 + at as u64);
    }
    match nonzero(&pages[len..], len as u32) {
        Some(at) => Some(PAGE as u64 + at as u64),
        None => None,
    }
}

/// Reads the record that a table names, in memory that has none, from the pages of a layout that
/// has these bounds. Where the table has a fault no page is read.
pub fn load<G: Grammar, D: Disk>(
    disk: &mut D,
    layout: Layout,
    bounds: Bounds,
    kept: Kept,
    body: &[u8],
    reader: &mut G,
) -> Result<Loaded, Call>
    requires sound { IsSound layout (D.state disk.old).size }
    requires least { layout.least ≡ bounds.least }
    requires count { layout.count ≡ bounds.count }
    requires none { kept.len ≡ 0 }
    requires room { HasRoomToLoad bounds kept }
    requires long { length body.now + 1 ≡ PAGE }
    requires new { G.is_new reader.old }
    ensures named { IfOk result (IsNamedRecord G.fault_at bounds body.now) }
    ensures read { IfOk result (IsReadRecord (G.has_read reader.new)) }
    ensures loaded { Finds bounds.most
        (λ disk loaded. OnSeen (IsLoaded G.fault_at layout bounds body.now loaded) disk)
        (D.state disk.old) (D.state disk.new) result }
{
    let Kept {
        mut bytes,
        mut numbers,
        ..
    } = kept;
    let least = least_number(bounds);
    let total = number_end(bounds);
    if let Some(at) = table_fault(body, least, total, record_most(bounds), &mut numbers) {
        return Ok(Loaded::Faulty { at: at as u64 });
    }
    match fill(disk, layout, &numbers, &mut bytes) {
        Ok(()) => {}
        Err(call) => return Err(call),
    }
    let len = record_length(body) as usize;
    if let Some(at) = record_fault(&bytes, len, reader) {
        return Ok(Loaded::Faulty { at });
    }
    Ok(Loaded::Whole {
        kept: Kept {
            bytes,
            len,
            numbers,
        },
    })
}
