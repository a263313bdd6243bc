//! The first place of a table that no record's has.

ghost use Rattle.std.specs.Prelude.{◌≡◌, ◌+◌, ◌*◌, ◌≤◌, ◌<◌, ◌&&◌, nat_le, nat_lt, not, [], length, None, vec_capacity};
ghost use Rattle.record_pages.specs.declared.limits.TheConstants.{NUMBER_LIMIT};
ghost use Rattle.record_pages.specs.Plans.{is_among};
ghost use Rattle.record_pages.specs.Pages.{page_count};
ghost use Rattle.record_pages.specs.Tables.{entry_fault, length_in, nonzero_from, record_names, table_fault};

use crate::cutting::page_count;
use crate::table::{number_at, record_length};

/// Whether a number is that of a page, and none of these.
fn is_entry(number: u32, least: u32, pages: u32, numbers: &[u32]) -> bool
    ensures { result ≡ (nat_le least number &&
        (nat_lt number pages && not (is_among numbers.now number))) }
{
    number >= least && number < pages && !numbers.contains(&number)
}

/// The first entry that is no page's number or a second one of a page, if there is one; else the
/// numbers.
#[tactic(auto, unfolding(crate::specs::Tables::record_names))]
fn read_numbers(
    body: &[u8],
    count: usize,
    least: u32,
    pages: u32,
    numbers: &mut Vec<u32>,
) -> Option<u32>
    requires count { count ≡ page_count (length_in body.now) }
    requires room { 5 + 2 * count ≤ length body.now }
    requires short { length body.now < NUMBER_LIMIT }
    requires kept { count ≤ vec_capacity numbers.old }
    ensures fault { result ≡ entry_fault least pages [] 6 (record_names body.now) }
    ensures numbers { result ≡ None → numbers.new.items ≡ record_names body.now }
    ensures capacity { vec_capacity numbers.old ≤ vec_capacity numbers.new }
{
    numbers.clear();
    'entries: for at in 0..count {
        let number = number_at(body, at);
        if !is_entry(number, least, pages, numbers) {
            return Some(6 + 2 * at as u32);
        }
        numbers.push(number).unwrap();
    }
    None
}

/// The place of the first byte that isn't zero, counted from a place.
#[tactic(auto, using(crate::proofs::FirstNonzero::goes_on, crate::proofs::FirstNonzero::ends))]
pub fn nonzero(bytes: &[u8], from: u32) -> Option<u32>
    requires { from + length bytes.now < 4294967296 }
    ensures { result ≡ nonzero_from from bytes.now }
{
    'bytes: for at in 0..bytes.len() {
        if bytes[at] != 0 {
            return Some(from + at as u32);
        }
    }
    None
}

/// The first place of a table that no record's has, counted from its gate, if there is one; else
/// the numbers of the record's pages.
#[tactic(auto, unfolding(crate::specs::Tables::table_fault))]
pub fn table_fault(
    body: &[u8],
    least: u32,
    pages: u32,
    most: u32,
    numbers: &mut Vec<u32>,
) -> Option<u32>
    requires room { 5 + 2 * most ≤ length body.now }
    requires short { length body.now < NUMBER_LIMIT }
    requires kept { most ≤ vec_capacity numbers.old }
    ensures fault { result ≡ table_fault least pages most body.now }
    ensures numbers { result ≡ None → numbers.new.items ≡ record_names body.now }
    ensures capacity { vec_capacity numbers.old ≤ vec_capacity numbers.new }
{
    let count = page_count(record_length(body) as usize);
    if count > most as usize {
        return Some(2);
    }
    match read_numbers(body, count, least, pages, numbers) {
        Some(at) => Some(at),
        None => nonzero(&body[5 + 2 * count..], 6 + 2 * count as u32),
    }
}
