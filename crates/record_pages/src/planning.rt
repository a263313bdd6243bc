//! What a new record changes of the pages of the one that stands.

ghost use Rattle.std.specs.Prelude.{◌≡◌, ◌++◌, ◌∷◌, ◌+◌, ◌*◌, ◌≤◌, ◌<◌, length, take, drop, replicate, vec_capacity};
ghost use Rattle.dr_base.specs.declared.limits.TheConstants.{PAGE};
ghost use Rattle.record_pages.specs.Pages.{cut, page_at, page_count, pages_in};
ghost use Rattle.record_pages.specs.Plans.{changed_places, dropped, numbered, stays_at};

use crate::cutting::{holds_piece, page_count};
use dr_base::PAGE;

/// The places of the pages that change, and the numbers that the record no longer has.
#[derive(Drop)]
pub struct Plan {
    pub places: Vec<u32>,
    pub dropped: Vec<u32>,
}

/// A page of a text, without the zeros that fill it.
fn piece(text: &[u8], at: usize) -> &[u8]
    requires { PAGE * at < length text.now }
    ensures value { result.now ≡ page_at text.now at }
    ensures fits { length result.now ≤ PAGE }
{
    let rest = &text[PAGE * at..];
    &rest[..PAGE.min(rest.len())]
}

/// Whether the page at a place stays as it is, of the first `held` pages in these bytes.
fn stays(bytes: &[u8], held: usize, text: &[u8], at: usize, zeros: &[u8]) -> bool
    requires held { PAGE * held ≤ length bytes.now }
    requires inside { PAGE * at < length text.now }
    requires zero { zeros.now ≡ replicate PAGE 0 }
    ensures { result ≡ stays_at held bytes.now text.now at }
{
    at < held && holds_piece(&bytes[PAGE * at..PAGE * at + PAGE], piece(text, at), zeros)
}

/// Gives the page at a place another number, or a number to one more page.
fn renumber(numbers: &mut Vec<u32>, at: usize, number: u32, dropped: &mut Vec<u32>)
    requires inside { at ≤ length numbers.old.items }
    requires room { at < vec_capacity numbers.old }
    requires more { length dropped.old.items < vec_capacity dropped.old }
    ensures numbers { numbers.new.items ≡ take at numbers.old.items
        ++ number ∷ drop (at + 1) numbers.old.items }
    ensures dropped { dropped.new.items ≡ dropped.old.items ++ take 1 (drop at numbers.old.items) }
    ensures room { vec_capacity numbers.old ≤ vec_capacity numbers.new }
    ensures more { vec_capacity dropped.old ≤ vec_capacity dropped.new }
{
    if at < numbers.len() {
        dropped.push(numbers[at]).unwrap();
        numbers[at] = number;
    } else {
        numbers.push(number).unwrap();
    }
}

/// Plans that a text takes the place of the record in these bytes, whose pages have these numbers.
/// Pages that stay keep their numbers, and the others get the free ones in order.
pub fn plan_pages(
    bytes: &[u8],
    numbers: &mut Vec<u32>,
    text: &[u8],
    free: &[u32],
    zeros: &[u8],
    plan: &mut Plan,
)
    requires held { PAGE * length numbers.old.items ≤ length bytes.now }
    requires room { page_count (length text.now) ≤ vec_capacity numbers.old }
    requires enough { page_count (length text.now) ≤ length free.now }
    requires short { length text.now < 4294967296 }
    requires places { page_count (length text.now) ≤ vec_capacity plan.old.places }
    requires dropped { length numbers.old.items < vec_capacity plan.old.dropped }
    requires zero { zeros.now ≡ replicate PAGE 0 }
    ensures numbers { numbers.new.items ≡ numbered (cut (length numbers.old.items) bytes.now)
        numbers.old.items (pages_in text.now) free.now }
    ensures places { plan.new.places.items ≡ changed_places 0
        (cut (length numbers.old.items) bytes.now) (pages_in text.now) }
    ensures dropped { plan.new.dropped.items ≡ dropped
        (cut (length numbers.old.items) bytes.now) numbers.old.items (pages_in text.now) }
    ensures room { vec_capacity numbers.old ≤ vec_capacity numbers.new }
    ensures places_room { vec_capacity plan.old.places ≤ vec_capacity plan.new.places }
    ensures dropped_room { vec_capacity plan.old.dropped ≤ vec_capacity plan.new.dropped }
{
    let held = numbers.len();
    let count = page_count(text.len());
    plan.places.clear();
    plan.dropped.clear();
    'pages: for at in 0..count {
        if !stays(bytes, held, text, at, zeros) {
            renumber(numbers, at, free[plan.places.len()], &mut plan.dropped);
            plan.places.push(at as u32).unwrap();
        }
    }
    if count < held {
        plan.dropped.extend_from_slice(&numbers[count..]).unwrap();
        numbers.truncate(count);
    }
}
