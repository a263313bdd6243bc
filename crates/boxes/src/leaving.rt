//! Items leave a row from amidst the others.

ghost use Rattle.std.specs.Prelude.{◌≡◌, ◌<◌, ◌≤◌, length, take, filter, not, All};
ghost use Rattle.std.specs.List.Sorted.{IsPermutation};
ghost use Rattle.boxes.specs.Items.{is_item_of};
ghost use Rattle.boxes.specs.Rooms.{item_in};

use crate::part::is_part_under;
use crate::row::Stored;
use std::marker::Model;

/// Whether an item is a part of the long text of an id.
fn is_item_of<const ROOM: usize>(item: &Stored<ROOM>, id: u32) -> bool
    ensures { result ≡ is_item_of id item.now }
{
    is_part_under(id, item.kind(), item.bytes())
}

/// Brings the rooms whose items stay to the front of those that are held, in their order, and
/// answers how many they are: all but the parts of the long text of an id.
pub(crate) fn keep_others<const ROOM: usize>(
    order: &mut [usize],
    held: usize,
    rooms: &[Stored<ROOM>],
    id: u32,
) -> usize
    requires front { held ≤ length order.old }
    requires below { All (λ number. number < length rooms.now) order.old }
    ensures kept { take result order.new
        ≡ filter (λ number. not (is_item_of id (item_in rooms.now number))) (take held order.old) }
    ensures same { IsPermutation order.old order.new }
    ensures fewer { result ≤ held }
{
    let mut kept = 0;
    'held: for i in 0..held {
        let stays = !is_item_of(&rooms[order[i]], id);
        if stays {
            order.swap(kept, i);
            kept += 1;
        }
    }
    kept
}
