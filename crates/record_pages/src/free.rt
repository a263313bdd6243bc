//! Numbers that no page of the record has.

ghost use Rattle.std.specs.Prelude.{◌≡◌, ◌-◌, ◌≤◌, vec_capacity};
ghost use Rattle.record_pages.specs.Plans.{free_from};

/// Fills in the numbers from `least` to below `count` that aren't among these, ascending.
pub fn fill_free(numbers: &[u32], least: u32, count: u32, free: &mut Vec<u32>)
    requires within { least ≤ count }
    requires room { count - least ≤ vec_capacity free.old }
    ensures free { free.new.items ≡ free_from numbers.now (count - least) least }
    ensures room { vec_capacity free.old ≤ vec_capacity free.new }
{
    free.clear();
    'numbers: for number in least..count {
        if !numbers.contains(&number) {
            free.push(number).unwrap();
        }
    }
}
