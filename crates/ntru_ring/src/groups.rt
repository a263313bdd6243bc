//! Places in groups of 16. Rows are added in whole groups, so that the length of the loop changes
//! once in 16 rows and not with each: processors guess it then.
ghost use Rattle.std.specs.Prelude.{◌≡◌, ◌≤◌, ◌*◌, ◌/◌};

const GROUP: usize = 16;

/// The first place of the group of a place.
pub fn group_start(place: usize) -> usize
    ensures before { result ≤ place }
    ensures group { result ≡ GROUP * (place / GROUP) }
{
    place - place % GROUP
}

/// The end of the group that ends at a place or after it, at most 761.
pub fn group_end(place: usize) -> usize
    requires { place ≤ 761 }
    ensures covers { place ≤ result }
    ensures within { result ≤ 761 }
{
    761.min((place + GROUP - 1) / GROUP * GROUP)
}
