//! Where the rows begin that a product with a small factor adds up.
ghost use Rattle.std.specs.Prelude.{◌≡◌, ◌≤◌, ◌<◌, ◌+◌, ◌-ℤ◌, ℕ, ℤ, List, pos, length, slice_index_or};
ghost use Rattle.ntru_ring.specs.Reduction.{IsWithin};
ghost use Rattle.ntru_ring.specs.Ring.{plus, scale};
ghost use Rattle.ntru_ring.specs.Powers.{total};
ghost use lib.Lanes.{chunk};

/// The first `count` of these places.
#[derive(Drop)]
pub struct Starts {
    pub places: [u16; 761],
    pub count: usize,
    ghost length: { length places ≡ 761 },
    ghost few: { count ≤ 761 },
    ghost within: { (k : ℕ) → slice_index_or places k 0 ≤ 760 },
}

/// How often a row is added and subtracted, each 0 or 1.
#[derive(Clone, Copy)]
pub struct Signs {
    pub plus: usize,
    pub minus: usize,
    ghost plus_in: { plus ≤ 1 },
    ghost minus_in: { minus ≤ 1 },
}

impl Signs {
    /// The signs of a coefficient.
    pub fn of(c: i16) -> Signs
        requires { IsWithin 1 c }
        ensures { c ≡ pos result.plus -ℤ pos result.minus }
    {
        Signs {
            plus: (c > 0) as usize,
            minus: (c < 0) as usize,
        }
    }
}

impl Starts {
    /// No place.
    pub fn new() -> Starts
        ensures { result.count ≡ 0 }
    {
        Starts {
            places: [0; 761],
            count: 0,
        }
    }

    /// One of the places.
    pub fn at(&self, k: usize) -> usize
        requires { k < 761 }
        ensures value { result ≡ slice_index_or self.now.places k 0 }
        ensures within { result ≤ 760 }
    {
        usize::from(self.places[k])
    }

    /// Adds a place once or not at all. It is written either way: processors can't guess which it
    /// is.
    pub fn push(&mut self, start: usize, times: usize)
        requires start { start ≤ 760 }
        requires times { times ≤ 1 }
        requires room { self.old.count < 761 }
        ensures count { self.new.count ≡ self.old.count + times }
        ensures total { (row : List ℤ) → length row ≡ 1521
            → total row self.new.places self.new.count
            ≡ plus (total row self.old.places self.old.count)
            (scale (pos times) (chunk start 761 row)) }
    {
        self.places[self.count] = start as u16;
        self.count += times;
    }
}
