//! Sums over R/q that are reduced late: coefficients as `i32`.
ghost use Rattle.std.specs.Prelude.{◌≡◌, ◌≤◌, ◌+◌, ◌*◌, ◌<◌, ◌⊎◌, ℕ, length, All, pos};
ghost use Rattle.ntru_ring.specs.Reduction.{centred, reduced, IsWithin};
ghost use Rattle.ntru_ring.specs.Ring.{plus, scale, shift, coefficient};

use crate::modulo_q::Rq;

/// 2295 and 467,758 times 4591: its sum with a number in -RAISE..RAISE fits `u32`.
const RAISE: i64 = 2_147_479_273;

/// The representative of `z` modulo 4591.
pub fn centred_q(z: i32) -> i16
    requires { IsWithin 2147479273 z }
    ensures value { result ≡ centred 2295 z }
    ensures within { IsWithin 2295 result }
{
    (((i64::from(z) + RAISE) as u32 % 4591) as i32 - 2295) as i16
}

/// The product modulo 4591.
pub fn product(x: i16, y: i16) -> i16
    requires x_within { IsWithin 2295 x }
    requires y_within { IsWithin 2295 y }
    ensures { IsWithin 2295 result }
{
    centred_q(i32::from(x) * i32::from(y))
}

/// Adds `by` times `row` where the place is in `from..to`; the rest of `row` is zero.
fn add_multiple(sums: &mut [i32; 761], by: i32, row: &[i16; 761], from: usize, to: usize)
    requires by_within { IsWithin 2295 by }
    requires row_within { All (IsWithin 2295) row.now }
    requires room { All (IsWithin 2142216622) sums.old }
    requires order { from ≤ to }
    requires end { to ≤ 761 }
    requires before { (k : ℕ) → k < from → coefficient row.now k ≡ pos 0 }
    requires after { (k : ℕ) → to ≤ k → coefficient row.now k ≡ pos 0 }
    ensures { sums.new ≡ plus sums.old (scale by row.now) }
{
    for k in from..to {
        sums[k] = sums[k] + by * i32::from(row[k]);
    }
}

/// Each coefficient by its representative.
fn settled(sums: &[i32; 761]) -> [i16; 761]
    requires { All (IsWithin 2147479273) sums.now }
    ensures value { result ≡ reduced 2295 sums.now }
    ensures within { All (IsWithin 2295) result }
{
    let mut settled = [0; 761];
    for k in 0..761 {
        settled[k] = centred_q(sums[k]);
    }
    settled
}

/// x times the sums, with the last one reduced before it is added.
fn shifted(sums: &[i32; 761]) -> [i32; 761]
    requires room { All (IsWithin 2142216622) sums.now }
    ensures value { reduced 2295 result ≡ reduced 2295 (shift sums.now) }
    ensures bound { (b : ℕ) → All (IsWithin b) sums.now → All (IsWithin (b + 2295)) result }
{
    let last = i32::from(centred_q(sums[760]));
    let mut shifted = [0; 761];
    for k in 1..761 {
        shifted[k] = sums[k - 1];
    }
    shifted[0] = last;
    shifted[1] = shifted[1] + last;
    shifted
}

/// An element of R/q as sums that aren't reduced yet.
#[derive(Clone, Copy)]
pub struct SumsQ {
    pub terms: [i32; 761],
    /// How many sums were made since the coefficients were reduced.
    pub count: u16,
    ghost length: { length terms ≡ 761 },
    ghost few: { count ≤ 406 },
    ghost within: { All (IsWithin (2295 + count * 5267025)) terms },
}

/// The same numbers in 32 bits.
fn widened(c: &[i16; 761]) -> [i32; 761]
    ensures { result ≡ c.now }
{
    let mut wide = [0; 761];
    for k in 0..761 {
        wide[k] = i32::from(c[k]);
    }
    wide
}

impl SumsQ {
    /// The sums that are this element.
    pub fn of(element: &Rq) -> SumsQ
        ensures { result.terms ≡ element.now.coefficients }
    {
        SumsQ {
            terms: widened(&element.coefficients),
            count: 0,
        }
    }

    /// The element of R/q.
    pub fn settled(&self) -> Rq
        ensures { result.coefficients ≡ reduced 2295 self.now.terms }
    {
        Rq::new(&settled(&self.terms))
    }

    /// The coefficient of x^place.
    pub fn at(&self, place: usize) -> i16
        requires { place < 761 }
        ensures value { result ≡ centred 2295 (coefficient self.now.terms place) }
        ensures within { IsWithin 2295 result }
    {
        centred_q(self.terms[place])
    }

    /// Makes room for one more sum.
    fn make_room(&mut self)
        ensures same { reduced 2295 self.new.terms ≡ reduced 2295 self.old.terms }
        ensures room { self.new.count ≤ 405 }
    {
        if self.count > 405 {
            self.terms = widened(&settled(&self.terms));
            self.count = 0;
        }
    }

    /// Adds `by` times `row`, which is zero outside the places `from..to`.
    pub fn add(&mut self, by: i16, row: &Rq, from: usize, to: usize)
        requires by_within { IsWithin 2295 by }
        requires order { from ≤ to }
        requires end { to ≤ 761 }
        requires before { (k : ℕ) → k < from → coefficient row.now.coefficients k ≡ pos 0 }
        requires after { (k : ℕ) → to ≤ k → coefficient row.now.coefficients k ≡ pos 0 }
        ensures { reduced 2295 self.new.terms ≡ reduced 2295
            (plus self.old.terms (scale by row.now.coefficients)) }
    {
        self.make_room();
        add_multiple(&mut self.terms, i32::from(by), &row.coefficients, from, to);
        self.count += 1;
    }

    /// Multiplies by x.
    pub fn shift(&mut self)
        ensures { reduced 2295 self.new.terms ≡ reduced 2295 (shift self.old.terms) }
    {
        self.make_room();
        self.terms = shifted(&self.terms);
        self.count += 1;
    }
}
