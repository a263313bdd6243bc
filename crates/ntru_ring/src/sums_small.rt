//! Sums of rows over R/q, reduced late: places as `i16`.
ghost use Rattle.std.specs.Prelude.{◌≡◌, ◌≤◌, ◌+◌, ◌*◌, length, All};
ghost use Rattle.ntru_ring.specs.Reduction.{centred, reduced, IsWithin};
ghost use Rattle.ntru_ring.specs.Ring.{plus};
ghost use Rattle.ntru_ring.specs.Powers.{IsRow};

use crate::modulo_q::Rq;

/// The representative of `z` modulo 4591.
pub fn centred_word(z: i16) -> i16
    ensures value { result ≡ centred 2295 z }
    ensures within { IsWithin 2295 result }
{
    let times = ((i32::from(z) * 14) >> 16) as i16;
    let rest = z - times * 4591;
    if rest > 2295 {
        return rest - 4591;
    }
    rest
}

/// Puts each coefficient's representative in its place.
fn settle(sums: &mut [i16; 761])
    ensures value { sums.new ≡ reduced 2295 sums.old }
    ensures within { All (IsWithin 2295) sums.new }
{
    for k in 0..761 {
        sums[k] = centred_word(sums[k]);
    }
}

/// Adds `row`.
fn add_row(sums: &mut [i16; 761], row: &[i16])
    requires row { IsRow row.now }
    requires room { All (IsWithin 29835) sums.old }
    ensures { sums.new ≡ plus sums.old row.now }
{
    for k in 0..761 {
        sums[k] = sums[k] + row[k];
    }
}

/// Adds four rows, and writes each sum once.
fn add_rows(sums: &mut [i16; 761], one: &[i16], two: &[i16], three: &[i16], four: &[i16])
    requires one { IsRow one.now }
    requires two { IsRow two.now }
    requires three { IsRow three.now }
    requires four { IsRow four.now }
    requires room { All (IsWithin 22950) sums.old }
    ensures { sums.new ≡ plus sums.old (plus (plus one.now two.now) (plus three.now four.now)) }
{
    for k in 0..761 {
        sums[k] = sums[k] + ((one[k] + two[k]) + (three[k] + four[k]));
    }
}

/// An element of R/q as sums that aren't reduced yet.
#[derive(Drop)]
pub struct SumsSmall {
    pub terms: [i16; 761],
    /// How many rows the sums are as large as.
    pub count: u16,
    ghost length: { length terms ≡ 761 },
    ghost few: { count ≤ 14 },
    ghost within: { All (IsWithin (count * 2295)) terms },
}

impl SumsSmall {
    /// The sums that are this element.
    pub fn of(element: &Rq) -> SumsSmall
        ensures { result.terms ≡ element.now.coefficients }
    {
        SumsSmall {
            terms: element.coefficients,
            count: 1,
        }
    }

    /// The element of R/q.
    pub fn settled(&self) -> Rq
        ensures { result.coefficients ≡ reduced 2295 self.now.terms }
    {
        let mut terms = self.terms;
        settle(&mut terms);
        Rq::new(&terms)
    }

    /// Makes room for some more rows.
    fn make_room(&mut self, rows: u16)
        requires { rows ≤ 13 }
        ensures same { reduced 2295 self.new.terms ≡ reduced 2295 self.old.terms }
        ensures room { self.new.count + rows ≤ 14 }
    {
        if self.count + rows > 14 {
            settle(&mut self.terms);
            self.count = 1;
        }
    }

    /// Adds `row`.
    pub fn add(&mut self, row: &[i16])
        requires { IsRow row.now }
        ensures { reduced 2295 self.new.terms ≡ reduced 2295 (plus self.old.terms row.now) }
    {
        self.make_room(1);
        add_row(&mut self.terms, row);
        self.count += 1;
    }

    /// Adds four rows.
    pub fn add_four(&mut self, one: &[i16], two: &[i16], three: &[i16], four: &[i16])
        requires one { IsRow one.now }
        requires two { IsRow two.now }
        requires three { IsRow three.now }
        requires four { IsRow four.now }
        ensures { reduced 2295 self.new.terms
            ≡ reduced 2295 (plus self.old.terms
            (plus (plus one.now two.now) (plus three.now four.now))) }
    {
        self.make_room(4);
        add_rows(&mut self.terms, one, two, three, four);
        self.count += 4;
    }
}
