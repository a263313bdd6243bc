//! An element of R/q times the powers of x.
ghost use Rattle.std.specs.Prelude.{◌≡◌, ◌≤◌, ◌<◌, ◌-◌, ℕ, length, All};
ghost use Rattle.ntru_ring.specs.Reduction.{reduced, IsWithin};
ghost use Rattle.ntru_ring.specs.Powers.{rotated, power, total};
ghost use lib.Lanes.{chunk};

use crate::modulo_q::Rq;
use crate::starts::Starts;
use crate::sums_q::centred_q;
use crate::sums_small::SumsSmall;

/// An element times x^0 to x^760: the row of x^k is the 761 places from 760 - k on, the coefficient
/// of x^0 after the others. So it goes on as the row before it begins, and begins with the sum of
/// that row's last two places.
#[derive(Drop)]
pub struct Powers {
    pub places: [i16; 1521],
    ghost length: { length places ≡ 1521 },
    ghost within: { All (IsWithin 2295) places },
}

/// Room for the rows, with the first of them.
fn first_power(element: &Rq) -> [i16; 1521]
    ensures length { length result ≡ 1521 }
    ensures within { All (IsWithin 2295) result }
    ensures row { chunk 760 761 result ≡ rotated element.now.coefficients }
{
    let mut places = [0; 1521];
    for k in 0..760 {
        places[760 + k] = element.coefficients[k + 1];
    }
    places[1520] = element.coefficients[0];
    places
}

/// The element whose coefficient of x^0 stands after the others.
pub fn turned_back(row: &Rq) -> Rq
    ensures { rotated result.coefficients ≡ row.now.coefficients }
{
    let mut coefficients = [0; 761];
    for k in 0..760 {
        coefficients[k + 1] = row.coefficients[k];
    }
    coefficients[0] = row.coefficients[760];
    Rq::new(&coefficients)
}

impl Powers {
    /// The powers of x times `element`.
    pub fn of(element: &Rq) -> Powers
        ensures { (k : ℕ) → k < 761
            → chunk (760 - k) 761 result.places ≡ rotated (power k element.now.coefficients) }
    {
        let mut places = first_power(element);
        for k in 0..760 {
            let at = 759 - k;
            places[at] = centred_q(i32::from(places[at + 760]) + i32::from(places[at + 761]));
        }
        Powers { places }
    }

    /// The row that begins at a place.
    fn row(&self, start: usize) -> &[i16]
        requires { start ≤ 760 }
        ensures { result.now ≡ chunk start 761 self.now.places }
    {
        &self.places[start..start + 761]
    }

    /// The sum of the rows that begin at these places, four at a time.
    pub fn sum_of(&self, starts: &Starts) -> Rq
        ensures { result.coefficients
            ≡ reduced 2295 (total self.now.places starts.now.places starts.now.count) }
    {
        let mut sums = SumsSmall::of(&Rq::zero());
        let groups = starts.count / 4;
        for group in 0..groups {
            let k = 4 * group;
            sums.add_four(
                self.row(starts.at(k)),
                self.row(starts.at(k + 1)),
                self.row(starts.at(k + 2)),
                self.row(starts.at(k + 3)),
            );
        }
        for k in 4 * groups..starts.count {
            sums.add(self.row(starts.at(k)));
        }
        sums.settled()
    }
}
