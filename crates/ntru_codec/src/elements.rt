//! The encodings of elements of R/q and of rounded elements.
ghost use Rattle.std.specs.Prelude.{◌≡◌, ◌*◌, ◌<◌, ◌≤◌, All, pos};
ghost use Rattle.ntru_ring.specs.Reduction.{IsWithin};
ghost use Rattle.ntru_codec.specs.Elements.{limits_of, raised, lowered, third, tripled, IsMultipleOf3, rq_encoded, rq_decoded, rounded_encoded, rounded_decoded};

use crate::decoder::decode;
use crate::encoder::encode;

/// The limit of a raised coefficient of R/q.
const RAISED_LIMIT: u16 = 4591;

/// The limit of a third of one.
const THIRD_LIMIT: u16 = 1531;

use ntru_ring::Rq;

/// One limit for all coefficients.
#[tactic(auto, unfolding(crate::specs::Elements::limits_of))]
fn limits_of(limit: u16) -> [u16; 761]
    ensures { result ≡ limits_of limit }
{
    [limit; 761]
}

/// A coefficient as a number.
#[tactic(auto, unfolding(crate::specs::Elements::raised))]
fn raise(c: i16) -> u16
    requires { IsWithin 2295 c }
    ensures { result ≡ raised c }
{
    (c + 2295) as u16
}

/// A number as a coefficient.
#[tactic(auto, unfolding(crate::specs::Elements::lowered))]
fn lower(value: u16) -> i16
    requires { value < 4591 }
    ensures value { result ≡ lowered value }
    ensures within { IsWithin 2295 result }
{
    value as i16 - 2295
}

/// The bytes of the element.
pub fn rq_encode(a: &Rq) -> [u8; 1158]
    ensures { result ≡ rq_encoded a.now.coefficients }
{
    let mut values = [0; 761];
    for k in 0..761 {
        values[k] = raise(a.coefficients[k]);
    }
    let limits = limits_of(RAISED_LIMIT);
    let mut bytes = [0; 1158];
    encode(&values, &limits, &mut bytes);
    bytes
}

/// The element that the bytes stand for.
pub fn rq_decode(bytes: &[u8; 1158]) -> Rq
    ensures { result.coefficients ≡ rq_decoded bytes.now }
{
    let limits = limits_of(RAISED_LIMIT);
    let mut values = [0; 761];
    decode(bytes, &limits, &mut values);
    let mut coefficients = [0; 761];
    for k in 0..761 {
        coefficients[k] = lower(values[k]);
    }
    Rq::new(&coefficients)
}

/// The bytes of the rounded element.
#[tactic(auto, unfolding(crate::specs::Elements::third))]
pub fn rounded_encode(a: &Rq) -> [u8; 1007]
    requires { All IsMultipleOf3 a.now.coefficients }
    ensures { result ≡ rounded_encoded a.now.coefficients }
{
    let mut values = [0; 761];
    for k in 0..761 {
        values[k] = raise(a.coefficients[k]) / 3;
    }
    let limits = limits_of(THIRD_LIMIT);
    let mut bytes = [0; 1007];
    encode(&values, &limits, &mut bytes);
    bytes
}

/// The rounded element that the bytes stand for.
#[tactic(auto, unfolding(crate::specs::Elements::tripled))]
pub fn rounded_decode(bytes: &[u8; 1007]) -> Rq
    ensures value { result.coefficients ≡ rounded_decoded bytes.now }
    ensures rounded { All IsMultipleOf3 result.coefficients }
{
    let limits = limits_of(THIRD_LIMIT);
    let mut values = [0; 761];
    decode(bytes, &limits, &mut values);
    let mut coefficients = [0; 761];
    for k in 0..761 {
        coefficients[k] = lower(3 * values[k]);
    }
    Rq::new(&coefficients)
}
