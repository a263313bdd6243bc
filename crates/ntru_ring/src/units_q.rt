//! Inverses modulo 4591.
ghost use Rattle.std.specs.Prelude.{◌≡◌, ◌≢◌, ◌*ℤ◌, ◌<◌, pos};
ghost use Rattle.ntru_ring.specs.Reduction.{centred, IsWithin};
ghost use Rattle.ntru_ring.specs.Units.{square_modulo, square_and_modulo, inverse_modulo};

/// The square of `y` modulo 4591.
fn square(y: u32) -> u32
    requires { y < 4591 }
    ensures value { result ≡ square_modulo y }
    ensures below { result < 4591 }
{
    y * y % 4591
}

/// `x` times the square of `y` modulo 4591.
fn square_and(x: u32, y: u32) -> u32
    requires x { x < 4591 }
    requires y { y < 4591 }
    ensures value { result ≡ square_and_modulo x y }
    ensures below { result < 4591 }
{
    square(y) * x % 4591
}

/// x to the power 4589, which is the inverse of x modulo 4591, unless x is zero.
fn power(x: u32) -> u32
    requires { x < 4591 }
    ensures value { result ≡ inverse_modulo x }
    ensures below { result < 4591 }
{
    let x8 = square(square(square(x)));
    let x143 = square_and(x, square_and(x, square_and(x, square_and(x, x8))));
    let x1147 = square_and(x, square_and(x, square(x143)));
    square_and(x, square(x1147))
}

/// The number in -2295..2295 whose product with `c` is 1 modulo 4591.
pub fn inverse_of(c: i16) -> i16
    requires within { IsWithin 2295 c }
    requires nonzero { c ≢ pos 0 }
    ensures value { centred 2295 (result *ℤ c) ≡ pos 1 }
    ensures within { IsWithin 2295 result }
{
    let inverse = power(((i32::from(c) + 4591) % 4591) as u32);
    ((inverse as i32 + 2295) % 4591 - 2295) as i16
}
