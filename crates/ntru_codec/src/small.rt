//! The encoding of small elements.
ghost use Rattle.std.specs.Prelude.{◌≡◌, ◌↔◌, ◌+◌, ◌*◌, ◌/◌, ◌%◌, ◌^◌, ◌<◌, ◌≤◌, IsOk, IfOk, MatchResult, length, pos, ◌-ℤ◌};
ghost use Rattle.ntru_codec.specs.Small.{digit, has_three, is_bad, first_bad, small_encoded, small_decoded};
ghost use Rattle.ntru_ring.specs.Reduction.{IsWithin};
ghost use Rattle.ntru_ring.specs.declared.modulo_three.R3.{R3};

use ntru_ring::R3;
use thiserror::Error;

/// No small element has these bytes.
#[derive(Clone, Copy, Debug, PartialEq, Eq, Error)]
#[error("no small element has the byte at {at}")]
pub struct BadSmall {
    /// The place of the first byte that no element has there.
    pub at: usize,
}

/// The digit of a coefficient.
#[tactic(auto, unfolding(crate::specs::Small::digit))]
fn digit(c: i16) -> u8
    requires { IsWithin 1 c }
    ensures value { result ≡ digit c }
    ensures small { result ≤ 2 }
{
    (c + 1) as u8
}

/// The digit of the byte at a place from 0 to 3.
fn digit_of(byte: u8, place: usize) -> u8
    requires { place < 4 }
    ensures { result ≡ byte / 4 ^ place % 4 }
{
    (byte >> (2 * place)) % 4
}

/// The coefficient of a digit.
fn coefficient(digit: u8) -> i16
    requires { digit ≤ 2 }
    ensures value { result ≡ pos digit -ℤ pos 1 }
    ensures within { IsWithin 1 result }
{
    i16::from(digit) - 1
}

/// Whether no element has this byte at the place `k`.
#[tactic(auto, unfolding(crate::specs::Small::has_three, crate::specs::Small::is_bad))]
fn is_bad(k: usize, byte: u8) -> bool
    ensures { result ≡ is_bad k byte }
{
    byte % 4 == 3
        || byte / 4 % 4 == 3
        || byte / 16 % 4 == 3
        || byte / 64 % 4 == 3
        || (k == 190 && byte > 3)
}

/// The bytes of the element.
pub fn small_encode(a: &R3) -> [u8; 191]
    ensures { result ≡ small_encoded a.now.coefficients }
{
    let c = &a.coefficients;
    let mut bytes = [0; 191];
    for k in 0..190 {
        bytes[k] = digit(c[4 * k])
            + 4 * digit(c[4 * k + 1])
            + 16 * digit(c[4 * k + 2])
            + 64 * digit(c[4 * k + 3]);
    }
    bytes[190] = digit(c[760]);
    bytes
}

/// The place of the first byte that no element has there.
fn first_bad(bytes: &[u8; 191]) -> Option<usize>
    ensures { result ≡ first_bad bytes.now }
{
    for k in 0..191 {
        if is_bad(k, bytes[k]) {
            return Some(k);
        }
    }
    None
}

/// The element that has these bytes, or else the place of the first byte that no element has there.
pub fn small_decode(bytes: &[u8; 191]) -> Result<R3, BadSmall>
    ensures value { IfOk result (λ a. a.coefficients ≡ small_decoded bytes.now) }
    ensures element { IfOk result (λ a. small_encoded a.coefficients ≡ bytes.now) }
    ensures exact { IsOk result ↔ ((a : R3) × (small_encoded a.coefficients ≡ bytes.now)) }
    ensures bad { MatchResult result (λ _. first_bad bytes.now ≡ None)
        (λ e. first_bad bytes.now ≡ Some e.at) }
{
    if let Some(at) = first_bad(bytes) {
        return Err(BadSmall { at });
    }
    let mut coefficients = [0; 761];
    for i in 0..761 {
        coefficients[i] = coefficient(digit_of(bytes[i / 4], i % 4));
    }
    Ok(R3::new(&coefficients))
}
