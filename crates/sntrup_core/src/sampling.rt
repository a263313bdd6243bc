//! Random elements from random words.

ghost use Rattle.std.specs.Prelude.{◌≡◌, ◌*◌, ◌/◌, ◌%◌, ◌≤◌, ◌<◌, pos, All};
ghost use Rattle.ntru_ring.specs.Reduction.{IsWithin};
ghost use Rattle.sntrup_core.specs.Sampling.{nonzero_word, zero_word, short_coefficient, marked, ascending, short_element, small_coefficient, small_element};
ghost use Rattle.sntrup_core.specs.Core.{IsShort};

use ntru_ring::R3;

/// How many coefficients of a short element aren't zero.
pub(crate) const WEIGHT: usize = 286;

/// The words, marked by whether their coefficients will be zero.
fn mark(words: &[u32; 761]) -> [u32; 761]
    ensures { result ≡ marked words.now }
{
    let mut marked = [0; 761];
    for k in 0..761 {
        let word = words[k];
        marked[k] = if k < WEIGHT {
            word / 2 * 2
        } else {
            word / 4 * 4 + 1
        };
    }
    marked
}

/// The coefficient of a marked word.
fn short_coefficient(word: u32) -> i16
    requires { word % 4 ≤ 2 }
    ensures value { result ≡ short_coefficient word }
    ensures within { IsWithin 1 result }
{
    (word % 4) as i16 - 1
}

/// A short element, by sorting the words.
pub fn short_of(words: &[u32; 761]) -> R3
    ensures value { result.coefficients ≡ short_element words.now }
    ensures short { IsShort result.coefficients }
{
    let mut sorted = mark(words);
    sorted.sort_unstable();
    let mut coefficients = [0; 761];
    for k in 0..761 {
        coefficients[k] = short_coefficient(sorted[k]);
    }
    R3::new(&coefficients)
}

/// The coefficient of a word.
fn small_coefficient(word: u32) -> i16
    ensures value { result ≡ small_coefficient word }
    ensures within { IsWithin 1 result }
{
    (word % (1 << 30) * 3 / (1 << 30)) as i16 - 1
}

/// A small element, word by word.
pub fn small_of(words: &[u32; 761]) -> R3
    ensures { result.coefficients ≡ small_element words.now }
{
    let mut coefficients = [0; 761];
    for k in 0..761 {
        coefficients[k] = small_coefficient(words[k]);
    }
    R3::new(&coefficients)
}
