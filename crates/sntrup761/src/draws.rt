//! What a seed is expanded to.

ghost use Rattle.std.specs.Prelude.{◌≡◌, ◌+◌, ◌*◌, ◌≤◌, ◌<◌, length, codes};
ghost use Rattle.sntrup_core.specs.Core.{IsShort};
ghost use Rattle.sntrup761.specs.Draws.{stream_of, nonce_of, word_at, words_of, drawn_g, drawn_f, drawn_rho, drawn_r};

use dr_base::put;
use dr_chacha20::xor_in_place;
use ntru_ring::R3;
use sntrup_core::{short_of, small_of};

/// The nonce of a try.
#[tactic(auto, unfolding(crate::specs::Draws::nonce_of))]
pub(crate) fn nonce_of(number: u32, label: &[u8; 8]) -> [u8; 12]
    ensures { result ≡ nonce_of number label.now }
{
    let mut nonce = [0; 12];
    let at = put(&mut nonce, 0, &number.to_le_bytes());
    put(&mut nonce, at, label);
    nonce
}

/// The word at the place `k`.
fn word_at(bytes: &[u8; 3044], k: usize) -> u32
    requires { k < 761 }
    ensures { result ≡ word_at bytes.now k }
{
    u32::from_le_bytes([
        bytes[4 * k],
        bytes[4 * k + 1],
        bytes[4 * k + 2],
        bytes[4 * k + 3],
    ])
}

/// The bytes of a try's words.
#[tactic(auto, unfolding(crate::specs::Draws::stream_of))]
fn word_bytes(seed: &[u8; 32], nonce: &[u8; 12]) -> [u8; 3044]
    ensures { result ≡ stream_of seed.now nonce.now 3044 }
{
    let mut bytes = [0; 3044];
    xor_in_place(seed, 0, nonce, &mut bytes);
    bytes
}

/// The words of a try.
fn words_of(seed: &[u8; 32], nonce: &[u8; 12]) -> [u32; 761]
    ensures { result ≡ words_of seed.now nonce.now }
{
    let bytes = word_bytes(seed, nonce);
    let mut words = [0; 761];
    for k in 0..761 {
        words[k] = word_at(&bytes, k);
    }
    words
}

/// g of a try.
#[tactic(auto, unfolding(crate::specs::Draws::drawn_g))]
pub(crate) fn draw_g(seed: &[u8; 32], number: u32) -> R3
    ensures { result.coefficients ≡ drawn_g seed.now number }
{
    small_of(&words_of(seed, &nonce_of(number, b"draw-g00")))
}

/// f of a try.
#[tactic(auto, unfolding(crate::specs::Draws::drawn_f))]
pub(crate) fn draw_f(seed: &[u8; 32], number: u32) -> R3
    ensures { result.coefficients ≡ drawn_f seed.now number }
{
    short_of(&words_of(seed, &nonce_of(number, b"draw-f00")))
}

/// What takes the place of the encapsulated element where a ciphertext is refused.
#[tactic(auto, unfolding(crate::specs::Draws::drawn_rho, crate::specs::Draws::stream_of))]
pub(crate) fn draw_rho(seed: &[u8; 32]) -> [u8; 191]
    ensures { result ≡ drawn_rho seed.now }
{
    let mut rho = [0; 191];
    xor_in_place(seed, 0, &nonce_of(0, b"draw-rho"), &mut rho);
    rho
}

/// The element that is encapsulated.
#[tactic(auto, unfolding(crate::specs::Draws::drawn_r))]
pub(crate) fn draw_r(seed: &[u8; 32]) -> R3
    ensures { result.coefficients ≡ drawn_r seed.now }
{
    short_of(&words_of(seed, &nonce_of(0, b"draw-enc")))
}
