//! The block function on a state of four rows (RFC 8439, 2.3). A column round is one quarter round
//! of the rows, word by word. A diagonal round is one too, with the last three rows turned.

ghost use Rattle.std.specs.Prelude.{◌≡◌, ℕ, ◌+◌, ◌*◌, ◌%◌, ◌<◌, ◌≤◌, length, slice_index};
ghost use Rattle.std.specs.Simd.Lanes.{zip2};
ghost use Rattle.dr_chacha20.specs.Block.{add32, xor_rotate, quarter_round, column_round, diagonal_round, double_rounds, word_at, initial_state, block_words, bytes_of};
ghost use Rattle.dr_chacha20.specs.Rows.{row_of, words_of};
ghost use Rattle.dr_chacha20.specs.Stream.{xor_at};

use byteorder::{ByteOrder, LittleEndian};
use std::simd::{u8x16, u32x4};

// Rounds come in pairs, of columns and then of diagonals.
const DOUBLE_ROUNDS: u32 = 10;

/// A state of 16 words, by its rows.
#[derive(Clone, Copy)]
pub struct Rows {
    a: u32x4,
    b: u32x4,
    c: u32x4,
    d: u32x4,
}

#[inline(always)]
fn add(x: u32x4, y: u32x4) -> u32x4
    ensures { (j : ℕ) → j < 4 → slice_index result j ≡ add32 (slice_index x j) (slice_index y j) }
{
    x + y
}

#[inline(always)]
fn xor_rotate(x: u32x4, y: u32x4, k: u32) -> u32x4
    requires { (0 < k) × (k < 32) }
    ensures { (j : ℕ) → j < 4
        → slice_index result j ≡ xor_rotate (slice_index x j) (slice_index y j) k }
{
    let z = x ^ y;
    (z << u32x4::splat(k)) | (z >> u32x4::splat(32 - k))
}

#[tactic(auto, unfolding(crate::specs::Block::quarter_round))]
#[inline(always)]
fn quarter_round(x: Rows) -> Rows
    ensures { (j : ℕ) → j < 4
        → (
          slice_index result.a j,
          slice_index result.b j,
          slice_index result.c j,
          slice_index
              result.d j,
        )
        ≡ quarter_round (slice_index x.a j) (slice_index x.b j) (slice_index x.c j)
        (slice_index x.d j) }
{
    let a1 = add(x.a, x.b);
    let d1 = xor_rotate(x.d, a1, 16);
    let c1 = add(x.c, d1);
    let b1 = xor_rotate(x.b, c1, 12);
    let a2 = add(a1, b1);
    let d2 = xor_rotate(d1, a2, 8);
    let c2 = add(c1, d2);
    let b2 = xor_rotate(b1, c2, 7);
    Rows {
        a: a2,
        b: b2,
        c: c2,
        d: d2,
    }
}

// A row turned to the left by one word. The next two turn by two and by three.
#[inline(always)]
fn turned_by_one(row: u32x4) -> u32x4
    ensures { (j : ℕ) → j < 4 → slice_index result j ≡ slice_index row ((j + 1) % 4) }
{
    row.rotate_elements_left::<1>()
}

#[inline(always)]
fn turned_by_two(row: u32x4) -> u32x4
    ensures { (j : ℕ) → j < 4 → slice_index result j ≡ slice_index row ((j + 2) % 4) }
{
    row.rotate_elements_left::<2>()
}

#[inline(always)]
fn turned_by_three(row: u32x4) -> u32x4
    ensures { (j : ℕ) → j < 4 → slice_index result j ≡ slice_index row ((j + 3) % 4) }
{
    row.rotate_elements_left::<3>()
}

#[tactic(auto, unfolding(crate::specs::Block::column_round))]
#[inline(always)]
fn column_round(x: Rows) -> Rows
    ensures { words_of result ≡ column_round (words_of x) }
{
    quarter_round(x)
}

#[tactic(auto, unfolding(crate::specs::Block::diagonal_round))]
#[inline(always)]
fn diagonal_round(x: Rows) -> Rows
    ensures { words_of result ≡ diagonal_round (words_of x) }
{
    let turned = quarter_round(Rows {
        a: x.a,
        b: turned_by_one(x.b),
        c: turned_by_two(x.c),
        d: turned_by_three(x.d),
    });
    Rows {
        a: turned.a,
        b: turned_by_three(turned.b),
        c: turned_by_two(turned.c),
        d: turned_by_one(turned.d),
    }
}

#[inline(always)]
fn sum(x: Rows, y: Rows) -> Rows
    ensures { words_of result ≡ zip2 add32 (words_of x) (words_of y) }
{
    Rows {
        a: add(x.a, y.a),
        b: add(x.b, y.b),
        c: add(x.c, y.c),
        d: add(x.d, y.d),
    }
}

fn word(bytes: &[u8], i: usize) -> u32
    requires { 4 * i + 4 ≤ length bytes.now }
    ensures { result ≡ word_at bytes.now i }
{
    LittleEndian::read_u32(&bytes[4 * i..])
}

/// The state that a block begins with.
#[tactic(auto, unfolding(crate::specs::Block::initial_state))]
#[inline(always)]
pub fn initial_state(key: &[u8; 32], counter: u32, nonce: &[u8; 12]) -> Rows
    ensures { words_of result ≡ initial_state key.now counter nonce.now }
{
    Rows {
        a: u32x4::from_array([0x6170_7865, 0x3320_646e, 0x7962_2d32, 0x6b20_6574]),
        b: u32x4::from_array([word(key, 0), word(key, 1), word(key, 2), word(key, 3)]),
        c: u32x4::from_array([word(key, 4), word(key, 5), word(key, 6), word(key, 7)]),
        d: u32x4::from_array([counter, word(nonce, 0), word(nonce, 1), word(nonce, 2)]),
    }
}

/// The words of the block that begins with a state.
#[tactic(auto, unfolding(crate::specs::Block::double_rounds))]
#[inline(always)]
pub fn block_words(start: Rows) -> Rows
    ensures { words_of result ≡ block_words (words_of start) }
{
    let mut x = start;
    'rounds: for _round in 0..DOUBLE_ROUNDS {
        x = diagonal_round(column_round(x));
    }
    sum(x, start)
}

/// The words of two blocks, a double round of each by turns, so that a processor works on one while
/// it waits for the other.
#[tactic(auto, unfolding(crate::specs::Block::double_rounds))]
#[inline(always)]
pub fn two_block_words(start: Rows, other: Rows) -> (Rows, Rows)
    ensures first { words_of result.0 ≡ block_words (words_of start) }
    ensures second { words_of result.1 ≡ block_words (words_of other) }
{
    let mut x = start;
    let mut y = other;
    'rounds: for _round in 0..DOUBLE_ROUNDS {
        x = diagonal_round(column_round(x));
        y = diagonal_round(column_round(y));
    }
    (sum(x, start), sum(y, other))
}

// Xors the 16 bytes of a row into those from `at` on.
#[inline(always)]
fn xor_row(bytes: &mut [u8], at: usize, row: u32x4)
    requires { at + 16 ≤ length bytes.old }
    ensures { bytes.new ≡ xor_at at bytes.old (bytes_of (row_of row)) }
{
    let xored = u8x16::from_slice(&bytes[at..]) ^ row.to_le_bytes();
    xored.copy_to_slice(&mut bytes[at..]);
}

/// Xors the 64 bytes of a block's words into those from `at` on.
#[inline(always)]
pub fn xor_rows(bytes: &mut [u8], at: usize, x: Rows)
    requires { at + 64 ≤ length bytes.old }
    ensures { bytes.new ≡ xor_at at bytes.old (bytes_of (words_of x)) }
{
    xor_row(bytes, at, x.a);
    xor_row(bytes, at + 16, x.b);
    xor_row(bytes, at + 32, x.c);
    xor_row(bytes, at + 48, x.d);
}
