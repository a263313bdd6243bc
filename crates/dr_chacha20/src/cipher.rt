//! The key stream and the encryption (RFC 8439, 2.4).

ghost use Rattle.std.specs.Prelude.{◌≡◌, ℕ, ◌+◌, ◌*◌, ◌/◌, ◌^◌, ◌<◌, ◌≤◌, ◌++◌, List, length};
ghost use Rattle.dr_chacha20.specs.Block.{block_of};
ghost use Rattle.dr_chacha20.specs.Stream.{encrypted, key_stream, xor_at, xor_of};

use crate::rows::{block_words, initial_state, two_block_words, xor_rows};

/// The 64 bytes of the key stream's block with the number `counter`.
pub fn block(key: &[u8; 32], counter: u32, nonce: &[u8; 12]) -> [u8; 64]
    ensures { result ≡ block_of key.now counter nonce.now }
{
    let mut bytes = [0; 64];
    xor_block(key, counter, nonce, &mut bytes, 0);
    bytes
}

/// Encrypts a text in place, or decrypts one, with the key stream from the block `counter` on.
///
/// The counter may not pass the last block, whose number is 2^32 - 1.
pub fn xor_in_place(key: &[u8; 32], counter: u32, nonce: &[u8; 12], bytes: &mut [u8])
    requires { counter + (length bytes.old + 63) / 64 ≤ 2 ^ 32 }
    ensures { bytes.new ≡ encrypted key.now counter nonce.now bytes.old }
{
    xor_whole_blocks(key, counter, nonce, bytes);
    let blocks = bytes.len() / 64;
    if bytes.len() > 64 * blocks {
        let stream = block(key, counter + blocks as u32, nonce);
        xor_rest(bytes, 64 * blocks, &stream);
    }
}

// Encrypts the blocks of the text that are whole.
fn xor_whole_blocks(key: &[u8; 32], counter: u32, nonce: &[u8; 12], bytes: &mut [u8])
    requires { counter + (length bytes.old + 63) / 64 ≤ 2 ^ 32 }
    ensures { bytes.new ≡ xor_of bytes.old
        (key_stream key.now counter nonce.now (length bytes.old / 64)) }
{
    xor_pairs(key, counter, nonce, bytes);
    let done = bytes.len() / 128 * 2;
    if bytes.len() / 64 > done {
        xor_block(key, counter + done as u32, nonce, bytes, 64 * done);
    }
}

// Encrypts as many pairs of whole blocks as the text has.
fn xor_pairs(key: &[u8; 32], counter: u32, nonce: &[u8; 12], bytes: &mut [u8])
    requires { counter + (length bytes.old + 63) / 64 ≤ 2 ^ 32 }
    ensures { bytes.new ≡ xor_of bytes.old
        (key_stream key.now counter nonce.now (length bytes.old / 128 * 2)) }
{
    'pairs: for i in 0..bytes.len() / 128 {
        xor_two_blocks(key, counter + 2 * i as u32, nonce, bytes, 128 * i);
    }
}

// Xors the blocks `counter` and `counter + 1` into the text from `at` on.
fn xor_two_blocks(key: &[u8; 32], counter: u32, nonce: &[u8; 12], bytes: &mut [u8], at: usize)
    requires room { at + 128 ≤ length bytes.old }
    requires counts { counter + 1 < 2 ^ 32 }
    ensures { bytes.new ≡ xor_at at bytes.old
        (block_of key.now counter nonce.now ++ block_of key.now (counter + 1) nonce.now) }
{
    let (first, second) = two_block_words(
        initial_state(key, counter, nonce),
        initial_state(key, counter + 1, nonce),
    );
    xor_rows(bytes, at, first);
    xor_rows(bytes, at + 64, second);
}

// Xors one block into the text from `at` on.
fn xor_block(key: &[u8; 32], counter: u32, nonce: &[u8; 12], bytes: &mut [u8], at: usize)
    requires { at + 64 ≤ length bytes.old }
    ensures { bytes.new ≡ xor_at at bytes.old (block_of key.now counter nonce.now) }
{
    xor_rows(bytes, at, block_words(initial_state(key, counter, nonce)));
}

// Xors a block's beginning into what is left of the text from `at` on.
fn xor_rest(bytes: &mut [u8], at: usize, stream: &[u8; 64])
    requires begins { at ≤ length bytes.old }
    requires ends { length bytes.old ≤ at + 64 }
    ensures { bytes.new ≡ xor_at at bytes.old stream.now }
{
    'rest: for i in at..bytes.len() {
        bytes[i] ^= stream[i - at];
    }
}
