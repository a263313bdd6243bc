//! HMAC with SHA-256, on a message taken in piece by piece (RFC 2104, 2).

ghost use Rattle.std.specs.Prelude.{◌≡◌, ℕ, ◌≤◌, List, [], ◌++◌, drop, length, map, bit_xor};
ghost use Rattle.hmac_hkdf.specs.Hmac.{MacHolds, block_key, hmac_of, padded};

use sha2::{Digest, Sha256};

// The length of a block of SHA-256, in bytes.
const BLOCK_LEN: usize = 64;

const INNER_PAD: u8 = 0x36;

const OUTER_PAD: u8 = 0x5c;

// Writes `bytes` over the beginning of `block`.
fn put_first(block: &mut [u8], bytes: &[u8])
    requires { length bytes.now ≤ length block.old }
    ensures { block.new ≡ bytes.now ++ drop (length bytes.now) block.old }
{
    block[..bytes.len()].copy_from_slice(bytes);
}

// The key as one block.
#[tactic(auto, using(crate::proofs::Pads::block_key_short))]
fn block_key(key: &[u8]) -> [u8; 64]
    ensures { result ≡ block_key key.now }
{
    let mut block = [0u8; BLOCK_LEN];
    if key.len() > BLOCK_LEN {
        put_first(&mut block, &Sha256::digest(key));
    } else {
        put_first(&mut block, key);
    }
    block
}

// The block with each byte xored with `pad`.
#[tactic(auto, using(crate::proofs::Pads::map_more, crate::proofs::Pads::map_all))]
fn xored(block: &[u8; 64], pad: u8) -> [u8; 64]
    ensures { result ≡ map (λ b. bit_xor b pad) block.now }
{
    let mut out = [0u8; BLOCK_LEN];
    'bytes: for i in 0..BLOCK_LEN {
        out[i] = block[i] ^ pad;
    }
    out
}

/// An HMAC of a key and of a message that is given piece by piece.
#[derive(Drop)]
pub struct Mac {
    inner: Sha256,
    // The key under the outer pad is hashed at once, so that a copy of a `Mac` saves the hashing of
    // both pads.
    outer: Sha256,
}

impl Mac {
    /// An HMAC of the empty message, under a key of any length.
    pub fn new(key: &[u8]) -> Mac
        ensures { MacHolds result key.now [] }
    {
        let block = block_key(key);
        let mut inner = Sha256::new();
        inner.update(&xored(&block, INNER_PAD));
        let mut outer = Sha256::new();
        outer.update(&xored(&block, OUTER_PAD));
        Mac { inner, outer }
    }

    /// Adds `piece` to the message.
    #[tactic(auto, unfolding(crate::specs::Hmac::MacHolds), using(std::proofs::lemmas::List::append_assoc))]
    pub fn update(&mut self, piece: &[u8])
        ensures { (key m : List ℕ) → MacHolds self.old key m
            → MacHolds self.new key (m ++ piece.now) }
    {
        self.inner.update(piece);
    }

    /// The HMAC of the message.
    #[tactic(auto, unfolding(crate::specs::Hmac::MacHolds, crate::specs::Hmac::hmac_of))]
    pub fn finish(self) -> [u8; 32]
        ensures { (key m : List ℕ) → MacHolds self key m → result ≡ hmac_of key m }
    {
        let Mac { inner, mut outer } = self;
        outer.update(&inner.finalize());
        outer.finalize()
    }

    // A second `Mac` of the same key and message.
    pub(crate) fn copied(&self) -> Mac
        ensures { result ≡ self.now }
    {
        Mac {
            inner: self.inner.clone().unwrap(),
            outer: self.outer.clone().unwrap(),
        }
    }
}

/// The HMAC of a whole message, under a key of any length.
pub fn hmac(key: &[u8], message: &[u8]) -> [u8; 32]
    ensures { result ≡ hmac_of key.now message.now }
{
    let mut mac = Mac::new(key);
    mac.update(message);
    mac.finish()
}
