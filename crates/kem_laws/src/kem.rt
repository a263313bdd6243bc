//! The trait of key encapsulation mechanisms.

ghost use Rattle.std.specs.Prelude.{◌≡◌, ℕ, length, Some, None, is_ok, OnErr, MatchResult, if◌then◌else◌};
ghost use Rattle.kem_laws.specs.Mechanism.{Mechanism, IsLawful, IsLawfulMechanism, HasSizes};

use dr_base::Key32;
use std::alloc::{AllocError, Global};

/// The seed gives no pair of keys.
#[derive(Clone, Copy, Debug, PartialEq, Eq)]
pub struct NoPair;

/// No pair has a secret of these bytes.
#[derive(Clone, Copy)]
pub struct BadSecret {
    /// The place of the first byte that no secret has there.
    pub at: usize,
}

/// A key encapsulation mechanism. Its keys and ciphertexts are slices of the lengths that its
/// constants name.
pub trait Kem {
    /// The length of a public key, in bytes.
    const PUBLIC: usize;

    /// The length of a secret, in bytes.
    const SECRET: usize;

    /// The length of a ciphertext, in bytes.
    const CIPHERTEXT: usize;

    /// The room that the mechanism works in. What stands in it at a call doesn't matter.
    type Work: Drop;

    // The same three lengths, for clauses.
    ghost PUBLIC: { ℕ };

    ghost SECRET: { ℕ };

    ghost CIPHERTEXT: { ℕ };

    // What the mechanism gives, as functions on lists of bytes, and its sizes.
    ghost mechanism: { Mechanism };

    /// Takes the room to work in. No other call takes memory.
    fn work(alloc: Global) -> Result<Self::Work, AllocError>;

    /// Makes the pair of keys of a seed, or leaves both slices as they were.
    fn pair(
        work: &mut Self::Work,
        seed: &Key32,
        public: &mut [u8],
        secret: &mut [u8],
    ) -> Result<(), NoPair>
        requires public_size { length public.old ≡ mechanism.public }
        requires secret_size { length secret.old ≡ mechanism.secret }
        ensures exact { mechanism.meaning.pair_of seed.now.bytes
            ≡ (if is_ok result then Some (public.new, secret.new) else None) }
        ensures err_public { OnErr result (public.new ≡ public.old) }
        ensures err_secret { OnErr result (secret.new ≡ secret.old) };

    /// Makes the ciphertext of a seed for a public key, and answers the shared key.
    fn encap(work: &mut Self::Work, public: &[u8], seed: &Key32, ciphertext: &mut [u8]) -> Key32
        requires public_size { length public.now ≡ mechanism.public }
        requires ciphertext_size { length ciphertext.old ≡ mechanism.ciphertext }
        ensures { mechanism.meaning.encap_of public.now seed.now.bytes
            ≡ (ciphertext.new, result.bytes) };

    /// Whether bytes are a lawful secret, or else where the first bad byte stands.
    fn is_secret(bytes: &[u8]) -> Result<(), BadSecret>
        requires { length bytes.now ≡ mechanism.secret }
        ensures { MatchResult result
            (λ _. IsLawful mechanism.meaning bytes.now)
            (λ bad. mechanism.meaning.bad_byte bytes.now ≡ Some bad.at) };

    /// The shared key of a ciphertext, by a lawful secret.
    fn decap(work: &mut Self::Work, secret: &[u8], ciphertext: &[u8]) -> Key32
        requires secret_size { length secret.now ≡ mechanism.secret }
        requires lawful { IsLawful mechanism.meaning secret.now }
        requires ciphertext_size { length ciphertext.now ≡ mechanism.ciphertext }
        ensures { result.bytes ≡ mechanism.meaning.decap_of secret.now ciphertext.now };

    // The mechanism's law: sizes, and that what is encapsulated to a pair's public key is
    // decapsulated by its secret.
    ghost law: { IsLawfulMechanism mechanism };

    // The constants are the mechanism's sizes.
    ghost sizes: { HasSizes mechanism PUBLIC SECRET CIPHERTEXT };
}
