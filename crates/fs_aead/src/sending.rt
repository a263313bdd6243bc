//! The stream of the keys that seal.

ghost use Rattle.std.specs.Prelude.{◌≡◌, ℕ, ◌+◌, ◌-◌, ◌^◌, ◌<◌};
ghost use Rattle.fs_aead.specs.Chain.{chain_message_key, next_chain};

use crate::chain::step;
use dr_base::Key32;
use etm_aead::SealKey;
use std::marker::Model;

/// A stream of the keys that seal. A contract sees its chain key, and as its count how many keys it
/// gave.
///
/// It can't be copied, and it has to be spent: by `next`, or by `rest`. No two calls of `next` have
/// the same stream, since the first takes it:
///
/// ```text
/// let (later, first_key) = stream.next();
/// let (later, second_key) = stream.next(); // use of moved value: `stream`
/// ```
pub struct SendStream {
    chain: Key32,
    sent: u32,
}

impl Model for SendStream {
    ghost use Rattle.fs_aead.specs.Stream.{Stream};

    ghost Value = { Stream };

    ghost view = { λ s. record { chain = s.chain.bytes; count = s.sent } };
}

impl SendStream {
    /// The stream of a chain key that gave `sent` keys before.
    pub fn resume(chain: Key32, sent: u32) -> SendStream
        ensures { result ≡ record { chain = chain.bytes; count = sent } }
    {
        SendStream { chain, sent }
    }

    /// The key of the next index, and the stream after it.
    pub fn next(self) -> (SendStream, SealKey)
        requires { self.count < 2 ^ 32 - 1 }
        ensures stream { result.0
            ≡ record { chain = next_chain self.chain; count = self.count + 1 } }
        ensures key { result.1 ≡ chain_message_key self.chain }
    {
        let SendStream { chain, sent } = self;
        let keys = step(chain);
        let later = SendStream {
            chain: keys.chain,
            sent: sent + 1,
        };
        (later, SealKey::from_message(keys.message))
    }

    /// Gives the stream's parts back: its chain key, and how many keys it gave.
    pub fn rest(self) -> (Key32, u32)
        ensures chain { result.0.bytes ≡ self.chain }
        ensures sent { result.1 ≡ self.count }
    {
        let SendStream { chain, sent } = self;
        (chain, sent)
    }
}
