//! The stream of the keys that open.

ghost use Rattle.std.specs.Prelude.{◌≡◌, ℕ, ◌+◌, ◌-◌, ◌^◌, ◌<◌, ◌≤◌, ◌++◌, length};
ghost use Rattle.fs_aead.specs.Chain.{chain_message_key, chain_of, next_chain};
ghost use Rattle.fs_aead.specs.Table.{AllBefore, shelved};

use crate::chain::step;
use crate::rows::mark_rows;
use crate::table::Skipped;
use arrayvec::ArrayVec;
use dr_base::{KEPT_LIMIT, Kept, Key32, Position};
use etm_aead::OpenKey;
use std::marker::Model;

/// A stream of the keys that open. A contract sees its chain key, and as its count its reach, the
/// greatest index whose key it gave or passed.
///
/// It can't be copied, and it has to be spent: by `next`, by `advance`, or by `rest`. A stream that
/// is left unspent does not compile, since the type isn't `Drop`.
pub struct ReceiveStream {
    chain: Key32,
    reach: u32,
}

impl Model for ReceiveStream {
    ghost use Rattle.fs_aead.specs.Stream.{Stream};

    ghost Value = { Stream };

    ghost view = { λ s. record { chain = s.chain.bytes; count = s.reach } };
}

impl ReceiveStream {
    /// The stream of a chain key that stands after the key of the index `reach`.
    pub fn resume(chain: Key32, reach: u32) -> ReceiveStream
        ensures { result ≡ record { chain = chain.bytes; count = reach } }
    {
        ReceiveStream { chain, reach }
    }

    /// The key of the next index, and the stream after it.
    pub fn next(self) -> (ReceiveStream, OpenKey)
        requires { self.count < 2 ^ 32 - 1 }
        ensures stream { result.0
            ≡ record { chain = next_chain self.chain; count = self.count + 1 } }
        ensures key { result.1 ≡ chain_message_key self.chain }
    {
        let ReceiveStream { chain, reach } = self;
        let keys = step(chain);
        let later = ReceiveStream {
            chain: keys.chain,
            reach: reach + 1,
        };
        (later, OpenKey::from_message(keys.message))
    }

    /// Puts the keys up to the index `to` after those of the table, each under its position in the
    /// epoch, and answers the stream after them. `Skipped::room_for` tells whether they have room.
    pub fn advance(self, epoch: u32, skipped: &mut Skipped, to: u32) -> ReceiveStream
        requires from { self.count ≤ to }
        requires room { length skipped.old + (to - self.count) ≤ KEPT_LIMIT }
        requires below { AllBefore skipped.old (record { epoch = epoch; index = self.count + 1 }) }
        ensures stream { result
            ≡ record { chain = chain_of self.chain (to - self.count); count = to } }
        ensures shelved { skipped.new ≡ skipped.old ++ shelved epoch self.chain self.count
            (to - self.count) }
    {
        if self.reach == to {
            return self;
        }
        let stream = self.advance_into(epoch, &mut skipped.keys, to);
        mark_rows(skipped.keys.as_slice(), &mut skipped.starts);
        stream
    }

    /// As `advance`, in a table that stands in a larger value. `room_for` tells whether the keys
    /// have room. Where the table ascends and its positions come before that of the first key, it
    /// ascends afterwards too, by `passed_keys_ascend`.
    fn advance_into(
        self,
        epoch: u32,
        table: &mut ArrayVec<Kept, KEPT_LIMIT>,
        to: u32,
    ) -> ReceiveStream
        requires from { self.count ≤ to }
        requires room { length table.old.items + (to - self.count) ≤ KEPT_LIMIT }
        ensures stream { result
            ≡ record { chain = chain_of self.chain (to - self.count); count = to } }
        ensures shelved { table.new.items ≡ table.old.items ++ shelved epoch self.chain self.count
            (to - self.count) }
    {
        let reach = self.reach;
        let mut stream = self;
        'keys: for passed in 0..to - reach {
            let (later, key) = stream.next();
            stream = later;
            table.push(Kept {
                position: Position {
                    epoch,
                    index: reach + passed + 1,
                },
                key: key.shelve(),
            });
        }
        stream
    }

    /// Gives the stream's parts back: its chain key and its reach.
    pub fn rest(self) -> (Key32, u32)
        ensures chain { result.0.bytes ≡ self.chain }
        ensures reach { result.1 ≡ self.count }
    {
        let ReceiveStream { chain, reach } = self;
        (chain, reach)
    }
}
