//! The counters of a sync's tokens.

ghost use Rattle.std.specs.Prelude.{◌≡◌, ◌+◌, ◌<◌, ◌^◌, ◌-◌, IfSome, IfNone, false, option_map, true};
ghost use Rattle.relay_wire.specs.Seen.{replied_of};
ghost use Rattle.sync_model.specs.Tokens.{counter_under, first_tokens, is_behind, is_repeated, last_told, next_counter, tokens_by, with_counter};
ghost use Rattle.client.specs.Syncing.Keys.{keys_seen};

use super::keys::BoxKeys;
use relay_guard::Role;
use relay_wire::Reply;
use std::marker::Model;

/// The counter of a sync's next request under each key, and whether the request that waits was
/// denied once.
#[derive(Drop)]
pub(crate) struct Tokens {
    owner: u64,
    poster: u64,
    again: bool,
}

impl Model for Tokens {
    ghost use Rattle.sync_model.specs.Tokens.{Tokens as SyncTokens};

    ghost Value = { SyncTokens };

    ghost view = { λ t. record { owner = t.owner; poster = t.poster; again = t.again } };
}

/// The counter after one. The greatest stays.
fn next(counter: u64) -> u64
    ensures { result ≡ next_counter counter }
{
    if counter < u64::MAX {
        counter + 1
    } else {
        counter
    }
}

/// The last counter that the relay told, where it denies a request whose counter isn't above that,
/// and there is one above it.
fn behind(reply: &Reply<'_>) -> Option<u64>
    ensures some { IfSome result (λ last. (is_behind (replied_of reply.now) ≡ true)
        × (last ≡ last_told (replied_of reply.now)) × (last < 2 ^ 64 - 1)) }
    ensures none { IfNone result (is_behind (replied_of reply.now) ≡ false) }
{
    match reply {
        Reply::Denied(denied) => {
            if denied.rule != 3 {
                return None;
            }
            if denied.last < u64::MAX {
                Some(denied.last)
            } else {
                None
            }
        }
        _ => None,
    }
}

impl Tokens {
    /// Before the first request.
    pub(crate) fn first() -> Tokens
        ensures { result ≡ first_tokens }
    {
        Tokens {
            owner: 1,
            poster: 1,
            again: false,
        }
    }

    /// The counter of the next request under a role's key.
    pub(crate) fn counter(&self, role: Role) -> u64
        ensures { result ≡ counter_under self.now role }
    {
        match role {
            Role::Owner => self.owner,
            Role::Poster => self.poster,
        }
    }

    /// The next request under a role's key has this counter, and is or isn't one that was denied.
    fn set(&mut self, role: Role, counter: u64, again: bool)
        ensures { self.new ≡ with_counter self.old role counter again }
    {
        self.again = again;
        match role {
            Role::Owner => self.owner = counter,
            Role::Poster => self.poster = counter,
        }
    }

    /// The counter of a request that is to be made once more after this reply, if it is to be.
    fn repeat(&self, keys: &Option<BoxKeys>, reply: &Reply<'_>) -> Option<u64>
        ensures some { IfSome result (λ counter.
            (is_repeated (option_map keys_seen keys.now) self.now (replied_of reply.now) ≡ true)
            × (counter ≡ last_told (replied_of reply.now) + 1)) }
        ensures none { IfNone result (is_repeated (option_map keys_seen keys.now) self.now
            (replied_of reply.now) ≡ false) }
    {
        match keys {
            None => None,
            Some(_) => {
                let denied = self.again;
                if denied {
                    return None;
                }
                match behind(reply) {
                    None => None,
                    Some(last) => Some(last + 1),
                }
            }
        }
    }

    /// A reply was read: whether its request, which is tagged under a role's key, is made once
    /// more.
    pub(crate) fn reads(&mut self, role: Role, keys: &Option<BoxKeys>, reply: &Reply<'_>) -> bool
        ensures again { result
            ≡ is_repeated (option_map keys_seen keys.now) self.old (replied_of reply.now) }
        ensures counts { self.new ≡ tokens_by role self.old (replied_of reply.now) result }
    {
        match self.repeat(keys, reply) {
            Some(counter) => {
                self.set(role, counter, true);
                true
            }
            None => {
                let counter = next(self.counter(role));
                self.set(role, counter, false);
                false
            }
        }
    }
}
