//! The guard of a box.

ghost use Rattle.std.specs.Prelude.{◌≡◌, ◌++◌, Ok, Err, Option, option_map, IfErr, OnErr, OnOk};
ghost use Rattle.relay_guard.specs.Guards.{judged, key_of, last_of, new_guard, token_tag, with_last};
ghost use Rattle.relay_guard.specs.Seen.{token_seen};

use crate::tag::token_tag;
use dr_base::Key32;

/// Under whose key a request is tagged: a post under the poster's, all else under the owner's.
#[derive(Clone, Copy)]
pub enum Role {
    Owner,
    Poster,
}

/// A counter, and a tag over it and over a request.
#[derive(Clone, Copy)]
pub struct Token<'a> {
    pub counter: u64,
    pub tag: &'a [u8; 32],
}

/// Why a request isn't served: the first rule that it breaks, and for rule 3 the last counter that
/// was served.
#[derive(Clone, Copy)]
pub struct Denied {
    pub rule: u8,
    pub last: u64,
}

/// The two keys of a box, and the last counter that was served under each.
#[derive(Drop)]
pub struct Guard {
    pub owner: Key32,
    pub poster: Key32,
    pub owner_last: u64,
    pub poster_last: u64,
}

impl Guard {
    /// A guard under whose keys nothing was served.
    pub fn new(owner: Key32, poster: Key32) -> Guard
        ensures { result ≡ new_guard owner poster }
    {
        Guard {
            owner,
            poster,
            owner_last: 0,
            poster_last: 0,
        }
    }

    // the last counter that was served under a role's key
    fn last(&self, role: Role) -> u64
        ensures { result ≡ last_of self.now role }
    {
        match role {
            Role::Owner => self.owner_last,
            Role::Poster => self.poster_last,
        }
    }

    // a counter was served under a role's key
    fn set_last(&mut self, role: Role, counter: u64)
        ensures { self.new ≡ with_last self.old role counter }
    {
        match role {
            Role::Owner => self.owner_last = counter,
            Role::Poster => self.poster_last = counter,
        }
    }

    // the tag of a request under a role's key
    fn tag(&self, role: Role, counter: u64, head: &[u8], name: &[u8], rest: &[u8]) -> [u8; 32]
        ensures { result ≡ token_tag (key_of self.now role) counter
            (head.now ++ (name.now ++ rest.now)) }
    {
        match role {
            Role::Owner => token_tag(&self.owner, counter, head, name, rest),
            Role::Poster => token_tag(&self.poster, counter, head, name, rest),
        }
    }

    /// Serves a request, which stands in three pieces one after the other, or denies it by the
    /// first rule that it breaks. Where it is served its counter is the last one then, else the
    /// guard stays as it was.
    #[tactic(auto, unfolding(crate::specs::Guards::judged))]
    pub fn judge(
        &mut self,
        role: Role,
        token: &Option<Token<'_>>,
        head: &[u8],
        name: &[u8],
        rest: &[u8],
    ) -> Result<(), Denied>
        ensures served { OnOk result (judged self.old role (option_map token_seen token.now)
            (head.now ++ (name.now ++ rest.now)) ≡ Ok self.new) }
        ensures denied { IfErr result (λ d. judged self.old role (option_map token_seen token.now)
            (head.now ++ (name.now ++ rest.now)) ≡ Err d) }
        ensures stays { OnErr result (self.new ≡ self.old) }
    {
        let Some(token) = token else {
            return Err(Denied { rule: 1, last: 0 });
        };
        let tag = self.tag(role, token.counter, head, name, rest);
        if *token.tag != tag {
            return Err(Denied { rule: 2, last: 0 });
        }
        let last = self.last(role);
        if token.counter <= last {
            return Err(Denied { rule: 3, last });
        }
        self.set_last(role, token.counter);
        Ok(())
    }
}
