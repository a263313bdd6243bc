//! What a call of a line is to a side's client: the packet that the network gives, the seed that
//! is drawn, the amount.

ghost use Rattle.std.specs.Prelude.{◌≡◌, ◌-◌, ◌^◌, ◌<◌};
ghost use Rattle.dr_base.specs.Bytes.{AreBytes};
ghost use Rattle.dr_model.specs.Machines.Events.{does, says, takes};
ghost use Rattle.dr_model.specs.Machines.Steps.{amount_of};
ghost use Rattle.duet.specs.Acts.{IsPrepared};
ghost use Rattle.scripts.specs.Seen.{call_event, content_said, source_of};

use crate::network::packet_of;
use crate::sides::Duet;
use dr_base::Side;
use kem_laws::Kem;
use parties::{ClientCall, Seeded};
use scripts::{Call, LineCall, Said, Source};
use session_model::{Amount, Answer};

/// Bytes are below 256: a caller that needs this calls it.
fn are_bytes(bytes: &[u8])
    ensures { AreBytes bytes.now }
{
    let _bytes = bytes;
}

/// How many items an amount is, where this many stand.
fn items_in(amount: Amount, standing: u32) -> u32
    ensures { result ≡ amount_of amount standing }
{
    match amount {
        Amount::All => standing,
        Amount::Exactly(n) => n,
    }
}

impl<K: Kem> Duet<K> {
    /// A side would say a text, or a part of a long one. A draw is made, and used up, only where
    /// that may be said and needs a seed.
    fn saying<'a>(&mut self, side: Side, said: Said<'a>) -> Result<ClientCall<'a>, Answer>
        requires { self.old.sides.draws.made < 2 ^ 32 - 1 }
        ensures { let event = does side (says (content_said said.entry)) in
            IsPrepared K.mechanism self.old self.new side event result }
    {
        match self.party(side).say_check(said) {
            Err(refusal) => Err(Answer::Refused(refusal)),
            Ok(false) => Ok(Call::Say(Seeded { said, seed: None })),
            Ok(true) => {
                let seed = self.draws.next(&self.key);
                // The proof takes the length of the seed from this.
                let _bytes = &seed.bytes;
                Ok(Call::Say(Seeded {
                    said,
                    seed: Some(seed),
                }))
            }
        }
    }

    /// A side would take a packet, if the network has it to give.
    fn taking<'a>(&mut self, side: Side, source: Source<'_>) -> Result<ClientCall<'a>, Answer>
        ensures { let event = does side (takes (source_of source.entry)) in
            IsPrepared K.mechanism self.old self.new side event result }
    {
        match packet_of(self.posts.as_slice(), side, source) {
            Some(packet) => {
                are_bytes(packet.as_slice());
                Ok(Call::Take(packet))
            }
            None => Err(Answer::Nothing),
        }
    }

    /// What a call is to a side's client; else its answer, which changes nothing but the draws.
    pub fn prepared<'a>(&mut self, side: Side, call: LineCall<'a>) -> Result<ClientCall<'a>, Answer>
        requires { self.old.sides.draws.made < 2 ^ 32 - 1 }
        ensures { let event = call_event side call.entry in
            IsPrepared K.mechanism self.old self.new side event result }
    {
        match call {
            Call::Say(said) => self.saying(side, said),
            Call::Take(source) => self.taking(side, source),
            Call::Drop(items, amount) => {
                let standing = self.party(side).standing(items);
                Ok(Call::Drop(items, items_in(amount, standing)))
            }
            Call::DropLong(id) => Ok(Call::DropLong(id)),
        }
    }
}
