//! One act of a side: a call on its client, in which its disk may fail.

ghost use Rattle.std.specs.Prelude.{◌≡◌, None, Ok, is_some};
ghost use Rattle.dr_disk.specs.MemoryDisks.{state_of};
ghost use Rattle.dr_model.specs.Machines.Acts.{act_on, dropping, saying};
ghost use Rattle.session_model.specs.Clients.{say_check};
ghost use Rattle.scripts.specs.Seen.{content_said};
ghost use Rattle.client.specs.Clients.{IsReady, MayActOn};
ghost use Rattle.client.specs.Outcomes.{Acts, StaysPassing, dropped_as, said_as, taken_as};
ghost use Rattle.client.specs.Saying.{SaysWithDraw};
ghost use Rattle.parties.specs.Acts.{IsChecked, IsEnded, act_of_call, draw_given, ended_as};

use crate::given::Given;
use crate::post::Packet;
use client::{Client, DropRefusal, SayRefusal, TakeRefusal};
use dr_base::{Key32, Position};
use dr_disk::{Call as DiskCall, MemoryDisk};
use dr_ports::Draws;
use kem_laws::Kem;
use scripts::{Call, Said};
use session_model::{Answer, Refusal, Which};

/// What is said, with a seed exactly where the side needs one to say it.
#[derive(Drop)]
pub struct Seeded<'a> {
    pub said: Said<'a>,
    pub seed: Option<Key32>,
}

/// A call with all that the side's client is called with.
pub type ClientCall<'a> = Call<Seeded<'a>, Packet, u32>;

/// How an act ends.
#[derive(Drop)]
pub enum Ended {
    /// With this answer.
    Acknowledged(Answer),
    /// The side has this reason against it.
    Refused(Refusal),
    /// A call on the disk failed, of this kind.
    Faulted(DiskCall),
}

/// How it ends that something is said.
fn say_ended(said: Result<Position, SayRefusal>) -> Ended
    requires { IsEnded (said_as said) }
    ensures { ended_as result ≡ said_as said }
{
    match said {
        Ok(position) => Ended::Acknowledged(Answer::Said(position)),
        Err(SayRefusal::Refused(refusal)) => Ended::Refused(refusal),
        Err(SayRefusal::NoPair { .. }) => Ended::Refused(Refusal::NoPair),
        Err(SayRefusal::StoreFault { call }) => Ended::Faulted(call),
        Err(_) => unreachable!(),
    }
}

/// How the taking of a packet ends.
fn take_ended(taken: Result<Position, TakeRefusal>) -> Ended
    requires { IsEnded (taken_as taken) }
    ensures { ended_as result ≡ taken_as taken }
{
    match taken {
        Ok(position) => Ended::Acknowledged(Answer::Opened(position)),
        Err(TakeRefusal::Refused(refusal)) => Ended::Refused(refusal),
        Err(TakeRefusal::StoreFault { call }) => Ended::Faulted(call),
        Err(_) => unreachable!(),
    }
}

/// How it ends that items leave a box, which is answered so.
fn drop_ended(answer: Answer, dropped: Result<(), DropRefusal>) -> Ended
    requires { IsEnded (dropped_as answer dropped) }
    ensures { ended_as result ≡ dropped_as answer dropped }
{
    match dropped {
        Ok(()) => Ended::Acknowledged(answer),
        Err(DropRefusal::Refused(refusal)) => Ended::Refused(refusal),
        Err(DropRefusal::StoreFault { call }) => Ended::Faulted(call),
        Err(_) => unreachable!(),
    }
}

/// Says a text, or a part of a long one.
fn say_content<K: Kem, W: Draws>(
    client: &mut Client<K>,
    disk: &mut MemoryDisk,
    said: Said<'_>,
    draws: &mut W,
) -> Result<Position, SayRefusal>
    requires { MayActOn client.old (state_of disk.old) }
    ensures exact { SaysWithDraw state_of W.at K.mechanism (content_said said.entry)
        client.old client.new disk.old disk.new draws.old draws.new result }
    ensures fate { StaysPassing (state_of disk.old) (state_of disk.new) (said_as result) }
{
    match said {
        Said::Text(text) => client.say(disk, text, draws),
        Said::Part(part) => client.say_part(disk, &part.part(), draws),
    }
}

/// Says what the side may say, with a seed exactly where it needs one.
fn say<K: Kem>(
    client: &mut Client<K>,
    disk: &mut MemoryDisk,
    said: Said<'_>,
    seed: Option<Key32>,
) -> Ended
    requires open { client.old.closed ≡ None }
    requires ready { IsReady client.old.kept client.old.store (state_of disk.old) }
    requires checked { let draw = draw_given seed in
        say_check client.old.kept (content_said said) ≡ Ok (is_some draw) }
    ensures acts { let act = saying (content_said said.entry) (draw_given seed) in
        Acts state_of (act_on K.mechanism client.old.kept act)
        client.old client.new disk.old disk.new (ended_as result) }
    ensures fate { StaysPassing (state_of disk.old) (state_of disk.new) (ended_as result) }
{
    let mut source = Given::new(seed);
    say_ended(say_content(client, disk, said, &mut source))
}

/// Lets items of a box go.
fn let_go<K: Kem>(client: &mut Client<K>, disk: &mut MemoryDisk, which: Which) -> Ended
    requires open { client.old.closed ≡ None }
    requires ready { IsReady client.old.kept client.old.store (state_of disk.old) }
    ensures acts { Acts state_of (act_on K.mechanism client.old.kept (dropping which))
        client.old client.new disk.old disk.new (ended_as result) }
    ensures fate { StaysPassing (state_of disk.old) (state_of disk.new) (ended_as result) }
{
    drop_ended(Answer::Dropped(which), client.drop_items(disk, which))
}

/// Does an act, exactly as the side would by itself, but for a call on the disk that fails.
pub fn perform<K: Kem>(client: &mut Client<K>, disk: &mut MemoryDisk, call: ClientCall<'_>) -> Ended
    requires open { client.old.closed ≡ None }
    requires ready { IsReady client.old.kept client.old.store (state_of disk.old) }
    requires checked { IsChecked client.old.kept (act_of_call call) }
    ensures acts { Acts state_of (act_on K.mechanism client.old.kept (act_of_call call.entry))
        client.old client.new disk.old disk.new (ended_as result) }
    ensures fate { StaysPassing (state_of disk.old) (state_of disk.new) (ended_as result) }
{
    match call {
        Call::Say(Seeded { said, seed }) => say(client, disk, said, seed),
        Call::Take(packet) => take_ended(client.take(disk, packet.as_slice())),
        Call::Drop(items, n) => let_go(client, disk, Which::Oldest(items, n)),
        Call::DropLong(id) => let_go(client, disk, Which::OfId(id)),
    }
}
