//! What a side does, by itself: a client's calls, and what a line says of one.

ghost use Rattle.std.specs.Prelude.{◌≤◌};

use crate::said::Said;
use dr_base::{Position, Side};
use session_model::{Amount, Items};

/// A call on a side's client, by what stands for what it says, a packet and a number of items.
#[derive(Clone, Copy, Drop)]
pub enum Call<T, P, N> {
    /// It says this.
    Say(T),
    /// It takes this packet.
    Take(P),
    /// This many of the oldest items leave their box.
    Drop(Items, N),
    /// The parts of the long text of this id leave its inbox.
    DropLong(u32),
}

/// A call as a line says it.
pub type LineCall<'a> = Call<Said<'a>, Source<'a>, Amount>;

/// What a packet is that a side takes.
#[derive(Clone, Copy)]
pub enum Source<'a> {
    /// The packet of this position.
    At(Position),
    /// The packet that the other side made, counted from 1.
    Nth(u32),
    /// The packet of the position, with the bit of the number changed.
    Flipped(Position, u32),
    /// The bytes that these hex digits say.
    Bytes(&'a [u8]),
}

impl Source<'_> {
    ghost use Rattle.std.specs.Prelude.{◌≡◌};
    ghost use Rattle.scripts.specs.Seen.{source_of};
    ghost use Rattle.scripts.specs.Words.{is_network};

    /// Whether the packet is as the network holds it.
    fn is_network(self) -> bool
        ensures { result ≡ is_network (source_of self.entry) }
    {
        match self {
            Source::At(_) | Source::Nth(_) => true,
            Source::Flipped(_, _) | Source::Bytes(_) => false,
        }
    }
}

impl Call<Said<'_>, Source<'_>, Amount> {
    ghost use Rattle.std.specs.Prelude.{◌≡◌};
    ghost use Rattle.scripts.specs.Seen.{call_seen};
    ghost use Rattle.scripts.specs.Words.{may_stop};

    /// Whether a disk may stop or fail in it.
    pub fn may_stop(self) -> bool
        ensures { result ≡ may_stop (call_seen self.entry) }
    {
        match self {
            Call::Say(said) => matches!(&said, Said::Text(_)),
            Call::Take(source) => source.is_network(),
            Call::Drop(_, amount) => matches!(&amount, Amount::Exactly(_)),
            Call::DropLong(_) => false,
        }
    }
}

/// A call in which one write or sync of its side's disk fails.
#[derive(Clone, Copy)]
pub struct Failure<'a> {
    pub side: Side,
    /// The write or sync of this number of the call, from 1, fails, if it makes so many.
    pub at: u32,
    pub call: LineCall<'a>,
    pub ghost counted: { 1 ≤ at },
}
