//! The rounds of a script that is made from a number.

ghost use Rattle.std.specs.Prelude.{◌≡◌, ◌-◌, ◌<◌, ◌^◌};
ghost use Rattle.scripts.specs.Make.{advanced, drawn, opening, round_of, said_to, saying, side_drawn, taking};

use dr_base::Side;
use script_parts::next_number;

/// What stands between two rounds: the last number, and how many texts each side has said.
#[derive(Clone, Copy)]
pub struct Making {
    pub number: u64,
    pub first: u32,
    pub second: u32,
}

/// What a round does.
#[derive(Clone, Copy)]
pub enum Turn {
    /// A side says a text.
    Says(Side),
    /// A side takes the packet that the other side made, counted from 1.
    Takes(Side, u32),
    /// Nothing: the other side has said no text yet.
    Rests,
}

/// The side whose a draw is.
#[tactic(auto, unfolding(crate::specs::Make::side_drawn))]
fn side_drawn(draw: u32) -> Side
    ensures { result ≡ side_drawn draw }
{
    if draw % 2 == 0 {
        Side::First
    } else {
        Side::Second
    }
}

impl Making {
    /// Before the first round.
    pub fn new(number: u64) -> Making
        ensures { result ≡ opening number }
    {
        Making {
            number,
            first: 0,
            second: 0,
        }
    }

    /// Makes a draw.
    #[tactic(auto, unfolding(crate::specs::Make::advanced, crate::specs::Make::drawn))]
    pub fn draw(&mut self) -> u32
        ensures draw { result ≡ drawn self.old }
        ensures next { self.new ≡ advanced self.old }
    {
        self.number = next_number(self.number);
        (self.number >> 32) as u32
    }

    /// A side says a text.
    fn say(&mut self, side: Side) -> Turn
        requires first { self.old.first < 2 ^ 32 - 1 }
        requires second { self.old.second < 2 ^ 32 - 1 }
        ensures turn { result ≡ (saying side self.old).turn }
        ensures next { self.new ≡ (saying side self.old).next }
    {
        match side {
            Side::First => self.first += 1,
            Side::Second => self.second += 1,
        }
        Turn::Says(side)
    }

    /// How many texts the other side has said.
    fn said_to(&self, side: Side) -> u32
        ensures { result ≡ said_to side self.now }
    {
        match side {
            Side::First => self.second,
            Side::Second => self.first,
        }
    }

    /// A side takes a packet, if there is one.
    #[tactic(auto, unfolding(crate::specs::Make::taking))]
    fn take(&mut self, side: Side) -> Turn
        ensures turn { result ≡ (taking side self.old).turn }
        ensures next { self.new ≡ (taking side self.old).next }
    {
        let said = self.said_to(side);
        if said == 0 {
            return Turn::Rests;
        }
        let nth = self.draw() % said;
        Turn::Takes(side, 1 + nth)
    }

    /// Makes a round.
    #[tactic(auto, unfolding(crate::specs::Make::round_of, crate::specs::Make::advanced))]
    pub fn round(&mut self) -> Turn
        requires first { self.old.first < 2 ^ 32 - 1 }
        requires second { self.old.second < 2 ^ 32 - 1 }
        ensures turn { result ≡ (round_of self.old).turn }
        ensures next { self.new ≡ (round_of self.old).next }
    {
        let draw = self.draw();
        let side = side_drawn(draw);
        if (draw / 2) % 4 < 2 {
            self.say(side)
        } else {
            self.take(side)
        }
    }
}
