//! A run in numbers.

ghost use Rattle.std.specs.Prelude.{◌≡◌, ◌-◌, ◌^◌};
ghost use Rattle.duet.specs.Tally.{IsBelow, IsSideBelow, with_answer, counted_of, opening_tally, no_tally};

use dr_base::Side;
use session_model::Answer;

/// What one side did in a run, and how far it came.
#[derive(Clone, Copy)]
pub struct SideTally {
    /// How many texts it said.
    pub said: u32,
    /// How many packets it opened.
    pub opened: u32,
    /// How often it refused, or the network held no such packet.
    pub refused: u32,
    /// The greatest epoch that it reached.
    pub epoch: u32,
    /// How many message keys wait for texts that haven't come.
    pub missing: u32,
}

/// A run in numbers.
#[derive(Clone, Copy)]
pub struct Tally {
    /// The rounds of a script that was made from a number; 0 of one that was read.
    pub rounds: u32,
    pub first: SideTally,
    pub second: SideTally,
}

impl SideTally {
    /// Nothing was counted yet.
    fn new() -> SideTally
        ensures { result ≡ no_tally }
    {
        SideTally {
            said: 0,
            opened: 0,
            refused: 0,
            epoch: 0,
            missing: 0,
        }
    }

    /// Counts an answer.
    fn count(&mut self, answer: Answer)
        requires { IsSideBelow (2 ^ 32 - 1) self.old }
        ensures { self.new ≡ with_answer answer self.old }
    {
        match answer {
            Answer::Said(_) => self.said += 1,
            Answer::Opened(_) => self.opened += 1,
            Answer::Nothing | Answer::Refused(_) => self.refused += 1,
            _ => {}
        }
    }
}

impl Tally {
    /// Nothing was counted yet, of a script of this many rounds.
    pub(crate) fn new(rounds: u32) -> Tally
        ensures { result ≡ opening_tally rounds }
    {
        Tally {
            rounds,
            first: SideTally::new(),
            second: SideTally::new(),
        }
    }

    /// Counts a side's answer.
    pub(crate) fn count(&mut self, side: Side, answer: Answer)
        requires { IsBelow (2 ^ 32 - 1) self.old }
        ensures { self.new ≡ counted_of side answer self.old }
    {
        match side {
            Side::First => self.first.count(answer),
            Side::Second => self.second.count(answer),
        }
    }
}
