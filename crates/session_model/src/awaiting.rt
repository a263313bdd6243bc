//! Own texts that wait until a receipt of the other side covers them.

ghost use Rattle.std.specs.Prelude.{◌≡◌, ◌+◌, ◌<◌, ◌≤◌, ◌∷◌, ◌++◌, [], length};
ghost use Rattle.session_model.specs.Awaiting.{still_waiting, waiting_with};

use arrayvec::ArrayVec;
use bodies::{Receipt, is_covered};
use dr_base::{AWAITING_LIMIT, Position};
use std::marker::Model;

/// The positions of the texts that wait, in the order that they were said. A contract sees the list
/// of them. It owns no memory but its own room.
#[derive(Drop)]
pub struct Awaiting {
    positions: ArrayVec<Position, AWAITING_LIMIT>,
}

impl Model for Awaiting {
    ghost use Rattle.std.specs.Prelude.{List};
    ghost use Rattle.dr_base.specs.declared.position.Position.{Position as Place};

    ghost Value = { List Place };

    ghost view = { λ a. a.positions.items };
}

impl Awaiting {
    /// No text waits.
    pub fn new() -> Awaiting
        ensures { result ≡ [] }
    {
        Awaiting {
            positions: ArrayVec::new(),
        }
    }

    /// The positions, the oldest first.
    pub fn positions(&self) -> &[Position]
        ensures value { result.now ≡ self.now }
        ensures few { length result.now ≤ AWAITING_LIMIT }
    {
        self.positions.as_slice()
    }

    /// One more stands at the end, where there is room.
    pub fn push(&mut self, position: Position)
        requires { length self.old < AWAITING_LIMIT }
        ensures { self.new ≡ self.old ++ position ∷ [] }
    {
        self.positions.push(position);
    }

    /// A text was said, and waits. Where as many wait as may, the oldest is given up.
    #[tactic(auto, unfolding(crate::specs::Awaiting::waiting_with))]
    pub fn wait(&mut self, position: Position)
        ensures { self.new ≡ waiting_with self.old position }
    {
        if self.positions.is_full() {
            self.positions.remove(0);
        }
        self.positions.push(position);
    }

    /// A packet was opened: what its receipt covers doesn't wait any more.
    #[tactic(auto, unfolding(crate::specs::Awaiting::still_waiting))]
    pub fn obey(&mut self, receipt: &Option<Receipt>)
        ensures { self.new ≡ still_waiting receipt.now self.old }
    {
        self.positions
            .retain(|position| !is_covered(receipt, *position));
    }

    /// Becomes a copy of another, in place.
    pub fn copy_from(&mut self, from: &Awaiting)
        ensures { self.new ≡ from.now }
    {
        self.positions.clear();
        let _whole = self.positions.try_extend_from_slice(from.positions());
    }
}
