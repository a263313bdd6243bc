//! A source of draws that gives one seed.

ghost use Rattle.std.specs.Prelude.{◌≡◌, Some};

use dr_base::{Failed, Key32};
use dr_ports::Draws;

/// Gives one seed at each draw.
#[derive(Drop)]
pub struct Given {
    pub seed: Key32,
}

impl Given {
    /// Gives this seed, or zeros where there is none.
    pub fn new(seed: Option<Key32>) -> Given
        ensures { (key : Key32) → seed ≡ Some key → result.seed.bytes ≡ key.bytes }
    {
        match seed {
            Some(seed) => Given { seed },
            None => Given {
                seed: Key32 { bytes: [0; 32] },
            },
        }
    }
}

impl Draws for Given {
    ghost at = { λ g. record { coming = Some (λ _. g.seed.bytes); faults = 0 } };

    fn draw(&mut self) -> Result<Key32, Failed> {
        Ok(Key32 {
            bytes: self.seed.bytes,
        })
    }
}
