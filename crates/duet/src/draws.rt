//! The draws of a script.

ghost use Rattle.std.specs.Prelude.{◌≡◌, ◌^◌, ◌<◌, ◌-◌, Some, None};
ghost use Rattle.dr_model.specs.Machines.Draws.{after_draw, drawn, next_seed};

use dr_base::Key32;
use hmac_hkdf::Mac;
use std::marker::Model;

/// The label of a draw.
const LABEL: &[u8; 9] = b"duet draw";

/// How many draws were made, and the seed that the next one is, if a line gave it.
#[derive(Drop)]
pub struct Draws {
    made: u32,
    given: Option<[u8; 32]>,
}

impl Model for Draws {
    ghost use Rattle.dr_model.specs.Machines.Draws.{Draws as DrawsNow};

    ghost Value = { DrawsNow };

    ghost view = { λ d. record { made = d.made; given = d.given } };
}

/// A draw without a given seed: the HMAC of its number under the script's key.
#[tactic(auto, unfolding(dr_model::specs::Machines::Draws::drawn))]
fn draw(key: &Key32, number: u32) -> Key32
    ensures { result.bytes ≡ drawn key.now.bytes number }
{
    let mut mac = Mac::new(&key.bytes);
    mac.update(LABEL);
    mac.update(&number.to_le_bytes());
    Key32 {
        bytes: mac.finish(),
    }
}

impl Draws {
    /// No draw was made yet.
    pub fn new() -> Draws
        ensures { result ≡ record { made = 0; given = None } }
    {
        Draws {
            made: 0,
            given: None,
        }
    }

    /// The next draw is this seed.
    pub fn give(&mut self, seed: &[u8; 32])
        ensures { self.new ≡ record self.old { given = Some seed.now } }
    {
        self.given = Some(*seed);
    }

    /// Makes the next draw.
    pub fn next(&mut self, key: &Key32) -> Key32
        requires { self.old.made < 2 ^ 32 - 1 }
        ensures seed { result.bytes ≡ next_seed key.now.bytes self.old }
        ensures draws { self.new ≡ after_draw self.old }
    {
        let seed = match self.given {
            Some(bytes) => Key32 { bytes },
            None => draw(key, self.made),
        };
        self.made += 1;
        self.given = None;
        seed
    }
}
