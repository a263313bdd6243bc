//! The state that each input raises.

ghost use Rattle.std.specs.Prelude.{◌≡◌, ℕ, List, take, drop};
ghost use Rattle.prf_prng.specs.Root.{next_root, root_key};

use dr_base::{Key32, array_at};
use hmac_hkdf::{expand_into, extract};
use std::marker::Model;

/// The label of this use of the state.
const LABEL: &[u8; 7] = b"dr root";

/// The root of a conversation. A contract sees it as the 32 bytes of its state.
///
/// It can't be copied, and it has to be spent: by `up`, or by `rest`. No two calls of `up` have the
/// same root, since the first takes it:
///
/// ```text
/// let (later, first_key) = root.up(&first_input);
/// let (later, second_key) = root.up(&second_input); // use of moved value: `root`
/// ```
pub struct Root {
    state: Key32,
}

impl Model for Root {
    ghost Value = { List ℕ };

    ghost view = { λ r. r.state.bytes };
}

/// The parts of the expanded bytes, in their order: the next state, and the key.
fn split(bytes: &[u8; 64]) -> (Key32, Key32)
    ensures next { result.0.bytes ≡ take 32 bytes.now }
    ensures key { result.1.bytes ≡ take 32 (drop 32 bytes.now) }
{
    let next = array_at(bytes, 0);
    let key = array_at(bytes, 32);
    (Key32 { bytes: next }, Key32 { bytes: key })
}

impl Root {
    /// The root with this state: the first, shared by both sides, or one that `rest` gave back.
    pub fn resume(state: Key32) -> Root
        ensures { result ≡ state.bytes }
    {
        Root { state }
    }

    /// Takes an input in: the root after it, and the key that the state and the input give
    /// together.
    #[tactic(auto, unfolding(crate::specs::Root::raised))]
    pub fn up(self, input: &Key32) -> (Root, Key32)
        ensures root { result.0 ≡ next_root self input.now.bytes }
        ensures key { result.1.bytes ≡ root_key self input.now.bytes }
    {
        let Root { state } = self;
        let prk = extract(&state.bytes, &input.bytes);
        let mut bytes = [0; 64];
        expand_into(&prk, LABEL, &mut bytes);
        let (next, key) = split(&bytes);
        (Root { state: next }, key)
    }

    /// Gives the state back, to be kept until it is resumed.
    pub fn rest(self) -> Key32
        ensures { result.bytes ≡ self }
    {
        let Root { state } = self;
        state
    }
}
