//! What holds of every root, for callers to cite.

ghost use Rattle.std.specs.Prelude.{◌≡◌, ℕ, List, length};
ghost use Rattle.prf_prng.specs.Root.{next_root, root_key};

/// A next state and a key have 32 bytes each, whatever the state and the input were. This has no
/// code: a caller that needs the facts calls it.
#[tactic(auto, using(crate::proofs::Lengths::lengths))]
pub fn outputs_have_32_bytes()
    ensures root { (state input : List ℕ) → length (next_root state input) ≡ 32 }
    ensures key { (state input : List ℕ) → length (root_key state input) ≡ 32 }
{}
