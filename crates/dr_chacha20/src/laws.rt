//! What holds of every encryption, for callers to cite.

ghost use Rattle.std.specs.Prelude.{◌≡◌, ℕ, List, length};
ghost use Rattle.dr_chacha20.specs.Stream.{encrypted};

/// Encryption undoes itself and keeps the length of a text. This has no code: a caller that needs
/// the facts calls it.
pub fn encryption_undoes_itself()
    ensures undone { (key : List ℕ) (counter : ℕ) (nonce text : List ℕ)
        → encrypted key counter nonce (encrypted key counter nonce text) ≡ text }
    ensures len { (key : List ℕ) (counter : ℕ) (nonce text : List ℕ)
        → length (encrypted key counter nonce text) ≡ length text }
{}
