//! What holds of every sealed message, for callers to cite.

ghost use Rattle.std.specs.Prelude.{◌≡◌, ℕ, List, length};
ghost use Rattle.etm_aead.specs.Seal.{ciphertext_of, tag_of};

/// The ciphertext of a ciphertext is the text, a ciphertext is as long as its text, and a tag has
/// 32 bytes. This has no code: a caller that needs the facts calls it.
pub fn open_undoes_seal()
    ensures undone { (key text : List ℕ) → ciphertext_of key (ciphertext_of key text) ≡ text }
    ensures len { (key text : List ℕ) → length (ciphertext_of key text) ≡ length text }
    ensures tag_len { (key ad ct : List ℕ) → length (tag_of key ad ct) ≡ 32 }
{}
