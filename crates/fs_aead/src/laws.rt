//! What holds of streams and tables, for callers to cite. These functions have no code: a caller
//! that needs the facts calls them.

ghost use Rattle.std.specs.Prelude.{◌≡◌, ◌≢◌, ℕ, ◌+◌, List, ◌++◌, length, Some, None, Contains, IsSome};
ghost use Rattle.dr_base.specs.declared.key.Kept.{Kept};
ghost use Rattle.dr_base.specs.declared.position.Position.{Position};
ghost use Rattle.fs_aead.specs.Chain.{chain_message_key, chain_of, message_key, next_chain};
ghost use Rattle.fs_aead.specs.Rows.{AreRows};
ghost use Rattle.fs_aead.specs.Table.{AllBefore, IsAscending, kept_key, shelved, without};

/// By these, the n-th `next` of a stream gives the message key of the index n. A stream that was
/// resumed after m steps goes on as the whole one.
pub fn streams_give_each_key()
    ensures start { (stream : List ℕ) → chain_of stream 0 ≡ stream }
    ensures step { (stream : List ℕ) (n : ℕ)
        → chain_of stream (n + 1) ≡ next_chain (chain_of stream n) }
    ensures key { (stream : List ℕ) (n : ℕ)
        → message_key stream (n + 1) ≡ chain_message_key (chain_of stream n) }

    ensures resumed { (stream : List ℕ) (m n : ℕ)
        → chain_of (chain_of stream m) n ≡ chain_of stream (m + n) }
    ensures resumed_key { (stream : List ℕ) (m n : ℕ) →
        message_key (chain_of stream m) (n + 1) ≡ message_key stream (m + n + 1) }
{}

/// The keys that `advance` puts into a table are as many as its steps, and keep the table in order
/// and below the next key.
pub fn passed_keys_ascend()
    ensures len { (epoch : ℕ) (chain : List ℕ) (reach n : ℕ)
        → length (shelved epoch chain reach n) ≡ n }
    ensures below { (epoch : ℕ) (chain : List ℕ) (reach n : ℕ) (keys : List Kept) →
        AllBefore keys (record { epoch = epoch; index = reach + 1 }) →
        AllBefore (keys ++ shelved epoch chain reach n)
        (record { epoch = epoch; index = reach + n + 1 }) }
    ensures ascending { (epoch : ℕ) (chain : List ℕ) (reach n : ℕ) (keys : List Kept)
        → IsAscending keys →
        AllBefore keys (record { epoch = epoch; index = reach + 1 }) →
        IsAscending (keys ++ shelved epoch chain reach n) }
{}

/// A key that was taken is kept no more, and the keys of the other positions stay. In an ascending
/// table a position has one key at most, so that `take` gives the key that was put there, and takes
/// it alone out.
pub fn keys_are_taken_once()
    ensures gone { (keys : List Kept) (p : Position) → kept_key (without keys p) p ≡ None }
    ensures others { (keys : List Kept) (p q : Position) → p ≢ q
        → kept_key (without keys p) q ≡ kept_key keys q }

    ensures found { (keys : List Kept) (kept : Kept) → IsAscending keys → Contains keys kept →
        kept_key keys kept.position ≡ Some kept.key.bytes }
    ensures there { (keys : List Kept) (p : Position) (key : List ℕ) → kept_key keys p ≡ Some key →
        Contains keys (record { position = p; key = record { bytes = key } }) }
    ensures one { (keys : List Kept) (p : Position) → IsAscending keys → IsSome (kept_key keys p) →
        length (without keys p) + 1 ≡ length keys }
    ensures ascending { (keys : List Kept) (p : Position) → IsAscending keys
        → IsAscending (without keys p) }
{}

/// The rows of an ascending table ascend by epoch. None is empty, and each holds exactly the keys
/// of its epoch, at the places from its start on, as many as its length says. No key is without a
/// row.
pub fn rows_hold_whole_epochs()
    ensures { (keys : List Kept) → IsAscending keys → AreRows keys }
{}
