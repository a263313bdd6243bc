//! The laws of the encodings, for callers that reason about them.
ghost use Rattle.std.specs.Prelude.{◌≡◌, ◌*◌, ◌<◌, ℕ, List, None, length, All, ℤ};
ghost use Rattle.std.specs.List.{AllZip};
ghost use Rattle.ntru_ring.specs.Reduction.{IsWithin};
ghost use Rattle.ntru_ring.specs.Small.{rounded};
ghost use Rattle.ntru_codec.specs.Numbers.{limit_after, bytes_out, IsLimit};
ghost use Rattle.ntru_codec.specs.Coding.{encoded, encoded_length, decoded};
ghost use Rattle.ntru_codec.specs.Small.{small_encoded, small_decoded, first_bad};
ghost use Rattle.ntru_codec.specs.Elements.{IsMultipleOf3, rq_encoded, rq_decoded, rounded_encoded, rounded_decoded};

/// Does nothing: its clauses are the laws of the encodings.
pub fn laws()
    // Decoding gives back what was encoded.
    ensures undone { (values limits : List ℕ) → AllZip ◌<◌ values limits → All IsLimit limits
        → decoded (encoded values limits) limits ≡ values }
    ensures small_undone { (a : List ℤ) → length a ≡ 761 → All (IsWithin 1) a
        → small_decoded (small_encoded a) ≡ a }
    ensures rq_undone { (a : List ℤ) → length a ≡ 761 → All (IsWithin 2295) a
        → rq_decoded (rq_encoded a) ≡ a }
    ensures rounded_undone { (a : List ℤ) → length a ≡ 761 → All (IsWithin 2295) a
        → All IsMultipleOf3 a → rounded_decoded (rounded_encoded a) ≡ a }

    // The bytes of small elements are those without a bad byte.
    ensures small_good { (a : List ℤ) → length a ≡ 761 → All (IsWithin 1) a
        → first_bad (small_encoded a) ≡ None }
    ensures small_within { (bytes : List ℕ) → first_bad bytes ≡ None
        → All (IsWithin 1) (small_decoded bytes) }
    ensures small_again { (bytes : List ℕ) → length bytes ≡ 191 → All (λ b. b < 256) bytes
        → first_bad bytes ≡ None → small_encoded (small_decoded bytes) ≡ bytes }

    // How long encodings are, and what any bytes decode to.
    ensures size { (values limits : List ℕ) → AllZip ◌<◌ values limits
        → length (encoded values limits) ≡ encoded_length limits }
    ensures small_size { (a : List ℤ) → length (small_encoded a) ≡ 191 }
    ensures rq_size { (a : List ℤ) → length a ≡ 761 → All (IsWithin 2295) a
        → length (rq_encoded a) ≡ 1158 }
    ensures rounded_size { (a : List ℤ) → length a ≡ 761 → All (IsWithin 2295) a
        → length (rounded_encoded a) ≡ 1007 }
    ensures below { (bytes limits : List ℕ) → All IsLimit limits
        → AllZip ◌<◌ (decoded bytes limits) limits }

    ensures small_length { (bytes : List ℕ) → length (small_decoded bytes) ≡ 761 }
    ensures rq_length { (bytes : List ℕ) → length (rq_decoded bytes) ≡ 761 }
    ensures rq_within { (bytes : List ℕ) → All (IsWithin 2295) (rq_decoded bytes) }
    ensures rounded_length { (bytes : List ℕ) → length (rounded_decoded bytes) ≡ 761 }
    ensures rounded_within { (bytes : List ℕ) → All (IsWithin 2295) (rounded_decoded bytes) }

    // The coefficients of a rounded element are multiples of 3.
    ensures rounded { (a : List ℤ) → All (IsWithin 2295) a → All IsMultipleOf3 (rounded a) }

    // Two bytes are enough: then the limit of a pair is below 16384, and a single entry's is 1.
    ensures pairs_end { (m n : ℕ) → IsLimit m → IsLimit n
        → IsLimit (limit_after (bytes_out 16384 (m * n)) (m * n)) }
    ensures singles_end { (m : ℕ) → IsLimit m → limit_after (bytes_out 2 m) m ≡ 1 }
{}
