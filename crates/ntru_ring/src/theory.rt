//! The laws of the ring, for callers that reason about products.
ghost use Rattle.std.specs.Prelude.{◌≡◌, ◌+◌, ◌*◌, ℕ, List, length, All, ℤ};
ghost use Rattle.ntru_ring.specs.Reduction.{Annihilates, IsInverse, IsWithin, reduced};
ghost use Rattle.ntru_ring.specs.Ring.{one_of, plus, scale, shift, times};
ghost use Rattle.ntru_ring.specs.Small.{weight};

/// Does nothing: its clauses are the laws of sums and products, at any length n + 1 and modulo any
/// odd 2h + 1.
pub fn laws()
    ensures sum_commutative { (a b : List ℤ) → plus a b ≡ plus b a }
    ensures sum_associative { (a b c : List ℤ) → plus (plus a b) c ≡ plus a (plus b c) }
    ensures commutative { (a b : List ℤ) → length a ≡ length b → times a b ≡ times b a }
    ensures associative { (a b c : List ℤ) → length a ≡ length b → length b ≡ length c
        → times (times a b) c ≡ times a (times b c) }
    ensures distributive { (a b c : List ℤ) → length b ≡ length c
        → times a (plus b c) ≡ plus (times a b) (times a c) }
    ensures scaled { (c : ℤ) (a b : List ℤ) → times a (scale c b) ≡ scale c (times a b) }
    ensures unit { (n : ℕ) (a : List ℤ) → length a ≡ n + 1 → times a (one_of (n + 1)) ≡ a }

    // Congruent elements have congruent sums, multiples and products.
    ensures sum_congruent { (h : ℕ) (a b : List ℤ)
        → reduced h (plus (reduced h a) (reduced h b)) ≡ reduced h (plus a b) }
    ensures scale_congruent { (h : ℕ) (c : ℤ) (a : List ℤ)
        → reduced h (scale c (reduced h a)) ≡ reduced h (scale c a) }
    ensures shift_congruent { (h : ℕ) (a : List ℤ)
        → reduced h (shift (reduced h a)) ≡ reduced h (shift a) }
    ensures product_congruent { (h : ℕ) (a b : List ℤ)
        → reduced h (times (reduced h a) (reduced h b)) ≡ reduced h (times a b) }

    // A product of small elements has small coefficients.
    ensures bounded { (a b : List ℤ) → All (IsWithin 1) a → All (IsWithin 1) b → length a ≡ length b
        → All (IsWithin (2 * weight a)) (times a b) }

    // An inverse in -h..h is the only one, and an annihilated element has none.
    ensures unique { (h n : ℕ) (g v w : List ℤ) → length g ≡ n + 1 → length v ≡ n + 1
        → length w ≡ n + 1 → All (IsWithin h) v → All (IsWithin h) w
        → IsInverse h g v → IsInverse h g w → v ≡ w }
    ensures no_inverse { (h n : ℕ) (g v z : List ℤ) → length g ≡ n + 1 → length v ≡ n + 1
        → length z ≡ n + 1 → All (IsWithin h) z
        → IsInverse h g v → Annihilates h g z → ⊥ }
{}
