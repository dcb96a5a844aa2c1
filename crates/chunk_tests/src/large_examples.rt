//! Worked examples: the first chunk of each size and the order of a large bin, stated on the definitions alone. Nothing runs; the check computes them.

ghost use Rattle.std.specs.Prelude.{◌≡◌, ℕ, ◌*◌, [], ◌∷◌, Some, None};
ghost use Rattle.chunk_tags.specs.BinOrder.{inserted, best_of};
ghost use Rattle.large_bins.specs.FirstChunks.{firsts_in};
ghost use Rattle.large_bins.specs.SeenChunks.{chunks_by};

/// Of three equal chunks the third that came stands between the first and the second, and is given first.
fn three_equal_chunks()
    ensures second { (a b : ℕ)
        → inserted (record { at = b; size = 2016 }) (chunks_by (λ _. 2016) (a ∷ []))
        ≡ chunks_by (λ _. 2016) (a ∷ b ∷ []) }
    ensures third { (a b c : ℕ)
        → inserted (record { at = c; size = 2016 }) (chunks_by (λ _. 2016) (a ∷ b ∷ []))
        ≡ chunks_by (λ _. 2016) (a ∷ c ∷ b ∷ []) }
    ensures given { (a b c : ℕ) → best_of 2000 (chunks_by (λ _. 2016) (a ∷ c ∷ b ∷ []))
        ≡ Some (record { at = c; size = 2016 }) }
    ensures too_small { (a : ℕ) → best_of 2032 (chunks_by (λ _. 2016) (a ∷ [])) ≡ None }
{}

/// Chunks of falling sizes, of which the first of each size is linked: equals behind a greater one, two sizes of 60,000 bytes
/// and more, many sizes, and a bin that isn't large.
fn first_of_each_size()
    ensures behind_a_greater { firsts_in 97 (record { at = 1; size = 12016 }
        ∷ chunks_by (λ _. 12000) (2 ∷ 3 ∷ 4 ∷ [])) ≡ 1 ∷ 2 ∷ [] }
    ensures second { firsts_in 97 (inserted (record { at = 5; size = 12000 })
        (record { at = 1; size = 12016 } ∷ chunks_by (λ _. 12000) (2 ∷ 3 ∷ []))) ≡ 1 ∷ 2 ∷ [] }
    ensures two_large { firsts_in 121 (record { at = 7; size = 65536 }
        ∷ record { at = 8; size = 65536 } ∷ record { at = 1; size = 60000 }
        ∷ record { at = 2; size = 60000 } ∷ []) ≡ 7 ∷ 1 ∷ [] }
    ensures many { firsts_in 126 (chunks_by (λ at. 1000000 * at) (9 ∷ 8 ∷ 5 ∷ 4 ∷ 1 ∷ []))
        ≡ 9 ∷ 8 ∷ 5 ∷ 4 ∷ 1 ∷ [] }
    ensures small { firsts_in 63 (chunks_by (λ _. 1008) (1 ∷ 2 ∷ [])) ≡ [] }
{}

/// A chunk goes behind greater ones and before smaller ones, and the smallest that fits is given.
fn chunks_of_three_sizes()
    ensures between { inserted (record { at = 3; size = 2016 })
        (chunks_by (λ at. 1000 * at) (4 ∷ 2 ∷ []))
        ≡ record { at = 4; size = 4000 } ∷ record { at = 3; size = 2016 }
        ∷ record { at = 2; size = 2000 } ∷ [] }
    ensures smallest { best_of 2016 (chunks_by (λ at. 1000 * at) (4 ∷ 3 ∷ 2 ∷ []))
        ≡ Some (record { at = 3; size = 3000 }) }
{}
