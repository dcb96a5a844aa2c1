//! Worked examples: a bin as a list, stated on the definitions alone. Nothing runs; the check computes them.

ghost use Rattle.std.specs.Prelude.{◌≡◌, ℕ, [], ◌∷◌, Some, None, map};
ghost use Rattle.ordinary_bins.specs.Lists.{first_of, last_of, put_front, put_behind, without, times_listed};

/// A bin gives its oldest chunk at its back, and a chunk that is unlinked is in no list.
fn a_bin_of_three_chunks()
    ensures newest { put_front 1 320 ([] ∷ (160 ∷ []) ∷ []) ≡ [] ∷ (320 ∷ 160 ∷ []) ∷ [] }
    ensures behind { put_behind 320 480 (320 ∷ 160 ∷ []) ≡ 320 ∷ 480 ∷ 160 ∷ [] }
    ensures oldest { last_of {X = ℕ} (320 ∷ 480 ∷ 160 ∷ []) ≡ Some 160 }
    ensures first { first_of {X = ℕ} (320 ∷ 480 ∷ 160 ∷ []) ≡ Some 320 }
    ensures left { map (without 480) ((320 ∷ 480 ∷ []) ∷ (160 ∷ []) ∷ [])
        ≡ (320 ∷ []) ∷ (160 ∷ []) ∷ [] }
    ensures gone { times_listed 480 ((320 ∷ []) ∷ (160 ∷ []) ∷ []) ≡ 0 }
    ensures empty { last_of {X = ℕ} (without 160 (160 ∷ [])) ≡ None }
{}
