//! Worked examples: bins, stated on the definitions alone. Nothing runs; the check computes them.

ghost use Rattle.std.specs.Prelude.{◌≡◌, ◌^◌, [], ◌∷◌, Some, None};
ghost use Rattle.chunk_tags.specs.Sizes.{bin_of};
ghost use Rattle.ordinary_bins.specs.Lists.{list_at, last_of, put_front, first_filled};

/// The oldest chunk of a bin is its last, and the search skips empty bins.
fn chunks_in_bins()
    ensures oldest { last_of (list_at 1 (put_front 1 320 (put_front 1 160 ([] ∷ [] ∷ [])))) ≡ Some 160 }
    ensures none { last_of (list_at 1 ([] ∷ [] ∷ [])) ≡ None }
    ensures itself { first_filled 2 ([] ∷ [] ∷ (160 ∷ []) ∷ [] ∷ []) ≡ Some 2 }
    ensures above { first_filled 1 ([] ∷ [] ∷ [] ∷ (160 ∷ []) ∷ []) ≡ Some 3 }
    ensures below { first_filled 2 ([] ∷ (160 ∷ []) ∷ [] ∷ []) ≡ None }
{}

/// The bins of sizes.
fn bins_of_sizes()
    ensures smallest { bin_of 32 ≡ 2 }
    ensures last_small { bin_of 1008 ≡ 63 }
    ensures first_large { bin_of 1024 ≡ 64 }
    ensures last_by_64 { bin_of 3072 ≡ 96 }
    ensures past_by_64 { bin_of 3136 ≡ 97 }
    ensures by_4096 { bin_of 10752 ≡ 112 }
    ensures by_32768 { bin_of 65536 ≡ 121 }
    ensures last { bin_of (2 ^ 20) ≡ 126 }
{}
