//! Worked examples: numbers that follow from sizes and tunables, stated on the definitions alone. Nothing runs; the
//! check computes them.

ghost use Rattle.std.specs.Prelude.{◌≡◌, ◌+◌, ◌-◌, ◌*◌, ◌/◌, ◌^◌, ℕ, [], ◌∷◌, Some, None};
ghost use Rattle.chunk_tags.specs.BinOrder.{inserted, best_of, oldest_of};
ghost use Rattle.chunk_tags.specs.Pages.{page_up_of, page_down_of};
ghost use Rattle.chunk_tags.specs.Sizes.{padded_request, max_cached, structure_size, cache_index_of, cached_size_at, bin_of, fast_index_of, fast_size_at};
ghost use Rattle.chunk_tags.specs.Tiles.{Row, swapped, fused, entered, tile_before, tile_behind, top_of};
ghost use Rattle.chunk_tags.specs.declared.tiles.Chunk.{Chunk};
ghost use Rattle.chunk_tags.specs.Tunables.{defaults_of};

use chunk_tags::Mode;

/// The chunk sizes of requests.
fn requests_have_chunk_sizes()
    ensures nothing { padded_request 0 ≡ Some 32 }
    ensures last_of_32 { padded_request 24 ≡ Some 32 }
    ensures first_of_48 { padded_request 25 ≡ Some 48 }
    ensures fast { padded_request 120 ≡ Some 128 }
    ensures not_fast { padded_request 121 ≡ Some 144 }
    ensures structure { padded_request 640 ≡ Some 656 }
    ensures last_cached { padded_request 1032 ≡ Some 1040 }
    ensures past_cached { padded_request 1033 ≡ Some 1056 }
    ensures large { padded_request 2000 ≡ Some 2016 }
    ensures threshold { padded_request 131072 ≡ Some 131088 }
    ensures last { padded_request (2 ^ 63 - 1) ≡ Some (2 ^ 63 + 16) }
    ensures past_last { padded_request (2 ^ 63) ≡ None }
    ensures largest_number { padded_request (2 ^ 64 - 1) ≡ None }
{}

/// The cache lists of sizes.
fn sizes_have_lists()
    ensures first { cache_index_of 32 ≡ 0 }
    ensures second { cache_index_of 48 ≡ 1 }
    ensures structure { cache_index_of 656 ≡ 39 }
    ensures last { cache_index_of max_cached ≡ 63 }
    ensures largest { max_cached ≡ 1040 }
    ensures largest_again { cached_size_at 63 ≡ max_cached }
{}

/// Starting values that follow from the options' defaults.
fn defaults_follow()
    // one list more than the index of the largest cached request, 1032
    ensures bins { (defaults_of Mode.Serial).tcache_bins ≡ cache_index_of max_cached + 1 }
    // eight bytes more than M_MXFAST, rounded down to a multiple of 16
    ensures fast { (defaults_of Mode.Serial).max_fast ≡ (128 + 8) / 16 * 16 }
    ensures same_bins { (defaults_of Mode.Threads).tcache_bins ≡ (defaults_of Mode.Serial).tcache_bins }
    ensures same_fast { (defaults_of Mode.Threads).max_fast ≡ (defaults_of Mode.Serial).max_fast }
{}

/// The bins of sizes, at the borders where large bins become wider.
fn sizes_have_bins()
    ensures smallest { bin_of 32 ≡ 2 }
    ensures last_small { bin_of 1008 ≡ 63 }
    ensures first_large { bin_of 1024 ≡ 64 }
    ensures last_of_64 { bin_of 3072 ≡ 96 }
    ensures still_96 { bin_of 3120 ≡ 96 }
    ensures first_of_512 { bin_of 3136 ≡ 97 }
    ensures last_of_512 { bin_of 10736 ≡ 111 }
    ensures first_of_4096 { bin_of 10752 ≡ 112 }
    ensures last_of_4096 { bin_of 45040 ≡ 120 }
    ensures first_of_32768 { bin_of 45056 ≡ 120 }
    ensures middle { bin_of 65536 ≡ 121 }
    ensures last_of_32768 { bin_of 163824 ≡ 123 }
    ensures first_of_262144 { bin_of 163840 ≡ 124 }
    ensures last_of_262144 { bin_of 786416 ≡ 126 }
    ensures largest { bin_of (2 ^ 20) ≡ 126 }
    ensures fast { fast_index_of 32 ≡ 0 }
    ensures last_fast { fast_index_of 176 ≡ 9 }
    ensures fast_again { fast_size_at (fast_index_of 128) ≡ 128 }
    ensures structure { structure_size ≡ 656 }
    ensures pages { page_up_of 131760 ≡ 135168 }
    ensures pages_again { page_down_of 135167 ≡ 131072 }
{}

/// Three chunks of one size in a large bin lie as first, third, second; the second of them is taken; greater ones lie
/// before them, and a smaller one behind.
fn equals_follow_the_first()
    ensures order { (p q r : Chunk) → p.size ≡ 2016 → q.size ≡ 2016 → r.size ≡ 2016
        → inserted r (inserted q (inserted p [])) ≡ p ∷ r ∷ q ∷ [] }
    ensures second { (p q r : Chunk) → p.size ≡ 2016 → q.size ≡ 2016 → r.size ≡ 2016
        → best_of 2000 (p ∷ r ∷ q ∷ []) ≡ Some r }
    ensures greater { (p q : Chunk) → p.size ≡ 2016 → q.size ≡ 2032 → inserted q (p ∷ []) ≡ q ∷ p ∷ [] }
    ensures smaller { (p q : Chunk) → p.size ≡ 2016 → q.size ≡ 2000 → inserted q (p ∷ []) ≡ p ∷ q ∷ [] }
    ensures least { (p q : Chunk) → p.size ≡ 2032 → q.size ≡ 2016 → best_of 2000 (p ∷ q ∷ []) ≡ Some q }
    ensures none { (p : Chunk) → p.size ≡ 2016 → best_of 2032 (p ∷ []) ≡ None }
    ensures oldest { (p q : Chunk) → oldest_of (p ∷ q ∷ []) ≡ Some q }
{}
