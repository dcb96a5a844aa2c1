//! Worked examples on the definitions alone. Nothing runs; the check computes them.

ghost use Rattle.std.specs.Prelude.{◌≡◌, ◌^◌, [], ◌∷◌};
ghost use Rattle.chunk_tags.specs.Tunables.{serial_values};
ghost use Rattle.malloc_calls.specs.Mallocs.{malloc_call};
ghost use Rattle.own_blocks.specs.Frees.{free_call};
ghost use Rattle.own_blocks.specs.Exits.{exit_call};
ghost use Rattle.malloc_calls.specs.Trays.{post_call, take_call};
ghost use Rattle.malloc_calls.specs.Examples.{replies};
ghost use Rattle.own_blocks.specs.declared.reply.Reply.TheVariants.{Got, Null, Freed, NotYours, Posted, Taken, Missed, Ended};
ghost use Rattle.own_blocks.specs.declared.reply.Origin.TheVariants as origins;
ghost use Rattle.own_blocks.specs.declared.reply.To.TheVariants as sinks;
ghost use Rattle.own_blocks.specs.declared.reply.Why.TheVariants.{Big};

/// A size that is too big and a name that holds nothing change nothing. The first chunk lies behind that of the cache's
/// structure; it is cached when it is freed, and is the next one of its size.
#[tactic(auto, unfolding(block_names::specs::Names::no_names, block_names::specs::Names::block_at, block_names::specs::Names::with_place, block_names::specs::Names::with_at, arena_rules::specs::PlainArena::empty_bins, arena_rules::specs::Search::most_stashed, thread_cache::specs::Caches::empty_cache_lists, fast_bins::specs::PlainBins::empty_state, arena_choice::specs::Books::no_arenas, serial_places::specs::SerialWays::no_slots))]
fn first_chunk_is_cached()
    ensures { replies ((0, malloc_call serial_values 0 1 (2 ^ 63)) ∷ (0, free_call serial_values 0 1) ∷ (0, malloc_call serial_values 0 1 24)
        ∷ (0, free_call serial_values 0 1) ∷ (0, malloc_call serial_values 0 2 20) ∷ [])
        ≡ Null Big ∷ NotYours ∷ Got 0x555555559290 32 (origins.Arena 0 1) ∷ Freed sinks.Cached
        ∷ Got 0x555555559290 32 origins.Cached ∷ [] }
{}

/// A freed chunk of 2,016 bytes is split for two small ones, from its front.
#[tactic(auto, unfolding(block_names::specs::Names::no_names, block_names::specs::Names::block_at, block_names::specs::Names::with_place, block_names::specs::Names::with_at, arena_rules::specs::PlainArena::empty_bins, arena_rules::specs::Search::most_stashed, thread_cache::specs::Caches::empty_cache_lists, fast_bins::specs::PlainBins::empty_state, arena_choice::specs::Books::no_arenas, serial_places::specs::SerialWays::no_slots))]
fn last_remainder_is_split_again()
    ensures { replies ((0, malloc_call serial_values 0 0 2000) ∷ (0, malloc_call serial_values 0 1 24) ∷ (0, free_call serial_values 0 0)
        ∷ (0, malloc_call serial_values 0 2 100) ∷ (0, malloc_call serial_values 0 3 100) ∷ [])
        ≡ Got 0x555555559290 2016 (origins.Arena 0 1) ∷ Got 0x555555559a70 32 (origins.Arena 0 2) ∷ Freed (sinks.Binned 0 3)
        ∷ Got 0x555555559290 112 (origins.Arena 0 4) ∷ Got 0x555555559300 112 (origins.Arena 0 5) ∷ [] }
{}

/// A chunk that top can't give is mapped from the threshold on. When it is freed the threshold rises, and the next one comes
/// from a growth.
#[tactic(auto, unfolding(block_names::specs::Names::no_names, block_names::specs::Names::block_at, block_names::specs::Names::with_place, block_names::specs::Names::with_at, arena_rules::specs::PlainArena::empty_bins, arena_rules::specs::Search::most_stashed, thread_cache::specs::Caches::empty_cache_lists, fast_bins::specs::PlainBins::empty_state, arena_choice::specs::Books::no_arenas, serial_places::specs::SerialWays::no_slots, arena_rules::specs::Release::consolidated))]
fn freed_mapping_raises_the_threshold()
    ensures { replies ((0, malloc_call serial_values 0 0 131072) ∷ (0, malloc_call serial_values 0 1 131072) ∷ (0, free_call serial_values 0 1)
        ∷ (0, malloc_call serial_values 0 2 131072) ∷ [])
        ≡ Got 0x555555559290 131088 (origins.Arena 0 1) ∷ Got 0x600000000000 135168 origins.Mapped ∷ Freed sinks.Unmapped
        ∷ Got 0x5555555792a0 131088 (origins.Arena 0 3) ∷ [] }
{}

/// A second thread opens an arena of its own, whose first chunk is that of its cache's structure, and posts a block of it; the
/// first thread frees that into its own cache. Then the second one ends.
#[tactic(auto, unfolding(block_names::specs::Names::no_names, block_names::specs::Names::block_at, block_names::specs::Names::with_place, block_names::specs::Names::with_at, arena_rules::specs::PlainArena::empty_bins, arena_rules::specs::Search::most_stashed, thread_cache::specs::Caches::empty_cache_lists, fast_bins::specs::PlainBins::empty_state, arena_choice::specs::Books::no_arenas, arena_choice::specs::Numbers::lowest_unused, serial_places::specs::SerialWays::no_slots, arena_rules::specs::Release::consolidated))]
fn second_thread_has_its_own_arena()
    ensures { replies ((1, malloc_call serial_values 1 1 24) ∷ (0, take_call 1 0) ∷ (1, post_call 1 0) ∷ (0, take_call 1 0)
        ∷ (0, free_call serial_values 0 1) ∷ (1, exit_call serial_values 1) ∷ [])
        ≡ Got 0x7f0000000b50 32 (origins.Arena 1 2) ∷ Missed 0 ∷ Posted ∷ Taken 0x7f0000000b50 32 ∷ Freed sinks.Cached ∷ Ended ∷ [] }
{}
