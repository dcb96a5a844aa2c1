//! Worked examples on the definitions alone. Nothing runs; the check computes them.

ghost use Rattle.std.specs.Prelude.{◌≡◌, ℕ, [], ◌∷◌, Some, None, true, false};
ghost use Rattle.chunk_tags.specs.Tunables.{serial_values};
ghost use Rattle.address_space.specs.declared.asks.Ask.TheVariants.{Break, NewHeap, GrowHeap, Map};
ghost use Rattle.address_space.specs.declared.asks.Answer.TheVariants.{Granted, Refused};
ghost use Rattle.arena_rules.specs.declared.said.Said.TheVariants.{Flag, Popped, Own, Room, Asked, Dial};
ghost use Rattle.arena_core.specs.Examples.{takes_at, maps_at, finds_none, opens_for, opens_short, gives_at, resizes_at, aligns_at, aligns_mapped, main_after, last_after, bytes_after, bytes_of_other, with_windows};

/// A small request is cut from a larger free chunk, and the next one from what is left of it, the last remainder.
#[tactic(auto, unfolding(arena_rules::specs::PlainArena::empty_bins, arena_rules::specs::Search::most_stashed))]
fn small_requests_split_the_last_remainder()
    ensures { last_after (takes_at 656 (Flag false ∷ Dial 131072 ∷ Asked (Break 0x555555559000 0x55555557a000) Granted ∷ []) 0x555555559000
        ∷ takes_at 2016 (Flag false ∷ []) 0x555555559290
        ∷ takes_at 32 (Popped None ∷ []) 0x555555559a70
        ∷ gives_at 0x555555559290 2016 []
        ∷ takes_at 112 (Popped None ∷ []) 0x555555559290
        ∷ takes_at 112 (Popped None ∷ []) 0x555555559300
        ∷ []) ≡ Some (Some 0x555555559370) }
{}

/// Of several chunks of one size in a large bin the second is taken; a new one of that size becomes the second.
#[tactic(auto, unfolding(arena_rules::specs::PlainArena::empty_bins, arena_rules::specs::Search::most_stashed))]
fn large_bins_give_the_second_of_equals()
    ensures { last_after (takes_at 656 (Flag false ∷ Dial 131072 ∷ Asked (Break 0x555555559000 0x55555557a000) Granted ∷ []) 0x555555559000
        ∷ takes_at 2016 (Flag false ∷ []) 0x555555559290
        ∷ takes_at 32 (Popped None ∷ []) 0x555555559a70
        ∷ takes_at 2016 (Flag false ∷ []) 0x555555559a90
        ∷ takes_at 32 (Popped None ∷ []) 0x55555555a270
        ∷ takes_at 2016 (Flag false ∷ []) 0x55555555a290
        ∷ takes_at 32 (Popped None ∷ []) 0x55555555aa70
        ∷ gives_at 0x555555559290 2016 []
        ∷ gives_at 0x555555559a90 2016 []
        ∷ gives_at 0x55555555a290 2016 []
        ∷ takes_at 3008 (Flag false ∷ []) 0x55555555aa90
        ∷ takes_at 2016 (Flag false ∷ []) 0x55555555a290
        ∷ takes_at 2016 (Flag false ∷ []) 0x555555559a90
        ∷ takes_at 2016 (Flag false ∷ []) 0x555555559290
        ∷ []) ≡ Some None }
{}

/// A large request consolidates the fast bins first; a chunk between used ones goes to its small bin.
#[tactic(auto, unfolding(arena_rules::specs::PlainArena::empty_bins, arena_rules::specs::Search::most_stashed, arena_rules::specs::Release::consolidated))]
fn large_requests_consolidate_first()
    ensures { last_after (takes_at 656 (Flag false ∷ Dial 131072 ∷ Asked (Break 0x555555559000 0x55555557a000) Granted ∷ []) 0x555555559000
        ∷ takes_at 32 (Popped None ∷ []) 0x555555559290
        ∷ takes_at 32 (Popped None ∷ []) 0x5555555592b0
        ∷ takes_at 32 (Popped None ∷ []) 0x5555555592d0
        ∷ takes_at 32 (Popped None ∷ []) 0x5555555592f0
        ∷ takes_at 32 (Popped None ∷ []) 0x555555559310
        ∷ takes_at 32 (Popped None ∷ []) 0x555555559330
        ∷ takes_at 32 (Popped None ∷ []) 0x555555559350
        ∷ takes_at 32 (Popped None ∷ []) 0x555555559370
        ∷ takes_at 32 (Popped None ∷ []) 0x555555559390
        ∷ takes_at 1120 (Flag true ∷ Own (Some 0x555555559370) ∷ Own None ∷ Own None ∷ Own None ∷ Own None ∷ Own None ∷ Own None ∷ Own None ∷ Own None ∷ Own None ∷ Own None ∷ []) 0x5555555593b0
        ∷ []) ≡ Some None }
{}

/// Two chunks of a fast bin are popped in one hold: the first is the answer, and the other is put into the cache.
#[tactic(auto, unfolding(arena_rules::specs::PlainArena::empty_bins, arena_rules::specs::Search::most_stashed))]
fn two_chunks_are_popped()
    ensures { last_after (takes_at 656 (Flag false ∷ Dial 131072 ∷ Asked (Break 0x555555559000 0x55555557a000) Granted ∷ []) 0x555555559000
        ∷ takes_at 32 (Popped None ∷ []) 0x555555559290
        ∷ takes_at 32 (Popped None ∷ []) 0x5555555592b0
        ∷ takes_at 32 (Popped (Some 0x555555559290) ∷ Room true ∷ Popped (Some 0x5555555592b0) ∷ Room false ∷ []) 0x555555559290
        ∷ []) ≡ Some None }
{}

/// No hold pops the chunk that it has popped already.
#[tactic(auto, unfolding(arena_rules::specs::PlainArena::empty_bins, arena_rules::specs::Search::most_stashed))]
fn chunk_is_popped_once()
    ensures { main_after (takes_at 656 (Flag false ∷ Dial 131072 ∷ Asked (Break 0x555555559000 0x55555557a000) Granted ∷ []) 0x555555559000
        ∷ takes_at 32 (Popped None ∷ []) 0x555555559290
        ∷ takes_at 32 (Popped None ∷ []) 0x5555555592b0
        ∷ takes_at 32 (Popped (Some 0x555555559290) ∷ Room true ∷ Popped (Some 0x555555559290) ∷ Room false ∷ []) 0x555555559290
        ∷ []) ≡ None }
{}

/// A chunk that is merged into top brings trimming: whole pages behind the pad go back, and the most bytes stay.
#[tactic(auto, unfolding(arena_rules::specs::PlainArena::empty_bins, arena_rules::specs::Search::most_stashed))]
fn a_large_chunk_before_top_brings_trimming()
    ensures grown { bytes_after (takes_at 656 (Flag false ∷ Dial 131072 ∷ Asked (Break 0x555555559000 0x55555557a000) Granted ∷ []) 0x555555559000
        ∷ takes_at 120016 (Flag false ∷ []) 0x555555559290
        ∷ takes_at 100016 (Flag false ∷ Flag false ∷ Dial 131072 ∷ Asked (Break 0x55555557a000 0x5555555af000) Granted ∷ []) 0x555555576760
        ∷ []) ≡ Some (352256, 352256, 131568) }
    ensures trimmed { bytes_after (takes_at 656 (Flag false ∷ Dial 131072 ∷ Asked (Break 0x555555559000 0x55555557a000) Granted ∷ []) 0x555555559000
        ∷ takes_at 120016 (Flag false ∷ []) 0x555555559290
        ∷ takes_at 100016 (Flag false ∷ Flag false ∷ Dial 131072 ∷ Asked (Break 0x55555557a000 0x5555555af000) Granted ∷ []) 0x555555576760
        ∷ gives_at 0x555555576760 100016 (Flag false ∷ Dial 131072 ∷ [])
        ∷ []) ≡ Some (253952, 352256, 133280) }
{}

/// A resize cuts its chunk, and the rest becomes part of top. Its entry has the old size: with another one it is none of this
/// arena.
#[tactic(auto, unfolding(arena_rules::specs::PlainArena::empty_bins, arena_rules::specs::Search::most_stashed))]
fn a_resize_cuts_its_chunk()
    ensures cut { bytes_after (takes_at 656 (Flag false ∷ Dial 131072 ∷ Asked (Break 0x555555559000 0x55555557a000) Granted ∷ []) 0x555555559000
        ∷ takes_at 2016 (Flag false ∷ []) 0x555555559290
        ∷ resizes_at 0x555555559290 2016 1008 (Room false ∷ Flag false ∷ Dial 131072 ∷ [])
        ∷ []) ≡ Some (135168, 135168, 133504) }
    ensures old_size { main_after (takes_at 656 (Flag false ∷ Dial 131072 ∷ Asked (Break 0x555555559000 0x55555557a000) Granted ∷ []) 0x555555559000
        ∷ takes_at 2016 (Flag false ∷ []) 0x555555559290
        ∷ resizes_at 0x555555559290 2000 1008 (Room false ∷ Flag false ∷ Dial 131072 ∷ [])
        ∷ []) ≡ None }
{}

/// Of a chunk from top the aligned part is kept; what is before and behind it goes to fast bins.
#[tactic(auto, unfolding(arena_rules::specs::PlainArena::empty_bins, arena_rules::specs::Search::most_stashed, std::specs::Prelude::count_ones))]
fn an_aligned_chunk_is_cut_on_both_sides()
    ensures { bytes_after (takes_at 656 (Flag false ∷ Dial 131072 ∷ Asked (Break 0x555555559000 0x55555557a000) Granted ∷ []) 0x555555559000
        ∷ aligns_at 64 112 (Room false ∷ Room false ∷ []) 0x5555555592b0
        ∷ []) ≡ Some (135168, 135168, 134288) }
{}

/// No hold is told of what it cut off itself. While the lead is released, which consolidates, the aligned part is in no fast
/// bin, though its size is one of these; told of nothing, the same hold stands.
#[tactic(auto, unfolding(arena_rules::specs::PlainArena::empty_bins, arena_rules::specs::Search::most_stashed, arena_rules::specs::Release::consolidated, std::specs::Prelude::count_ones))]
fn a_hold_is_told_of_nothing_that_it_cut_off()
    ensures told { main_after (takes_at 656 (Flag false ∷ Dial 131072 ∷ Asked (Break 0x555555559000 0x55555557a000) Granted ∷ []) 0x555555559000
        ∷ takes_at 28016 (Flag false ∷ []) 0x555555559290
        ∷ aligns_at 131072 32 (Flag false ∷ Flag false ∷ Dial 1073741824 ∷ Asked (Break 0x55555557a000 0x5555555a1000) Granted
        ∷ Room false ∷ Flag true ∷ Own None ∷ Own None ∷ Own None ∷ Own None ∷ Own (Some 0x55555557fff0) ∷ Own None
        ∷ Own None ∷ Own None ∷ Own None ∷ Own None ∷ Own None ∷ Dial 1073741824 ∷ Room true ∷ []) 0x55555557fff0
        ∷ []) ≡ None }
    ensures none { bytes_after (takes_at 656 (Flag false ∷ Dial 131072 ∷ Asked (Break 0x555555559000 0x55555557a000) Granted ∷ []) 0x555555559000
        ∷ takes_at 28016 (Flag false ∷ []) 0x555555559290
        ∷ aligns_at 131072 32 (Flag false ∷ Flag false ∷ Dial 1073741824 ∷ Asked (Break 0x55555557a000 0x5555555a1000) Granted
        ∷ Room false ∷ Flag true ∷ Own None ∷ Own None ∷ Own None ∷ Own None ∷ Own None
        ∷ Own None ∷ Own None ∷ Own None ∷ Own None ∷ Own None ∷ Dial 1073741824 ∷ Room true ∷ []) 0x55555557fff0
        ∷ []) ≡ Some (294912, 294912, 135088) }
{}

/// What a hold pushed it may be told of: a small lead goes to its fast bin, and then the tail's release consolidates.
#[tactic(auto, unfolding(arena_rules::specs::PlainArena::empty_bins, arena_rules::specs::Search::most_stashed, arena_rules::specs::Release::consolidated, std::specs::Prelude::count_ones))]
fn a_hold_is_told_of_what_it_pushed()
    ensures { bytes_after (takes_at 656 (Flag false ∷ Dial 131072 ∷ Asked (Break 0x555555559000 0x55555557a000) Granted ∷ []) 0x555555559000
        ∷ takes_at 27936 (Flag false ∷ []) 0x555555559290
        ∷ aligns_at 65536 32 (Flag false ∷ Room false ∷ Room false ∷ Flag true ∷ Own None ∷ Own None ∷ Own (Some 0x55555555ffb0)
        ∷ Own None ∷ Own None ∷ Own None ∷ Own None ∷ Own None ∷ Own None ∷ Own None ∷ Own None ∷ Dial 131072 ∷ []) 0x55555555fff0
        ∷ []) ≡ Some (135168, 135168, 106480) }
{}

/// 48 is a multiple of 16, and no alignment: no hold has searched for it.
#[tactic(auto, unfolding(arena_rules::specs::PlainArena::empty_bins, arena_rules::specs::Search::most_stashed, std::specs::Prelude::count_ones))]
fn an_alignment_is_a_power_of_two()
    ensures { main_after (takes_at 656 (Flag false ∷ Dial 131072 ∷ Asked (Break 0x555555559000 0x55555557a000) Granted ∷ []) 0x555555559000
        ∷ aligns_at 48 112 (Room false ∷ Room false ∷ []) 0x5555555592b0
        ∷ []) ≡ None }
{}

/// An aligned block in a mapping is recorded behind its lead, and not at the mapping's start.
#[tactic(auto, unfolding(arena_rules::specs::PlainArena::empty_bins, arena_rules::specs::Search::most_stashed, std::specs::Prelude::count_ones))]
fn an_aligned_mapping_is_recorded_behind_its_lead()
    ensures behind { last_after (takes_at 656 (Flag false ∷ Dial 131072 ∷ Asked (Break 0x555555559000 0x55555557a000) Granted ∷ []) 0x555555559000
        ∷ aligns_mapped 4096 200000 (Flag false ∷ Flag false ∷ Dial 131072 ∷ Dial 0 ∷ Asked (Map 0x7f8000000000 204800) Granted ∷ []) 0x7f8000000ff0 200720
        ∷ []) ≡ Some None }
    ensures start { main_after (takes_at 656 (Flag false ∷ Dial 131072 ∷ Asked (Break 0x555555559000 0x55555557a000) Granted ∷ []) 0x555555559000
        ∷ aligns_mapped 4096 200000 (Flag false ∷ Flag false ∷ Dial 131072 ∷ Dial 0 ∷ Asked (Map 0x7f8000000000 204800) Granted ∷ []) 0x7f8000000000 204800
        ∷ []) ≡ None }
{}

/// Another arena's heap 0 is for a request and the pad, and of its bytes 2928 are in use with a chunk of 32: its header and its
/// record, the structure of a cache, and the chunk. Where that is refused, the least heap 0 is asked for.
#[tactic(auto, unfolding(arena_rules::specs::PlainArena::empty_bins, arena_rules::specs::Search::most_stashed))]
fn another_arena_is_opened_for_a_request()
    ensures granted { bytes_of_other serial_values (opens_for 640 (Asked (NewHeap 1 0 135168) Granted ∷ [])
        ∷ takes_at 656 [] 0x7f00000008c0
        ∷ takes_at 32 (Popped None ∷ []) 0x7f0000000b50
        ∷ []) ≡ Some (135168, 135168, 132240) }
    ensures again { bytes_of_other (with_windows 131072 2)
        (opens_for 40000 (Asked (NewHeap 1 0 45056) Refused ∷ Asked (NewHeap 1 0 32768) Granted ∷ [])
        ∷ []) ≡ Some (32768, 32768, 30528) }
{}

/// Another arena's journal begins with its opening: before that nothing is searched there, and not even a mapping is found.
/// Nor is it opened twice, and an opening that was short of memory leaves no entry.
#[tactic(auto, unfolding(arena_rules::specs::PlainArena::empty_bins, arena_rules::specs::Search::most_stashed))]
fn another_arena_is_opened_first()
    ensures unopened { bytes_of_other serial_values (maps_at 200016 (Flag false ∷ Flag false ∷ Dial 131072 ∷ Dial 0
        ∷ Asked (Map 0x601000000000 200704) Granted ∷ []) 0x601000000000 200704
        ∷ []) ≡ None }
    ensures opened { bytes_of_other serial_values (opens_for 640 (Asked (NewHeap 1 0 135168) Granted ∷ [])
        ∷ maps_at 200016 (Flag false ∷ Flag false ∷ Dial 131072 ∷ Dial 0
        ∷ Asked (Map 0x601000000000 200704) Granted ∷ []) 0x601000000000 200704
        ∷ []) ≡ Some (135168, 135168, 132928) }
    ensures twice { bytes_of_other serial_values (opens_for 640 (Asked (NewHeap 1 0 135168) Granted ∷ [])
        ∷ opens_for 640 (Asked (NewHeap 1 0 135168) Granted ∷ [])
        ∷ []) ≡ None }
    ensures short { bytes_of_other serial_values (opens_short 640 []
        ∷ opens_for 640 (Asked (NewHeap 1 0 135168) Granted ∷ [])
        ∷ []) ≡ None }
{}

/// A heap is extended to its window's end at most; then one more comes, and what is left of the old top before its fence is
/// released. Where the chunk in it is given back, that heap goes, and the end of the one before is top.
#[tactic(auto, unfolding(arena_rules::specs::PlainArena::empty_bins, arena_rules::specs::Search::most_stashed))]
fn another_arena_grows_by_a_heap_and_drops_it()
    ensures grown { bytes_of_other (with_windows 131072 64) (opens_for 640 (Asked (NewHeap 1 0 32768) Granted ∷ [])
        ∷ takes_at 656 [] 0x7f00000008c0
        ∷ takes_at 100016 (Flag false ∷ Flag false ∷ Dial 131072 ∷ Asked (GrowHeap 1 0 32768 106496) Granted ∷ []) 0x7f0000000b50
        ∷ takes_at 100016 (Flag false ∷ Flag false ∷ Dial 131072 ∷ Asked (GrowHeap 1 0 106496 204800) Refused
        ∷ Asked (NewHeap 1 1 102400) Granted ∷ Room false ∷ []) 0x7f0000020020
        ∷ []) ≡ Some (208896, 208896, 2352) }
    ensures dropped { bytes_of_other (with_windows 131072 64) (opens_for 640 (Asked (NewHeap 1 0 32768) Granted ∷ [])
        ∷ takes_at 656 [] 0x7f00000008c0
        ∷ takes_at 100016 (Flag false ∷ Flag false ∷ Dial 131072 ∷ Asked (GrowHeap 1 0 32768 106496) Granted ∷ []) 0x7f0000000b50
        ∷ takes_at 100016 (Flag false ∷ Flag false ∷ Dial 131072 ∷ Asked (GrowHeap 1 0 106496 204800) Refused
        ∷ Asked (NewHeap 1 1 102400) Granted ∷ Room false ∷ []) 0x7f0000020020
        ∷ gives_at 0x7f0000020020 100016 (Flag false ∷ Dial 131072 ∷ [])
        ∷ []) ≡ Some (106496, 208896, 3584) }
{}

/// Where no window is left a mapping is asked for, though the size is below the threshold; where that is refused the heaps are
/// asked for once more. No second mapping is asked for where one was tried first.
#[tactic(auto, unfolding(arena_rules::specs::PlainArena::empty_bins, arena_rules::specs::Search::most_stashed))]
fn another_arena_maps_at_the_end_of_its_windows()
    ensures mapped { bytes_of_other (with_windows 65536 1) (opens_for 640 (Asked (NewHeap 1 0 32768) Granted ∷ [])
        ∷ takes_at 656 [] 0x7f00000008c0
        ∷ takes_at 60016 (Flag false ∷ Flag false ∷ Dial 131072 ∷ Asked (GrowHeap 1 0 32768 65536) Granted ∷ []) 0x7f0000000b50
        ∷ maps_at 60016 (Flag false ∷ Flag false ∷ Dial 131072 ∷ Asked (GrowHeap 1 0 65536 126976) Refused
        ∷ Asked (NewHeap 1 1 61440) Refused ∷ Asked (Map 0x601000000000 61440) Granted ∷ []) 0x601000000000 61440
        ∷ []) ≡ Some (65536, 65536, 2624) }
    ensures refused { bytes_of_other (with_windows 65536 1) (opens_for 640 (Asked (NewHeap 1 0 32768) Granted ∷ [])
        ∷ finds_none 60016 (Flag false ∷ Flag false ∷ Dial 131072 ∷ Asked (GrowHeap 1 0 32768 65536) Refused
        ∷ Asked (NewHeap 1 1 61440) Refused ∷ Asked (Map 0x601000000000 61440) Refused
        ∷ Asked (GrowHeap 1 0 32768 65536) Refused ∷ Asked (NewHeap 1 1 61440) Refused ∷ [])
        ∷ []) ≡ Some (32768, 32768, 30528) }
    ensures tried { bytes_of_other (with_windows 65536 1) (opens_for 640 (Asked (NewHeap 1 0 32768) Granted ∷ [])
        ∷ finds_none 200016 (Flag false ∷ Flag false ∷ Dial 131072 ∷ Dial 0 ∷ Asked (Map 0x601000000000 200704) Refused
        ∷ Asked (GrowHeap 1 0 32768 204800) Refused ∷ Asked (NewHeap 1 1 200704) Refused ∷ [])
        ∷ []) ≡ Some (32768, 32768, 30528) }
{}

/// Where the release of an old top drops the new heap again, nothing is found, and the most bytes don't count that heap.
#[tactic(auto, unfolding(arena_rules::specs::PlainArena::empty_bins, arena_rules::specs::Search::most_stashed))]
fn a_new_heap_is_dropped_as_the_old_top_is_closed()
    ensures { bytes_of_other (with_windows 131072 2) (opens_for 640 (Asked (NewHeap 1 0 32768) Granted ∷ [])
        ∷ takes_at 656 [] 0x7f00000008c0
        ∷ takes_at 70016 (Flag false ∷ Flag false ∷ Dial 131072 ∷ Asked (GrowHeap 1 0 32768 73728) Granted ∷ []) 0x7f0000000b50
        ∷ gives_at 0x7f0000000b50 70016 (Flag false ∷ Dial 131072 ∷ [])
        ∷ finds_none 130992 (Flag false ∷ Flag false ∷ Dial 131072 ∷ Asked (GrowHeap 1 0 73728 135168) Refused
        ∷ Asked (NewHeap 1 1 131072) Granted ∷ Room false ∷ Flag false ∷ Dial 131072 ∷ [])
        ∷ []) ≡ Some (73728, 73728, 70832) }
{}
