//! Worked examples on the definitions alone. Nothing runs; the check computes them.

ghost use Rattle.std.specs.Prelude.{◌≡◌, ℕ, ◌+◌, ◌*◌, [], ◌∷◌, Some, None, true, false};
ghost use Rattle.chunk_tags.specs.Tunables.{serial_values};
ghost use Rattle.address_space.specs.declared.asks.Ask.TheVariants.{Break, Map};
ghost use Rattle.address_space.specs.declared.asks.Answer.TheVariants.{Granted};
ghost use Rattle.arena_rules.specs.declared.said.Said.TheVariants.{Flag, Asked, Dial, Room};
ghost use Rattle.arena_rules.specs.PlainArena.{empty_main, unsorted_of, bin_at};
ghost use Rattle.arena_rules.specs.Rules.{end_of_rules, deeds_of, Stashes};
ghost use Rattle.arena_rules.specs.Resize.{resize_of};
ghost use Rattle.arena_rules.specs.Align.{align_of, aligned_block};
ghost use Rattle.arena_rules.specs.Search.{searched, carved, sorted_in};
ghost use Rattle.arena_tests.specs.Examples.{found_by, two_pages, three_cut, second_free, chunk_ended, mapping_ended, tiles_ended, unsorted_ended, small_cut, grown_cut, free_between, two_large, tail_stashed};
ghost use Rattle.chunk_tags.specs.declared.tiles.TileKind.TheVariants.{Used, Free, Top, Fence};
ghost use Rattle.address_space.specs.Spaces.{main_start, piece_start};
ghost use Rattle.arena_rules.specs.Moves.{tile_of, chunk_of, cut_from_top, left_of_top};
ghost use Rattle.arena_rules.specs.Release.{merged};
ghost use Rattle.arena_rules.specs.Growth.{break_taken, piece_taken};
ghost use Rattle.arena_rules.specs.Trim.{main_cut};

/// The chunk for the structure of a cache is the first of main, from a first growth of 135,168 bytes.
#[tactic(auto, unfolding(arena_rules::specs::PlainArena::empty_bins, arena_rules::specs::Search::most_stashed))]
fn structure_comes_first()
    ensures { found_by serial_values 656 empty_main (Flag false ∷ Dial 131072 ∷ Asked (Break 0x555555559000 0x55555557a000) Granted ∷ []) ≡ Some (0x555555559000, 656) }
{}

/// Chunks are cut from top's front, and a part that is freed goes to unsorted.
#[tactic(auto, unfolding(arena_rules::specs::PlainArena::empty_bins))]
fn chunks_are_cut_and_freed()
    ensures grown { two_pages.tiles ≡ tile_of Top main_start 8192 ∷ [] }
    ensures cut { three_cut.tiles ≡ tile_of Used main_start 32 ∷ tile_of Used (main_start + 32) 64 ∷ tile_of Used (main_start + 96) 48 ∷ tile_of Top (main_start + 144) 8048 ∷ [] }
    ensures freed { second_free.tiles ≡ tile_of Used main_start 32 ∷ tile_of Free (main_start + 32) 64 ∷ tile_of Used (main_start + 96) 48 ∷ tile_of Top (main_start + 144) 8048 ∷ [] }
    ensures listed { unsorted_of second_free ≡ chunk_of (tile_of Free (main_start + 32) 64) ∷ [] }
{}

/// A chunk that is given up is merged with its free neighbours, and with top.
#[tactic(auto, unfolding(arena_rules::specs::PlainArena::empty_bins))]
fn neighbours_are_merged()
    ensures behind { (merged second_free (chunk_of (tile_of Used main_start 32))).arena.tiles ≡ tile_of Free main_start 96 ∷ tile_of Used (main_start + 96) 48 ∷ tile_of Top (main_start + 144) 8048 ∷ [] }
    ensures listed { unsorted_of (merged second_free (chunk_of (tile_of Used main_start 32))).arena ≡ chunk_of (tile_of Free main_start 96) ∷ [] }
    ensures before { (merged second_free (chunk_of (tile_of Used (main_start + 96) 48))).arena.tiles ≡ tile_of Used main_start 32 ∷ tile_of Top (main_start + 32) 8160 ∷ [] }
    ensures in_top { (merged second_free (chunk_of (tile_of Used (main_start + 96) 48))).size ≡ 8160 }
    ensures none_left { unsorted_of (merged second_free (chunk_of (tile_of Used (main_start + 96) 48))).arena ≡ [] }
{}

/// A free chunk is taken, with a rest of at least 32 bytes split off, or goes to its own bin.
#[tactic(auto, unfolding(arena_rules::specs::PlainArena::empty_bins))]
fn free_chunks_are_carved_and_sorted()
    ensures parted { (carved second_free (chunk_of (tile_of Free (main_start + 32) 64)) 32).tiles ≡ tile_of Used main_start 32 ∷ tile_of Used (main_start + 32) 32 ∷ tile_of Free (main_start + 64) 32 ∷ tile_of Used (main_start + 96) 48 ∷ tile_of Top (main_start + 144) 8048 ∷ [] }
    ensures rest { unsorted_of (carved second_free (chunk_of (tile_of Free (main_start + 32) 64)) 32) ≡ chunk_of (tile_of Free (main_start + 64) 32) ∷ [] }
    ensures whole { (carved second_free (chunk_of (tile_of Free (main_start + 32) 64)) 48).tiles ≡ three_cut.tiles }
    ensures sorted { bin_at (sorted_in second_free (chunk_of (tile_of Free (main_start + 32) 64))) 4 ≡ chunk_of (tile_of Free (main_start + 32) 64) ∷ [] }
    ensures not_unsorted { unsorted_of (sorted_in second_free (chunk_of (tile_of Free (main_start + 32) 64))) ≡ [] }
{}

/// Top grows with the break, is cut at its end, and moves to a piece, where the old one is closed.
#[tactic(auto, unfolding(arena_rules::specs::PlainArena::empty_bins))]
fn top_grows_and_moves()
    ensures extended { (break_taken two_pages 4096).tiles ≡ tile_of Top main_start 12288 ∷ [] }
    ensures trimmed { (main_cut two_pages 4096).tiles ≡ tile_of Top main_start 4096 ∷ [] }
    ensures moved { (piece_taken two_pages 1048576).tiles ≡ tile_of Used main_start 8160 ∷ tile_of Fence (main_start + 8160) 32 ∷ tile_of Top piece_start 1048576 ∷ [] }
    ensures left { left_of_top two_pages ≡ Some (chunk_of (tile_of Used main_start 8160)) }
    ensures all_fence { (piece_taken (cut_from_top two_pages 8144) 1048576).tiles ≡ tile_of Used main_start 8144 ∷ tile_of Fence (main_start + 8144) 48 ∷ tile_of Top piece_start 1048576 ∷ [] }
    ensures none_left { left_of_top (cut_from_top two_pages 8144) ≡ None }
{}

/// A block grows into top to exactly its new size.
#[tactic(auto, unfolding(arena_rules::specs::PlainArena::empty_bins))]
fn resize_grows_into_top()
    ensures kept { chunk_ended (end_of_rules serial_values (resize_of serial_values small_cut (chunk_of (tile_of Used 0x555555559290 32)) 1008) []) ≡ Some (chunk_of (tile_of Used 0x555555559290 1008)) }
    ensures tiles { tiles_ended (end_of_rules serial_values (resize_of serial_values small_cut (chunk_of (tile_of Used 0x555555559290 32)) 1008) []) ≡ tile_of Used main_start 656 ∷ tile_of Used (main_start + 656) 1008 ∷ tile_of Top (main_start + 1664) 133504 ∷ [] }
{}

/// Where a used chunk is behind it a block moves to top, and its old chunk goes to the cache.
#[tactic(auto, unfolding(arena_rules::specs::PlainArena::empty_bins))]
fn resize_moves_to_top()
    ensures moved { chunk_ended (end_of_rules serial_values (resize_of serial_values grown_cut (chunk_of (tile_of Used 0x555555559290 1008)) 2016) (Flag false ∷ Room true ∷ [])) ≡ Some (chunk_of (tile_of Used 0x5555555596a0 2016)) }
    ensures stashed { deeds_of (resize_of serial_values grown_cut (chunk_of (tile_of Used 0x555555559290 1008)) 2016) (Flag false ∷ Room true ∷ []) ≡ Stashes (chunk_of (tile_of Used 0x555555559290 1008)) ∷ [] }
{}

/// A block takes the free chunk behind it, and what is left of that goes to the cache.
#[tactic(auto, unfolding(arena_rules::specs::PlainArena::empty_bins))]
fn resize_takes_the_free_chunk_behind()
    ensures kept { chunk_ended (end_of_rules serial_values (resize_of serial_values free_between (chunk_of (tile_of Used 0x5555555596a0 2016)) 4016) (Room true ∷ [])) ≡ Some (chunk_of (tile_of Used 0x5555555596a0 4016)) }
    ensures stashed { deeds_of (resize_of serial_values free_between (chunk_of (tile_of Used 0x5555555596a0 2016)) 4016) (Room true ∷ []) ≡ Stashes (chunk_of (tile_of Used 0x55555555a650 1008)) ∷ [] }
    ensures listed { unsorted_ended (end_of_rules serial_values (resize_of serial_values free_between (chunk_of (tile_of Used 0x5555555596a0 2016)) 4016) (Room true ∷ [])) ≡ [] }
{}

/// A block is joined with the chunk found behind it, which comes from a top that grew; the rest is merged into top, which is
/// trimmed.
#[tactic(auto, unfolding(arena_rules::specs::PlainArena::empty_bins))]
fn resize_joins_what_was_found_behind()
    ensures kept { chunk_ended (end_of_rules serial_values (resize_of serial_values two_large (chunk_of (tile_of Used 0x555555567d20 60016)) 100016) (Flag false ∷ Flag false ∷ Dial 131072 ∷ Asked (Break 0x55555557a000 0x5555555af000) Granted ∷ Room false ∷ Flag false ∷ Dial 131072 ∷ [])) ≡ Some (chunk_of (tile_of Used 0x555555567d20 100016)) }
    ensures tiles { tiles_ended (end_of_rules serial_values (resize_of serial_values two_large (chunk_of (tile_of Used 0x555555567d20 60016)) 100016) (Flag false ∷ Flag false ∷ Dial 131072 ∷ Asked (Break 0x55555557a000 0x5555555af000) Granted ∷ Room false ∷ Flag false ∷ Dial 131072 ∷ [])) ≡ tile_of Used main_start 656 ∷ tile_of Used 0x555555559290 32 ∷ tile_of Used 0x5555555592b0 60016 ∷ tile_of Used 0x555555567d20 100016 ∷ tile_of Top 0x5555555803d0 134192 ∷ [] }
{}

/// A smaller size is kept, and a rest of 16 bytes stays.
#[tactic(auto, unfolding(arena_rules::specs::PlainArena::empty_bins))]
fn resize_cuts_what_is_kept()
    ensures cut { chunk_ended (end_of_rules serial_values (resize_of serial_values grown_cut (chunk_of (tile_of Used 0x555555559290 1008)) 976) (Room true ∷ [])) ≡ Some (chunk_of (tile_of Used 0x555555559290 976)) }
    ensures stashed { deeds_of (resize_of serial_values grown_cut (chunk_of (tile_of Used 0x555555559290 1008)) 976) (Room true ∷ []) ≡ Stashes (chunk_of (tile_of Used 0x555555559660 32)) ∷ [] }
    ensures whole { chunk_ended (end_of_rules serial_values (resize_of serial_values grown_cut (chunk_of (tile_of Used 0x555555559290 1008)) 992) []) ≡ Some (chunk_of (tile_of Used 0x555555559290 1008)) }
{}

/// A chunk whose user address is a multiple at once keeps no lead; its tail goes to the cache.
#[tactic(auto, unfolding(arena_rules::specs::PlainArena::empty_bins))]
fn aligned_at_once()
    ensures found { chunk_ended (end_of_rules serial_values (align_of serial_values 64 112 small_cut) (Room true ∷ [])) ≡ Some (chunk_of (tile_of Used 0x5555555592b0 112)) }
    ensures stashed { deeds_of (align_of serial_values 64 112 small_cut) (Room true ∷ []) ≡ Stashes (chunk_of (tile_of Used 0x555555559320 112)) ∷ [] }
{}

/// A lead goes to unsorted, where the cache has no room for it, and a tail to the cache.
#[tactic(auto, unfolding(arena_rules::specs::PlainArena::empty_bins))]
fn aligned_behind_a_lead()
    ensures found { chunk_ended (end_of_rules serial_values (align_of serial_values 4096 112 tail_stashed) (Flag false ∷ Room false ∷ Room true ∷ [])) ≡ Some (chunk_of (tile_of Used 0x555555559ff0 112)) }
    ensures stashed { deeds_of (align_of serial_values 4096 112 tail_stashed) (Flag false ∷ Room false ∷ Room true ∷ []) ≡ Stashes (chunk_of (tile_of Used 0x55555555a060 976)) ∷ [] }
    ensures listed { unsorted_ended (end_of_rules serial_values (align_of serial_values 4096 112 tail_stashed) (Flag false ∷ Room false ∷ Room true ∷ [])) ≡ chunk_of (tile_of Free 0x555555559390 3168) ∷ [] }
{}

/// A mapping stays whole, with its block behind a lead; a lead of 16 bytes would be too short for a chunk.
#[tactic(auto, unfolding(arena_rules::specs::PlainArena::empty_bins))]
fn aligned_in_a_mapping()
    ensures found { mapping_ended (end_of_rules serial_values (align_of serial_values 4096 200016 small_cut) (Flag false ∷ Flag false ∷ Dial 131072 ∷ Dial 0 ∷ Asked (Map 0x600000000000 204800) Granted ∷ [])) ≡ Some (chunk_of (tile_of Used 0x600000000000 204800)) }
    ensures block { aligned_block 4096 (chunk_of (tile_of Used 0x600000000000 204800)) ≡ record { addr = 0x600000000ff0; size = 200720; lead = 4080; arena = None } }
    ensures longer_lead { aligned_block 32 (chunk_of (tile_of Used 0x600000032000 200704)) ≡ record { addr = 0x600000032030; size = 200656; lead = 48; arena = None } }
{}
