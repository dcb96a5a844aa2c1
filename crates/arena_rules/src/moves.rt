//! An arena as the bodies of its rules change it.

ghost use Rattle.std.specs.Prelude.{◌≡◌, ℕ, ◌+◌, ◌-◌, ◌%◌, ◌<◌, ◌≤◌, ◌^◌, false, nat_eq, drop, length, Some, None, IsTrue, IsNone, IsSome, IfOk, OnOk, OnErr};
ghost use Rattle.address_space.specs.Spaces.{main_start, piece_start};
ghost use Rattle.chunk_tags.specs.Tunables.{main_limit};
ghost use Rattle.chunk_tags.specs.Sizes.{IsChunkSize, is_small_size, small_index_of, large_index_of, bin_of};
ghost use Rattle.chunk_tags.specs.BinOrder.{times_in, oldest_of, best_of};
ghost use Rattle.chunk_tags.specs.Tiles.{tile_before, tile_behind, top_of};
ghost use Rattle.arena_rules.specs.PlainArena.{Plain, IsSound, is_main, is_own, bin_at, unsorted_of, times_listed};
ghost use Rattle.arena_rules.specs.Heaps.{unopened, opened_arena, heap_added, heap_extended, heap_shortened, end_before_heap, without_heap, last_heap, last_length};
ghost use Rattle.arena_rules.specs.HeapPlaces.{AreHeapWindows, IsHeapLength};
ghost use Rattle.arena_rules.specs.Moves.{hand, joined_before, joined_behind, is_before_top, is_free_tile, absorbed, shelved, claimed, parted, cut_from_top, left_of_top, top_size, top_start, Gains, StandsAlone};
ghost use Rattle.arena_rules.specs.Trim.{main_cut, CanCutMain};
ghost use Rattle.arena_rules.specs.Growth.{has_top_for, break_taken, break_rest, piece_taken, noted};
ghost use Rattle.arena_rules.specs.Search.{sorted_in, first_oldest};
ghost use Rattle.arena_rules.specs.Resize.{fits_with_top, grown_into_top, is_next_to, joined_with};

use crate::heap_end::HeapEnd;
use chunk_tags::{Addr, Chunk, NoMemory, Size, Tile};
use std::alloc::Global;

/// An arena that can be moved through its rules, however it is kept (the program's is `Ground` of arena_ground).
/// Contracts see the plain arena that it is; each call is one look or one move of the definitions (`Moves`, and for
/// resizing, sorting, growing and trimming `Resize`, `Search`, `Growth`, `Trim`, `Heaps`). None but `open` and those that
/// make room takes memory.
pub trait Moves {
    ghost plain: { Self → Plain };

    /// Whether there is room for a growth of main's break, and for a piece, of so many bytes.
    ghost break_room: { Self → ℕ → Type 0 };

    ghost piece_room: { Self → ℕ → Type 0 };

    /// Whether there is room for an extension of another arena's last heap, and for one heap more, of so many bytes.
    ghost extension_room: { Self → ℕ → Type 0 };

    ghost heap_room: { Self → ℕ → Type 0 };

    /// The arena's number; main is 0.
    fn number(&self) -> u8
        ensures { result ≡ (plain self.now).number };

    // Merging, releasing.

    /// Joins a used chunk with the chunk before it where that is free, and gives what it then is (a step of glibc's
    /// `_int_free`).
    fn join_before(&mut self, c: Chunk) -> Chunk
        requires sound { IsSound (plain self.old) }
        requires own { IsTrue (is_own (plain self.old) c) }
        ensures { hand result (plain self.new) ≡ joined_before (hand c (plain self.old)) };

    /// Joins a used chunk with the chunk behind it where that is free, and gives what it then is.
    fn join_behind(&mut self, c: Chunk) -> Chunk
        requires sound { IsSound (plain self.old) }
        requires own { IsTrue (is_own (plain self.old) c) }
        ensures { hand result (plain self.new) ≡ joined_behind (hand c (plain self.old)) };

    /// Whether top is directly behind a used chunk.
    fn is_before_top(&self, c: Chunk) -> bool
        requires sound { IsSound (plain self.now) }
        requires own { IsTrue (is_own (plain self.now) c) }
        ensures { result ≡ is_before_top (plain self.now) c };

    /// Makes a used chunk before top part of it, and gives top's size. No free chunk is before it.
    fn absorb(&mut self, c: Chunk) -> Size
        requires sound { IsSound (plain self.old) }
        requires own { IsTrue (is_own (plain self.old) c) }
        requires before { is_free_tile (tile_before c.at (plain self.old).tiles) ≡ false }
        requires top { IsTrue (is_before_top (plain self.old) c) }
        ensures arena { plain self.new ≡ absorbed (plain self.old) c }
        ensures size { result ≡ c.size + top_size (plain self.old) };

    /// Frees a used chunk that has no free neighbour and isn't before top, into the front of unsorted.
    fn shelve(&mut self, c: Chunk)
        requires sound { IsSound (plain self.old) }
        requires own { IsTrue (is_own (plain self.old) c) }
        requires alone { StandsAlone (plain self.old) c }
        ensures { plain self.new ≡ shelved (plain self.old) c };

    // Taking, resizing.

    /// Takes a free chunk out of its bin, so that it is used (glibc's `unlink_chunk`).
    fn claim(&mut self, c: Chunk)
        requires sound { IsSound (plain self.old) }
        requires listed { 0 < times_listed c (plain self.old) }
        ensures { plain self.new ≡ claimed (plain self.old) c };

    /// Parts a used chunk in two, the first of `nb` bytes, and gives the second.
    fn part(&mut self, c: Chunk, nb: Size) -> Chunk
        requires sound { IsSound (plain self.old) }
        requires own { IsTrue (is_own (plain self.old) c) }
        requires first { IsChunkSize nb }
        requires rest { IsChunkSize (c.size - nb) }
        ensures rest { result ≡ record { at = c.at + nb; size = c.size - nb } }
        ensures arena { plain self.new ≡ parted (plain self.old) c nb };

    /// The tile directly behind a used chunk.
    fn behind(&self, c: Chunk) -> Tile
        requires sound { IsSound (plain self.now) }
        requires own { IsTrue (is_own (plain self.now) c) }
        ensures { tile_behind c.at (plain self.now).tiles ≡ Some result };

    /// Joins a used chunk with the used chunk directly behind it, and gives what it then is (a step of glibc's
    /// `_int_realloc`).
    fn join_used(&mut self, c: Chunk, d: Chunk) -> Chunk
        requires sound { IsSound (plain self.old) }
        requires own { IsTrue (is_own (plain self.old) c) }
        requires next { IsTrue (is_own (plain self.old) d) }
        requires behind { IsTrue (is_next_to c d) }
        ensures { hand result (plain self.new) ≡ joined_with (hand c (plain self.old)) d };

    /// Grows a used chunk into the top directly behind it, to exactly `nb` bytes; top keeps at least 32 (a step of glibc's
    /// `_int_realloc`). A free chunk may be before it.
    fn grow_into_top(&mut self, c: Chunk, nb: Size)
        requires sound { IsSound (plain self.old) }
        requires own { IsTrue (is_own (plain self.old) c) }
        requires chunk { IsChunkSize nb }
        requires larger { c.size < nb }
        requires room { IsTrue (fits_with_top (plain self.old) c nb) }
        ensures { plain self.new ≡ grown_into_top (plain self.old) c nb };

    // Searching.

    /// Moves a chunk from unsorted to the bin of its size.
    fn sort_in(&mut self, c: Chunk)
        requires sound { IsSound (plain self.old) }
        requires unsorted { 0 < times_in c (unsorted_of (plain self.old)) }
        ensures { plain self.new ≡ sorted_in (plain self.old) c };

    /// The chunk that has been in unsorted longest.
    fn oldest_unsorted(&self) -> Option<Chunk>
        requires { IsSound (plain self.now) }
        ensures { result ≡ oldest_of (unsorted_of (plain self.now)) };

    /// Whether unsorted has one chunk.
    fn has_one_unsorted(&self) -> bool
        requires { IsSound (plain self.now) }
        ensures { result ≡ nat_eq (length (unsorted_of (plain self.now))) 1 };

    /// The address of the last remainder.
    fn last_remainder(&self) -> Option<Addr>
        ensures { result ≡ (plain self.now).last };

    fn set_last_remainder(&mut self, at: Addr)
        ensures { plain self.new ≡ record (plain self.old) { last = Some at } };

    /// The chunk that has been in the small bin of a size longest.
    fn oldest_small(&self, nb: Size) -> Option<Chunk>
        requires sound { IsSound (plain self.now) }
        requires chunk { IsChunkSize nb }
        requires small { IsTrue (is_small_size nb) }
        ensures { result ≡ oldest_of (bin_at (plain self.now) (small_index_of nb)) };

    /// The smallest chunk of a large size's own bin that fits; of several equals the second.
    fn best(&self, nb: Size) -> Option<Chunk>
        requires sound { IsSound (plain self.now) }
        requires large { 1024 ≤ nb }
        ensures { result ≡ best_of nb (bin_at (plain self.now) (large_index_of nb)) };

    /// The last chunk of the first bin above that of a size that isn't empty.
    fn first_larger(&mut self, nb: Size) -> Option<Chunk>
        requires sound { IsSound (plain self.old) }
        requires chunk { IsChunkSize nb }
        ensures chunk { result ≡ first_oldest (drop (bin_of nb + 1) (plain self.old).bins) }
        ensures arena { plain self.new ≡ plain self.old };

    /// Top, where there is one.
    fn top(&self) -> Option<Tile>
        ensures { result ≡ top_of (plain self.now).tiles };

    /// Cuts a chunk of `nb` bytes off the front of top, which keeps at least 32, and gives its address.
    fn cut_top(&mut self, nb: Size) -> Addr
        requires sound { IsSound (plain self.old) }
        requires chunk { IsChunkSize nb }
        requires room { IsTrue (has_top_for (plain self.old) nb) }
        ensures at { result ≡ top_start (plain self.old) }
        ensures arena { plain self.new ≡ cut_from_top (plain self.old) nb };

    /// The bytes from the system (glibc's `system_mem`).
    fn system(&self) -> u64
        ensures { result ≡ (plain self.now).system };

    // Growing and trimming main.

    /// Whether main's chunks have been side by side so far (glibc's `contiguous`).
    fn is_contiguous(&self) -> bool
        ensures { result ≡ (plain self.now).contiguous };

    /// The end of main's break.
    fn break_at(&self) -> u64
        ensures { result ≡ (plain self.now).break_at };

    /// The place of main's next piece.
    fn next_piece(&self) -> u64
        ensures { result ≡ (plain self.now).next_piece };

    /// Makes room for a growth of the break inside main's window. Nothing else changes. It is refused only where there is
    /// no such room.
    fn make_break_room(&mut self, growth: u64) -> Result<(), NoMemory>
        requires main { IsTrue (is_main (plain self.old)) }
        requires some { 0 < growth }
        requires pages { growth % 4096 ≡ 0 }
        requires window { (plain self.old).break_at + growth ≤ main_start + main_limit }
        ensures room { OnOk result (break_room self.new growth) }
        ensures full { OnErr result
            ((break_room self.old growth → ⊥) × (break_room self.new growth → ⊥)) }
        ensures arena { plain self.new ≡ plain self.old };

    /// Takes a growth of the break, which was granted, and gives what is to be released of an old top.
    fn take_break(&mut self, growth: u64) -> Option<Chunk>
        requires sound { IsSound (plain self.old) }
        requires main { IsTrue (is_main (plain self.old)) }
        requires room { break_room self.old growth }
        ensures rest { result ≡ break_rest (plain self.old) }
        ensures arena { plain self.new ≡ break_taken (plain self.old) growth };

    /// Makes room for a piece inside main's window for pieces. Nothing else changes. It is refused only where there is no
    /// such room.
    fn make_piece_room(&mut self, len: u64) -> Result<(), NoMemory>
        requires main { IsTrue (is_main (plain self.old)) }
        requires some { 0 < len }
        requires pages { len % 4096 ≡ 0 }
        requires window { (plain self.old).next_piece + len ≤ piece_start + main_limit }
        ensures room { OnOk result (piece_room self.new len) }
        ensures full { OnErr result
            ((piece_room self.old len → ⊥) × (piece_room self.new len → ⊥)) }
        ensures arena { plain self.new ≡ plain self.old };

    /// Takes a piece, which was granted, as top, and gives what is to be released of an old one.
    fn take_piece(&mut self, len: u64) -> Option<Chunk>
        requires sound { IsSound (plain self.old) }
        requires main { IsTrue (is_main (plain self.old)) }
        requires room { piece_room self.old len }
        ensures rest { result ≡ left_of_top (plain self.old) }
        ensures arena { plain self.new ≡ piece_taken (plain self.old) len };

    /// Raises the most bytes that there were to those that there are.
    fn note_most(&mut self)
        ensures { plain self.new ≡ noted (plain self.old) };

    /// Takes so many bytes off the end of top and of the break.
    fn cut_main(&mut self, bytes: u64)
        requires sound { IsSound (plain self.old) }
        requires main { IsTrue (is_main (plain self.old)) }
        requires spare { CanCutMain (plain self.old) bytes }
        ensures { plain self.new ≡ main_cut (plain self.old) bytes };

    // The heaps of another arena.

    /// A law; the call does nothing. Another arena has a top.
    fn top_law(&self)
        ensures { is_main (plain self.now) ≡ false → IsSome (top_of (plain self.now).tiles) };

    /// Another arena with its heap 0, of so many bytes; `heap_max` and `heaps` are the length of its heaps' windows, in bytes,
    /// and their number.
    fn open(
        alloc: Global,
        number: u8,
        heap_max: u64,
        heaps: u16,
        len: u64,
    ) -> Result<Self, NoMemory>
        requires other { 0 < number }
        requires number { number < 64 }
        requires windows { AreHeapWindows (record { heap_max = heap_max; heaps = heaps }) }
        requires length { IsHeapLength (record { heap_max = heap_max; heaps = heaps }) len }
        requires count { 0 < heaps }
        ensures arena { IfOk result (λ g. plain g
            ≡ opened_arena (unopened number (record { heap_max = heap_max; heaps = heaps })) len) }
        ensures sound { IfOk result (λ g. IsSound (plain g)) };

    /// The length of a heap's window, in bytes.
    fn heap_max(&self) -> u64
        requires { is_main (plain self.now) ≡ false }
        ensures length { result ≡ (plain self.now).windows.heap_max }
        ensures most { result ≤ 67108864 };

    /// How many heaps there may be.
    fn heaps(&self) -> u16
        requires { is_main (plain self.now) ≡ false }
        ensures count { result ≡ (plain self.now).windows.heaps }
        ensures most { result ≤ 64 };

    /// The heap that top is in.
    fn last_heap(&self) -> u16
        requires { is_main (plain self.now) ≡ false }
        ensures heap { result ≡ last_heap (plain self.now) }
        ensures one { result < (plain self.now).windows.heaps }
        ensures few { result < 64 };

    /// The length of that heap, in bytes.
    fn last_length(&self) -> u64
        requires { is_main (plain self.now) ≡ false }
        ensures length { result ≡ last_length (plain self.now) }
        ensures top { top_size (plain self.now) ≤ result }
        ensures window { result ≤ (plain self.now).windows.heap_max }
        ensures most { result ≤ 67108864 };

    /// Makes room for an extension of the last heap inside its window. Nothing else changes. It is refused only where there
    /// is no such room.
    fn make_extension_room(&mut self, growth: u64) -> Result<(), NoMemory>
        requires other { is_main (plain self.old) ≡ false }
        requires some { 0 < growth }
        requires pages { growth % 4096 ≡ 0 }
        requires window { last_length (plain self.old) + growth
            ≤ (plain self.old).windows.heap_max }
        ensures room { OnOk result (extension_room self.new growth) }
        ensures full { OnErr result
            ((extension_room self.old growth → ⊥) × (extension_room self.new growth → ⊥)) }
        ensures arena { plain self.new ≡ plain self.old };

    /// Takes an extension of the last heap, which was granted (glibc's `grow_heap`).
    fn extend_heap(&mut self, growth: u64)
        requires sound { IsSound (plain self.old) }
        requires other { is_main (plain self.old) ≡ false }
        requires room { extension_room self.old growth }
        ensures arena { plain self.new ≡ heap_extended (plain self.old) growth }
        ensures gains { Gains (plain self.old) None (plain self.new) };

    /// Makes room for one heap more. Nothing else changes. It is refused only where there is no such room.
    fn make_heap_room(&mut self, len: u64) -> Result<(), NoMemory>
        requires other { is_main (plain self.old) ≡ false }
        requires length { IsHeapLength (plain self.old).windows len }
        requires window { last_heap (plain self.old) + 1 < (plain self.old).windows.heaps }
        ensures room { OnOk result (heap_room self.new len) }
        ensures full { OnErr result
            ((heap_room self.old len → ⊥) × (heap_room self.new len → ⊥)) }
        ensures arena { plain self.new ≡ plain self.old };

    /// Takes one heap more, which was granted: behind its header all is top. Gives what is to be released of the old top
    /// (glibc's `new_heap` in `sysmalloc`).
    fn add_heap(&mut self, len: u64) -> Option<Chunk>
        requires sound { IsSound (plain self.old) }
        requires other { is_main (plain self.old) ≡ false }
        requires room { heap_room self.old len }
        ensures rest { result ≡ left_of_top (plain self.old) }
        ensures arena { plain self.new ≡ heap_added (plain self.old) len }
        ensures gains { Gains (plain self.old) result (plain self.new) };

    /// The end of the heap before the last one, where top is the first chunk of its heap (in glibc's `heap_trim`).
    fn end_before(&self) -> Option<HeapEnd>
        requires sound { IsSound (plain self.now) }
        requires other { is_main (plain self.now) ≡ false }
        ensures { result ≡ end_before_heap (plain self.now) };

    /// Drops the last heap, of which top is the first chunk; the end of the heap before is top (glibc's `delete_heap`).
    fn drop_heap(&mut self, end: &HeapEnd)
        requires sound { IsSound (plain self.old) }
        requires other { is_main (plain self.old) ≡ false }
        requires end { end_before_heap (plain self.old) ≡ Some end.now }
        ensures arena { plain self.new ≡ without_heap (plain self.old) end.now }
        ensures gains { Gains (plain self.old) None (plain self.new) }
        ensures fewer { length (plain self.new).tiles < length (plain self.old).tiles };

    /// Takes so many bytes off the end of top and of the last heap (glibc's `shrink_heap`).
    fn shorten_heap(&mut self, bytes: u64)
        requires sound { IsSound (plain self.old) }
        requires other { is_main (plain self.old) ≡ false }
        requires left { bytes + 32 ≤ top_size (plain self.old) }
        requires pages { bytes % 4096 ≡ 0 }
        ensures arena { plain self.new ≡ heap_shortened (plain self.old) bytes }
        ensures gains { Gains (plain self.old) None (plain self.new) };
}
