//! The heaps of another arena.

ghost use Rattle.std.specs.Prelude.{◌≡◌, ℕ, ◌+◌, ◌-◌, ◌%◌, ◌<◌, ◌≤◌, List, [], ◌∷◌, ◌++◌, Option, Some, None, IsTrue, IfOk, length, vec_capacity};
ghost use Rattle.chunk_tags.specs.Tiles.{Row, tile_at};
ghost use Rattle.chunk_tags.specs.declared.tiles.Tile.{Tile as Square};
ghost use Rattle.chunk_tags.specs.declared.tiles.Chunk.{Chunk as Piece};
ghost use Rattle.part_words.specs.Extents.{AreOpen};
ghost use Rattle.arena_rules.specs.PlainArena.{empty_bins};
ghost use Rattle.arena_rules.specs.Moves.{left_of_top, top_size};
ghost use Rattle.arena_rules.specs.Heaps.{unopened, opened_arena, heap_added, heap_extended, heap_shortened, heap_start, end_before_heap, without_heap, end_start, last_length};
ghost use Rattle.arena_rules.specs.HeapPlaces.{AreHeapWindows, IsHeapLength};
ghost use Rattle.heap_top.specs.Regions.{arena_of, bare_arena, is_top_first, reopened_tiles, HasTop, IsBeforeFence, IsOther};
ghost use Rattle.heap_top.specs.HeapRanges.{IsHeapGrowth, IsNewHeap};

use crate::regions::Regions;
use address_space::HEAPS_START;
use arena_rules::HeapEnd;
use chunk_image::TileWords;
use chunk_tags::{Addr, Chunk, NoMemory, Size, Tile, TileKind};
use std::alloc::Global;

/// The bytes of a heap's header, and of heap 0's, which has the record of the arena too.
const HEADER: u64 = 32;

const FIRST_HEADER: u64 = 2240;

impl Regions {
    /// Another arena before its first heap, with room for the lengths of all that there may be.
    pub fn other(alloc: Global, number: u8, heap_max: u64, heaps: u16) -> Result<Regions, NoMemory>
        ensures arena { IfOk result (λ r. arena_of r [] empty_bins None
            ≡ unopened number (record { heap_max = heap_max; heaps = heaps })) }
        ensures closed { IfOk result (λ r. r.closed.items ≡ []) }
        ensures room { IfOk result (λ r. r.heaps ≤ vec_capacity r.closed) }
        ensures top { IfOk result (λ r. r.top ≡ None) }
    {
        Ok(Regions {
            number,
            heap_max,
            heaps,
            closed: Vec::with_capacity(alloc, usize::from(heaps))?,
            top: None,
            contiguous: false,
            break_at: 0,
            next_piece: 0,
            system: 0,
            most: 0,
        })
    }

    /// Opens heap 0 with so many bytes, which have words: behind its header all is top (glibc's `_int_new_arena`).
    pub fn open_heap(&mut self, tiles: &mut TileWords, len: u64)
        requires bare { tiles.old.tiles ≡ [] }
        requires other { 0 < self.old.number }
        requires number { self.old.number < 64 }
        requires windows { AreHeapWindows (bare_arena self.old []).windows }
        requires count { 0 < self.old.heaps }
        requires length { IsHeapLength (bare_arena self.old []).windows len }
        requires words { AreOpen tiles.old.extent (heap_start (bare_arena self.old []) 0) len }
        ensures top { HasTop self.new.top tiles.new.tiles }
        ensures closed { self.new.closed ≡ self.old.closed }
        ensures arena { (bins : List (List Piece)) (last : Option ℕ)
            → arena_of self.new tiles.new.tiles bins last
            ≡ opened_arena (arena_of self.old tiles.old.tiles bins last) len }
        ensures extent { tiles.new.extent ≡ tiles.old.extent }
    {
        let addr = Addr(self.heap_start(0) + FIRST_HEADER);
        tiles.enter(&Tile {
            addr,
            size: Size(len - FIRST_HEADER),
            kind: TileKind::Top,
        });
        self.top = Some(addr);
        self.system = len;
        self.most = len;
    }

    /// The heap that top is in.
    pub fn last_heap(&self) -> u16
        requires { length self.now.closed.items < 65536 }
        ensures { result ≡ length self.now.closed.items }
    {
        self.closed.len() as u16
    }

    /// The length of that heap, in bytes.
    pub fn last_length(&self, tiles: &TileWords) -> u64
        requires { IsOther self.now tiles.now.tiles }
        ensures { result ≡ last_length (bare_arena self.now tiles.now.tiles) }
    {
        let start = self.heap_start(self.count_closed());
        match self.top(tiles) {
            None => 0,
            Some(top) => top.addr.0 + top.size.0 - start,
        }
    }

    /// Takes an extension of the last heap, which was granted: top is longer (glibc's `grow_heap`).
    pub fn extend_heap(&mut self, tiles: &mut TileWords, growth: u64)
        requires heaps { IsOther self.old tiles.old.tiles }
        requires range { IsHeapGrowth tiles.old.extent
            (bare_arena self.old tiles.old.tiles) growth }
        ensures top { HasTop self.new.top tiles.new.tiles }
        ensures closed { self.new.closed ≡ self.old.closed }
        ensures arena { (bins : List (List Piece)) (last : Option ℕ)
            → arena_of self.new tiles.new.tiles bins last
            ≡ heap_extended (arena_of self.old tiles.old.tiles bins last) growth }
        ensures extent { tiles.new.extent ≡ tiles.old.extent }
    {
        self.system += growth;
        self.extend_top(tiles, growth);
    }

    /// Takes one heap more, which was granted: top moves behind its header. Gives what is to be released of the old top
    /// (glibc's `new_heap` in `sysmalloc`).
    pub fn add_heap(&mut self, tiles: &mut TileWords, len: u64) -> Option<Chunk>
        requires heaps { IsOther self.old tiles.old.tiles }
        requires range { IsNewHeap tiles.old.extent (bare_arena self.old tiles.old.tiles) len }
        ensures rest { result ≡ left_of_top (bare_arena self.old tiles.old.tiles) }
        ensures top { HasTop self.new.top tiles.new.tiles }
        ensures closed { self.new.closed.items
            ≡ self.old.closed.items ++ last_length (bare_arena self.old tiles.old.tiles) ∷ [] }
        ensures room { vec_capacity self.old.closed ≤ vec_capacity self.new.closed }
        ensures arena { (bins : List (List Piece)) (last : Option ℕ)
            → arena_of self.new tiles.new.tiles bins last
            ≡ heap_added (arena_of self.old tiles.old.tiles bins last) len }
        ensures extent { tiles.new.extent ≡ tiles.old.extent }
    {
        let length = self.last_length(tiles);
        let start = self.heap_start(self.count_closed() + 1);
        self.closed.push_reserved(length);
        self.system += len;
        self.move_top(tiles, start + HEADER, len - HEADER)
    }

    /// The end of the heap before the last one, where top is the first chunk of its heap (in glibc's `heap_trim`).
    pub fn end_before(&self, tiles: &TileWords) -> Option<HeapEnd>
        requires { IsOther self.now tiles.now.tiles }
        ensures { result ≡ end_before_heap (bare_arena self.now tiles.now.tiles) }
    {
        if self.is_top_first(tiles) {
            Some(self.end_of_closed(tiles))
        } else {
            None
        }
    }

    /// Drops the last heap, of which top is the first chunk; the end of the heap before is top (glibc's `delete_heap`).
    pub fn drop_heap(&mut self, tiles: &mut TileWords, end: &HeapEnd)
        requires heaps { IsOther self.old tiles.old.tiles }
        requires end { end_before_heap (bare_arena self.old tiles.old.tiles) ≡ Some end.now }
        ensures top { HasTop self.new.top tiles.new.tiles }
        ensures closed { (len : ℕ) × (self.old.closed.items ≡ self.new.closed.items ++ len ∷ []) }
        ensures room { vec_capacity self.old.closed ≤ vec_capacity self.new.closed }
        ensures arena { (bins : List (List Piece)) (last : Option ℕ)
            → arena_of self.new tiles.new.tiles bins last
            ≡ record (without_heap (arena_of self.old tiles.old.tiles bins last) end.now) {
              bins = bins;
            } }
        ensures extent { tiles.new.extent ≡ tiles.old.extent }
    {
        let length = self.last_length(tiles);
        match self.top(tiles) {
            None => (),
            Some(top) => {
                self.top = Some(reopen(tiles, end));
                tiles.remove(&top);
                drop_last(&mut self.closed);
                self.system -= length;
            }
        }
    }

    /// Takes so many bytes off the end of top and of the last heap (glibc's `shrink_heap`).
    pub fn shorten_heap(&mut self, tiles: &mut TileWords, bytes: u64)
        requires heaps { IsOther self.old tiles.old.tiles }
        requires left { bytes + 32 ≤ top_size (bare_arena self.old tiles.old.tiles) }
        requires pages { bytes % 4096 ≡ 0 }
        ensures top { HasTop self.new.top tiles.new.tiles }
        ensures closed { self.new.closed ≡ self.old.closed }
        ensures arena { (bins : List (List Piece)) (last : Option ℕ)
            → arena_of self.new tiles.new.tiles bins last
            ≡ heap_shortened (arena_of self.old tiles.old.tiles bins last) bytes }
        ensures extent { tiles.new.extent ≡ tiles.old.extent }
    {
        match self.top(tiles) {
            None => (),
            Some(top) => {
                tiles.set_size(&top, Size(top.size.0 - bytes));
                self.system -= bytes;
            }
        }
    }

    /// Whether top is the first chunk of its heap, which isn't heap 0.
    fn is_top_first(&self, tiles: &TileWords) -> bool
        requires { IsOther self.now tiles.now.tiles }
        ensures { result ≡ is_top_first (bare_arena self.now tiles.now.tiles) }
    {
        let first = self.heap_start(self.count_closed()) + HEADER;
        match self.top(tiles) {
            None => false,
            Some(top) => top.addr.0 == first,
        }
    }

    /// The end of the heap before the last one, of which top is the first chunk.
    fn end_of_closed(&self, tiles: &TileWords) -> HeapEnd
        requires heaps { IsOther self.now tiles.now.tiles }
        requires first { IsTrue (is_top_first (bare_arena self.now tiles.now.tiles)) }
        ensures { end_before_heap (bare_arena self.now tiles.now.tiles) ≡ Some result }
    {
        let length = last_of(&self.closed);
        let end = self.heap_start(self.count_closed() - 1) + length;
        let fence = tiles.ending_at(Addr(end));
        let before = tiles.free_before(fence.addr);
        HeapEnd {
            fence,
            before,
            room: self.heap_max - length,
        }
    }

    /// How many heaps are before the last one.
    fn count_closed(&self) -> u64
        ensures { result ≡ length self.now.closed.items }
    {
        self.closed.len() as u64
    }

    /// Where the window of a heap begins.
    pub fn heap_start(&self, heap: u64) -> u64
        requires other { 0 < self.now.number }
        requires number { self.now.number < 64 }
        requires windows { AreHeapWindows (bare_arena self.now []).windows }
        requires heap { heap ≤ 64 }
        ensures { result ≡ heap_start (bare_arena self.now []) heap }
    {
        let window = (u64::from(self.number) - 1) * u64::from(self.heaps) + heap;
        HEAPS_START + window * self.heap_max
    }
}

/// Makes the end of a heap one tile that is top, and gives where that begins.
fn reopen(tiles: &mut TileWords, end: &HeapEnd) -> Addr
    requires row { Row tiles.old.tiles }
    requires fence { tile_at end.now.fence.addr tiles.old.tiles ≡ Some end.now.fence }
    requires before { (u : Square) → end.now.before ≡ Some u
        → IsBeforeFence u end.now.fence tiles.old.tiles }
    ensures start { result ≡ end_start end.now }
    ensures tiles { tiles.new
        ≡ record tiles.old { tiles = reopened_tiles end.now tiles.old.tiles } }
{
    match end.before {
        None => {
            tiles.set_kind(&end.fence, TileKind::Top);
            end.fence.addr
        }
        Some(chunk) => {
            tiles.fuse(&chunk, &end.fence, TileKind::Top);
            chunk.addr
        }
    }
}

/// The last length.
fn last_of(closed: &Vec<u64>) -> u64
    requires { 0 < length closed.now.items }
    ensures { (front : List ℕ) × (closed.now.items ≡ front ++ result ∷ []) }
{
    closed[closed.len() - 1]
}

/// Drops the last length.
fn drop_last(closed: &mut Vec<u64>)
    requires { 0 < length closed.old.items }
    ensures length { (len : ℕ) × (closed.old.items ≡ closed.new.items ++ len ∷ []) }
    ensures room { vec_capacity closed.old ≤ vec_capacity closed.new }
{
    closed.take_last();
}
