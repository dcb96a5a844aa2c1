//! An arena in its words.

ghost use Rattle.std.specs.Prelude.{◌≡◌, ℕ, ◌≤◌, ◌+◌, map, ◌<◌, false, List, IfOk, OnOk, OnErr};
ghost use Rattle.chunk_tags.specs.Tunables.{main_limit};
ghost use Rattle.address_space.specs.Spaces.{main_start, piece_start};
ghost use Rattle.part_words.specs.Extents.{AreOpen, IsWithinPart};
ghost use Rattle.ordinary_bins.specs.Lists.{bin_count};
ghost use Rattle.arena_rules.specs.PlainArena.{bin_at, empty_main, is_main};
ghost use Rattle.chunk_tags.specs.declared.tiles.Chunk.{Chunk as Piece};
ghost use Rattle.arena_rules.specs.MainPlaces.{IsPlaced};
ghost use Rattle.arena_rules.specs.HeapPlaces.{IsHeapPlaced};
ghost use Rattle.heap_top.specs.HeapRanges.{IsHeapGrowth, IsNewHeap};
ghost use Rattle.heap_top.specs.MainRanges.{IsNewRange};

use crate::steps::{
    UNSORTED, addresses, best, bin_of, claim, first_oldest_from, is_free, is_top, join, oldest_in,
    part, shelve, sort_in, unlink_end,
};
use address_space::{MAIN_START, PIECE_START};
use arena_rules::{HeapEnd, Moves};
use chunk_image::TileWords;
use chunk_tags::{Addr, Chunk, NoMemory, Size, Tile, TileKind, small_index};
use heap_top::Regions;
use ordinary_bins::LinkWords;
use std::alloc::Global;
use std::marker::Model;

/// One arena: the words that say where its tiles are and which bins its free chunks are in, and the numbers of its
/// regions. It is main, or another arena with its heaps.
#[derive(Drop)]
pub struct Ground {
    tiles: TileWords,
    links: LinkWords,
    /// The first chunk of each size of each large bin.
    firsts: LinkWords,
    regions: Regions,
    /// The last remainder.
    last: Option<Addr>,
    alloc: Global,
}

impl Model for Ground {
    ghost use Rattle.arena_ground.specs.Grounds.{GroundView};

    ghost Value = { GroundView };

    ghost use Rattle.arena_ground.specs.Grounds.{view_of, IsOrdered};

    ghost view = { λ g. view_of g.regions g.tiles g.links g.last };

    ghost invariant = { λ g. IsOrdered g.regions g.tiles g.links g.last g.firsts };
}

impl Ground {
    /// Main before its first growth.
    pub fn main(alloc: Global) -> Result<Ground, NoMemory>
        ensures { IfOk result (λ g. g.arena ≡ empty_main) }
    {
        let stride = PIECE_START - MAIN_START;
        let links = LinkWords::new(alloc, MAIN_START, stride)?;
        let firsts = LinkWords::new(alloc, MAIN_START, stride)?;
        Ok(Ground {
            tiles: TileWords::new(alloc, Addr(MAIN_START), stride),
            links,
            firsts,
            regions: Regions::main(alloc),
            last: None,
            alloc,
        })
    }

    /// All tiles, by address.
    pub fn tiles(&self, alloc: Global) -> Result<Vec<Tile>, NoMemory>
        ensures { IfOk result (λ v. v.items ≡ self.now.arena.tiles) }
    {
        self.tiles.tiles(alloc)
    }

    /// The addresses of the chunks of a bin, its front first.
    pub fn bin(&self, alloc: Global, index: u8) -> Result<Vec<Addr>, NoMemory>
        requires { index < bin_count }
        ensures { IfOk result (λ v.
            v.items ≡ map (λ (c : Piece). c.at) (bin_at self.now.arena index)) }
    {
        addresses(&self.links, alloc, index)
    }

    /// The bytes from the system (glibc's `system_mem`).
    pub fn system(&self) -> u64
        ensures { result ≡ self.now.arena.system }
    {
        self.regions.system
    }

    /// The most of these that there were (glibc's `max_system_mem`).
    pub fn most(&self) -> u64
        ensures { result ≡ self.now.arena.most }
    {
        self.regions.most
    }

    /// A law; the call does nothing. The tiles of main fill its break and its pieces, and those of another arena its heaps,
    /// of which some are closed.
    pub fn laws(&self)
        ensures main { IsPlaced self.now.arena }
        ensures heaps { is_main self.now.arena ≡ false
            → (closed : List ℕ) × IsHeapPlaced self.now.arena closed }
    {
        let _ = &self.tiles;
    }

    /// Opens the words of a range: those of links first, so that each tile's address has both.
    fn open_words(&mut self, at: u64, len: u64) -> Result<(), NoMemory>
        requires within { IsWithinPart self.old.extent at len }
        requires some { 0 < len }
        ensures room { OnOk result (AreOpen self.new.extent at len) }
        ensures full { OnErr result
            ((AreOpen self.old.extent at len → ⊥) × (AreOpen self.new.extent at len → ⊥)) }
        ensures arena { self.new.arena ≡ self.old.arena }
    {
        self.firsts.open(self.alloc, Addr(at), len)?;
        self.links.open(self.alloc, Addr(at), len)?;
        self.tiles.open(self.alloc, Addr(at), len)
    }
}

impl Moves for Ground {
    ghost plain = { λ g. g.arena };

    ghost break_room = { λ g growth. IsNewRange g.extent g.arena.break_at growth (main_start + main_limit) };

    ghost piece_room = { λ g len. IsNewRange g.extent g.arena.next_piece len (piece_start + main_limit) };

    ghost extension_room = { λ g growth. IsHeapGrowth g.extent g.arena growth };

    ghost heap_room = { λ g len. IsNewHeap g.extent g.arena len };

    fn number(&self) -> u8 {
        self.regions.number
    }

    fn join_before(&mut self, c: Chunk) -> Chunk {
        let Chunk { at, size } = c;
        match self.tiles.free_before(at) {
            None => Chunk { at, size },
            Some(t) => {
                let chunk = Tile {
                    addr: at,
                    size,
                    kind: TileKind::Used,
                };
                join(
                    &mut self.tiles,
                    &mut self.links,
                    &mut self.firsts,
                    &t,
                    &chunk,
                    t.addr,
                )
            }
        }
    }

    fn join_behind(&mut self, c: Chunk) -> Chunk {
        let Chunk { at, size } = c;
        let chunk = Tile {
            addr: at,
            size,
            kind: TileKind::Used,
        };
        let u = self.tiles.behind(&chunk);
        if is_free(&u) {
            join(
                &mut self.tiles,
                &mut self.links,
                &mut self.firsts,
                &chunk,
                &u,
                u.addr,
            )
        } else {
            Chunk { at, size }
        }
    }

    fn is_before_top(&self, c: Chunk) -> bool {
        is_top(&self.behind(c))
    }

    fn absorb(&mut self, c: Chunk) -> Size {
        self.regions.absorb(&mut self.tiles, c)
    }

    fn shelve(&mut self, c: Chunk) {
        shelve(&mut self.tiles, &mut self.links, c);
    }

    fn claim(&mut self, c: Chunk) {
        claim(&mut self.tiles, &mut self.links, &mut self.firsts, c);
    }

    fn part(&mut self, c: Chunk, nb: Size) -> Chunk {
        part(&mut self.tiles, c, nb)
    }

    fn behind(&self, c: Chunk) -> Tile {
        let Chunk { at, size } = c;
        self.tiles.behind(&Tile {
            addr: at,
            size,
            kind: TileKind::Used,
        })
    }

    fn join_used(&mut self, c: Chunk, d: Chunk) -> Chunk {
        let Chunk { at, size } = c;
        let first = Tile {
            addr: at,
            size,
            kind: TileKind::Used,
        };
        let more = d.size;
        let second = Tile {
            addr: d.at,
            size: more,
            kind: TileKind::Used,
        };
        self.tiles.fuse(&first, &second, TileKind::Used);
        let size = Size(size.0 + more.0);
        Chunk { at, size }
    }

    fn grow_into_top(&mut self, c: Chunk, nb: Size) {
        self.regions.grow_into_top(&mut self.tiles, c, nb);
    }

    fn sort_in(&mut self, c: Chunk) {
        sort_in(&self.tiles, &mut self.links, &mut self.firsts, c);
    }

    fn oldest_unsorted(&self) -> Option<Chunk> {
        oldest_in(&self.tiles, &self.links, UNSORTED)
    }

    fn has_one_unsorted(&self) -> bool {
        self.links.is_only(UNSORTED)
    }

    fn last_remainder(&self) -> Option<Addr> {
        self.last
    }

    fn set_last_remainder(&mut self, at: Addr) {
        self.last = Some(at);
    }

    fn oldest_small(&self, nb: Size) -> Option<Chunk> {
        oldest_in(&self.tiles, &self.links, small_index(nb))
    }

    fn best(&self, nb: Size) -> Option<Chunk> {
        best(&self.tiles, &self.links, &self.firsts, nb)
    }

    fn first_larger(&mut self, nb: Size) -> Option<Chunk> {
        first_oldest_from(&self.tiles, &self.links, bin_of(nb) + 1)
    }

    fn top(&self) -> Option<Tile> {
        self.regions.top(&self.tiles)
    }

    fn cut_top(&mut self, nb: Size) -> Addr {
        self.regions.cut_top(&mut self.tiles, nb)
    }

    fn is_contiguous(&self) -> bool {
        self.regions.contiguous
    }

    fn break_at(&self) -> u64 {
        self.regions.break_at
    }

    fn next_piece(&self) -> u64 {
        self.regions.next_piece
    }

    fn make_break_room(&mut self, growth: u64) -> Result<(), NoMemory> {
        let at = self.regions.break_at;
        self.open_words(at, growth)
    }

    fn take_break(&mut self, growth: u64) -> Option<Chunk> {
        self.regions.take_break(&mut self.tiles, growth)
    }

    fn make_piece_room(&mut self, len: u64) -> Result<(), NoMemory> {
        let at = self.regions.next_piece;
        self.open_words(at, len)
    }

    fn take_piece(&mut self, len: u64) -> Option<Chunk> {
        self.regions.take_piece(&mut self.tiles, len)
    }

    fn note_most(&mut self) {
        self.regions.note_most();
    }

    fn cut_main(&mut self, bytes: u64) {
        self.regions.cut_main(&mut self.tiles, bytes);
    }

    fn system(&self) -> u64 {
        self.regions.system
    }

    fn top_law(&self) {
        let _ = &self.tiles;
    }

    fn open(
        alloc: Global,
        number: u8,
        heap_max: u64,
        heaps: u16,
        len: u64,
    ) -> Result<Ground, NoMemory> {
        let mut regions = Regions::other(alloc, number, heap_max, heaps)?;
        let start = regions.heap_start(0);
        let mut firsts = LinkWords::new(alloc, start, heap_max)?;
        firsts.open(alloc, Addr(start), len)?;
        let mut links = LinkWords::new(alloc, start, heap_max)?;
        links.open(alloc, Addr(start), len)?;
        let mut tiles = TileWords::new(alloc, Addr(start), heap_max);
        tiles.open(alloc, Addr(start), len)?;
        regions.open_heap(&mut tiles, len);
        Ok(Ground {
            tiles,
            links,
            firsts,
            regions,
            last: None,
            alloc,
        })
    }

    fn heap_max(&self) -> u64 {
        self.regions.heap_max
    }

    fn heaps(&self) -> u16 {
        self.regions.heaps
    }

    fn last_heap(&self) -> u16 {
        self.regions.last_heap()
    }

    fn last_length(&self) -> u64 {
        self.regions.last_length(&self.tiles)
    }

    fn make_extension_room(&mut self, growth: u64) -> Result<(), NoMemory> {
        let heap = u64::from(self.regions.last_heap());
        let at = self.regions.heap_start(heap) + self.regions.last_length(&self.tiles);
        self.open_words(at, growth)
    }

    fn extend_heap(&mut self, growth: u64) {
        self.regions.extend_heap(&mut self.tiles, growth);
    }

    fn make_heap_room(&mut self, len: u64) -> Result<(), NoMemory> {
        let heap = u64::from(self.regions.last_heap()) + 1;
        let at = self.regions.heap_start(heap);
        self.open_words(at, len)
    }

    fn add_heap(&mut self, len: u64) -> Option<Chunk> {
        self.regions.add_heap(&mut self.tiles, len)
    }

    fn end_before(&self) -> Option<HeapEnd> {
        self.regions.end_before(&self.tiles)
    }

    fn drop_heap(&mut self, end: &HeapEnd) {
        unlink_end(&self.tiles, &mut self.links, &mut self.firsts, end);
        self.regions.drop_heap(&mut self.tiles, end);
    }

    fn shorten_heap(&mut self, bytes: u64) {
        self.regions.shorten_heap(&mut self.tiles, bytes);
    }
}
