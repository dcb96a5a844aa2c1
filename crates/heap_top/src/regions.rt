//! The regions that all arenas have, and main's.

ghost use Rattle.std.specs.Prelude.{◌≡◌, ℕ, ◌+◌, ◌-◌, ◌^◌, ◌<◌, ◌≤◌, List, [], Option, Some, None, IsTrue, IfSome, if◌then◌else◌, nat_lt};
ghost use Rattle.chunk_tags.specs.Sizes.{IsChunkSize};
ghost use Rattle.chunk_tags.specs.Tiles.{Row, swapped, tile_at, tile_behind, top_of};
ghost use Rattle.chunk_tags.specs.declared.tiles.Chunk.{Chunk as Piece};
ghost use Rattle.chunk_tags.specs.declared.tiles.Tile.{Tile as Square};
ghost use Rattle.chunk_tags.specs.Tunables.{main_limit};
ghost use Rattle.address_space.specs.Spaces.{main_start, piece_start};
ghost use Rattle.chunk_image.specs.Rows.{IsRoom, IsWordSize};
ghost use Rattle.arena_rules.specs.PlainArena.{Plain, empty_bins, empty_main, tiled_bytes};
ghost use Rattle.arena_rules.specs.MainPlaces.{times_covered, IsMainPlaced};
ghost use Rattle.arena_rules.specs.Moves.{tile_of, absorbed, closed_top, cut_from_top, left_of_closed, left_of_top, top_end, top_size, top_start, with_moved_top, with_top_size};
ghost use Rattle.arena_rules.specs.Growth.{is_top_at_break, break_taken, break_rest, has_top_for, noted, piece_taken};
ghost use Rattle.arena_rules.specs.Trim.{main_cut, CanCutMain};
ghost use Rattle.arena_rules.specs.Resize.{grown_into_top};
ghost use Rattle.heap_top.specs.Regions.{arena_of, bare_arena, closed_tiles, KnowsTop, HasTop};
ghost use Rattle.heap_top.specs.MainRanges.{IsNewRange};

use address_space::{MAIN_START, PIECE_START};
use chunk_image::TileWords;
use chunk_tags::{Addr, Chunk, Size, Tile, TileKind};
use std::alloc::Global;

/// The numbers of an arena's regions (fields of glibc's `malloc_state`, `mp_` and `heap_info`).
#[derive(Debug, Drop)]
pub struct Regions {
    /// The arena's number; main is 0.
    pub number: u8,
    /// The length of its heaps' windows, in bytes; 0 for main.
    pub heap_max: u64,
    /// How many heaps there may be; 0 for main.
    pub heaps: u16,
    /// The lengths of the heaps before the last one, in bytes.
    pub closed: Vec<u64>,
    /// Where top is, where there is one (glibc's `top`).
    pub top: Option<Addr>,
    /// Whether main's chunks have been side by side so far (glibc's `contiguous`).
    pub contiguous: bool,
    /// The end of main's break.
    pub break_at: u64,
    /// The place of main's next piece.
    pub next_piece: u64,
    /// The bytes from the system (glibc's `system_mem`).
    pub system: u64,
    /// The most of these that there were (glibc's `max_system_mem`).
    pub most: u64,
}

impl Regions {
    /// Main before its first growth.
    pub fn main(alloc: Global) -> Regions
        ensures arena { arena_of result [] empty_bins None ≡ empty_main }
        ensures top { result.top ≡ None }
        ensures closed { result.closed.items ≡ [] }
    {
        Regions {
            number: 0,
            heap_max: 0,
            heaps: 0,
            closed: Vec::new(alloc),
            top: None,
            contiguous: true,
            break_at: MAIN_START,
            next_piece: PIECE_START,
            system: 0,
            most: 0,
        }
    }

    /// Top, where there is one.
    pub fn top(&self, tiles: &TileWords) -> Option<Tile>
        requires { KnowsTop self.now.top tiles.now.tiles }
        ensures top { result ≡ top_of tiles.now.tiles }
        ensures room { IfSome result (λ t. IsRoom tiles.now.extent t.addr t.size) }
        ensures fits { IfSome result (λ t. IsWordSize t.size) }
    {
        match self.top {
            None => None,
            Some(at) => Some(tiles.tile(at)),
        }
    }

    /// Cuts a chunk of `nb` bytes off the front of top, which keeps at least 32, and gives its address.
    pub fn cut_top(&mut self, tiles: &mut TileWords, nb: Size) -> Addr
        requires known { KnowsTop self.old.top tiles.old.tiles }
        requires chunk { IsChunkSize nb }
        requires room { IsTrue (has_top_for (bare_arena self.old tiles.old.tiles) nb) }
        ensures at { result ≡ top_start (bare_arena self.old tiles.old.tiles) }
        ensures top { HasTop self.new.top tiles.new.tiles }
        ensures closed { self.new.closed ≡ self.old.closed }
        ensures arena { (bins : List (List Piece)) (last : Option ℕ)
            → arena_of self.new tiles.new.tiles bins last
            ≡ cut_from_top (arena_of self.old tiles.old.tiles bins last) nb }
        ensures extent { tiles.new.extent ≡ tiles.old.extent }
    {
        match self.top(tiles) {
            None => Addr(0),
            Some(top) => {
                tiles.split(&top, nb, TileKind::Used, TileKind::Top);
                self.top = Some(Addr(top.addr.0 + nb.0));
                top.addr
            }
        }
    }

    /// Makes a used chunk before top part of it, and gives top's size (a step of glibc's `_int_free`).
    pub fn absorb(&mut self, tiles: &mut TileWords, c: Chunk) -> Size
        requires row { Row tiles.old.tiles }
        requires chunk { tile_at c.at tiles.old.tiles ≡ Some (tile_of TileKind.Used c.at c.size) }
        requires top { tile_behind c.at tiles.old.tiles ≡ top_of tiles.old.tiles }
        requires below { tiled_bytes (bare_arena self.old tiles.old.tiles) < 2 ^ 34 }
        ensures size { result ≡ c.size + top_size (bare_arena self.old tiles.old.tiles) }
        ensures top { HasTop self.new.top tiles.new.tiles }
        ensures closed { self.new.closed ≡ self.old.closed }
        ensures arena { (bins : List (List Piece)) (last : Option ℕ)
            → arena_of self.new tiles.new.tiles bins last
            ≡ absorbed (arena_of self.old tiles.old.tiles bins last) c }
        ensures extent { tiles.new.extent ≡ tiles.old.extent }
    {
        let Chunk { at, size } = c;
        let chunk = Tile {
            addr: at,
            size,
            kind: TileKind::Used,
        };
        let top = tiles.behind(&chunk);
        tiles.fuse(&chunk, &top, TileKind::Top);
        self.top = Some(at);
        tiles.tile(at).size
    }

    /// Grows a used chunk into the top behind it, to exactly `nb` bytes; top keeps at least 32 (a step of glibc's
    /// `_int_realloc`).
    pub fn grow_into_top(&mut self, tiles: &mut TileWords, c: Chunk, nb: Size)
        requires row { Row tiles.old.tiles }
        requires chunk { tile_at c.at tiles.old.tiles ≡ Some (tile_of TileKind.Used c.at c.size) }
        requires top { tile_behind c.at tiles.old.tiles ≡ top_of tiles.old.tiles }
        requires below { tiled_bytes (bare_arena self.old tiles.old.tiles) < 2 ^ 34 }
        requires size { IsChunkSize nb }
        requires room { nb + 32 ≤ c.size + top_size (bare_arena self.old tiles.old.tiles) }
        ensures top { HasTop self.new.top tiles.new.tiles }
        ensures closed { self.new.closed ≡ self.old.closed }
        ensures arena { (bins : List (List Piece)) (last : Option ℕ)
            → arena_of self.new tiles.new.tiles bins last
            ≡ grown_into_top (arena_of self.old tiles.old.tiles bins last) c nb }
        ensures extent { tiles.new.extent ≡ tiles.old.extent }
    {
        let Chunk { at, size } = c;
        let chunk = Tile {
            addr: at,
            size,
            kind: TileKind::Used,
        };
        let top = tiles.behind(&chunk);
        self.top = Some(tiles.shift_border(&chunk, &top, nb));
    }

    /// Takes a growth of the break, which was granted: top grows where it ends there, and else moves there. Gives what is
    /// to be released of an old top (glibc's `sysmalloc` with its `brk`).
    pub fn take_break(&mut self, tiles: &mut TileWords, growth: u64) -> Option<Chunk>
        requires known { KnowsTop self.old.top tiles.old.tiles }
        requires main { IsMainPlaced (bare_arena self.old tiles.old.tiles) }
        requires range { IsNewRange tiles.old.extent self.old.break_at growth
            (main_start + main_limit) }
        ensures rest { result ≡ break_rest (bare_arena self.old tiles.old.tiles) }
        ensures top { HasTop self.new.top tiles.new.tiles }
        ensures closed { self.new.closed ≡ self.old.closed }
        ensures arena { (bins : List (List Piece)) (last : Option ℕ)
            → arena_of self.new tiles.new.tiles bins last
            ≡ break_taken (arena_of self.old tiles.old.tiles bins last) growth }
        ensures extent { tiles.new.extent ≡ tiles.old.extent }
    {
        let at = self.break_at;
        let extends = self.is_top_at_break(tiles);
        self.break_at += growth;
        self.system += growth;
        if extends {
            self.extend_top(tiles, growth);
            None
        } else {
            self.move_top(tiles, at, growth)
        }
    }

    /// Takes a piece, which was granted, as top, and gives what is to be released of an old one (glibc's `sysmalloc` with
    /// its `mmap`).
    pub fn take_piece(&mut self, tiles: &mut TileWords, len: u64) -> Option<Chunk>
        requires known { KnowsTop self.old.top tiles.old.tiles }
        requires main { IsMainPlaced (bare_arena self.old tiles.old.tiles) }
        requires range { IsNewRange tiles.old.extent self.old.next_piece len
            (piece_start + main_limit) }
        ensures rest { result ≡ left_of_top (bare_arena self.old tiles.old.tiles) }
        ensures top { HasTop self.new.top tiles.new.tiles }
        ensures closed { self.new.closed ≡ self.old.closed }
        ensures arena { (bins : List (List Piece)) (last : Option ℕ)
            → arena_of self.new tiles.new.tiles bins last
            ≡ piece_taken (arena_of self.old tiles.old.tiles bins last) len }
        ensures extent { tiles.new.extent ≡ tiles.old.extent }
    {
        let at = self.next_piece;
        self.contiguous = false;
        self.next_piece += len;
        self.system += len;
        self.move_top(tiles, at, len)
    }

    /// Takes so many bytes off the end of top and of main's break (glibc's `systrim`).
    pub fn cut_main(&mut self, tiles: &mut TileWords, bytes: u64)
        requires known { KnowsTop self.old.top tiles.old.tiles }
        requires main { IsMainPlaced (bare_arena self.old tiles.old.tiles) }
        requires spare { CanCutMain (bare_arena self.old tiles.old.tiles) bytes }
        ensures top { HasTop self.new.top tiles.new.tiles }
        ensures closed { self.new.closed ≡ self.old.closed }
        ensures arena { (bins : List (List Piece)) (last : Option ℕ)
            → arena_of self.new tiles.new.tiles bins last
            ≡ main_cut (arena_of self.old tiles.old.tiles bins last) bytes }
        ensures extent { tiles.new.extent ≡ tiles.old.extent }
    {
        match self.top(tiles) {
            None => (),
            Some(top) => {
                tiles.set_size(&top, Size(top.size.0 - bytes));
                self.break_at -= bytes;
                self.system -= bytes;
            }
        }
    }

    /// Raises the most bytes that there were to those that there are.
    pub fn note_most(&mut self)
        ensures top { self.new.top ≡ self.old.top }
        ensures closed { self.new.closed ≡ self.old.closed }
        ensures arena { (tiles : List Square) (bins : List (List Piece)) (last : Option ℕ)
            → arena_of self.new tiles bins last ≡ noted (arena_of self.old tiles bins last) }
    {
        if self.most < self.system {
            self.most = self.system;
        }
    }

    /// Whether top ends at the break.
    fn is_top_at_break(&self, tiles: &TileWords) -> bool
        requires { KnowsTop self.now.top tiles.now.tiles }
        ensures { result ≡ is_top_at_break (bare_arena self.now tiles.now.tiles) }
    {
        match self.top(tiles) {
            None => 0 == self.break_at,
            Some(top) => top.addr.0 + top.size.0 == self.break_at,
        }
    }

    /// Makes top longer.
    pub(crate) fn extend_top(&self, tiles: &mut TileWords, growth: u64)
        requires known { KnowsTop self.now.top tiles.old.tiles }
        requires top { 0 < top_end (bare_arena self.now tiles.old.tiles) }
        requires room { IsRoom tiles.old.extent
            (top_end (bare_arena self.now tiles.old.tiles)) growth }
        requires fits { IsWordSize (top_size (bare_arena self.now tiles.old.tiles) + growth) }
        ensures top { HasTop self.now.top tiles.new.tiles }
        ensures arena { (a : Plain) → a.tiles ≡ tiles.old.tiles
            → record a { tiles = tiles.new.tiles } ≡ with_top_size a (top_size a + growth) }
        ensures extent { tiles.new.extent ≡ tiles.old.extent }
    {
        match self.top(tiles) {
            None => (),
            Some(top) => tiles.set_size(&top, Size(top.size.0 + growth)),
        }
    }

    /// Makes a new range top, closes the one that is left, and gives what is to be released of it.
    pub(crate) fn move_top(&mut self, tiles: &mut TileWords, at: u64, size: u64) -> Option<Chunk>
        requires known { KnowsTop self.old.top tiles.old.tiles }
        requires free { times_covered at (bare_arena self.old tiles.old.tiles) ≡ 0 }
        requires some { 0 < size }
        requires room { IsRoom tiles.old.extent at size }
        requires fits { IsWordSize size }
        ensures rest { result ≡ left_of_top (bare_arena self.old tiles.old.tiles) }
        ensures top { HasTop self.new.top tiles.new.tiles }
        ensures closed { self.new.closed ≡ self.old.closed }
        ensures arena { (bins : List (List Piece)) (last : Option ℕ)
            → arena_of self.new tiles.new.tiles bins last
            ≡ with_moved_top (arena_of self.old tiles.old.tiles bins last) at size }
        ensures extent { tiles.new.extent ≡ tiles.old.extent }
    {
        let rest = self.close_top(tiles);
        let addr = Addr(at);
        tiles.enter(&Tile {
            addr,
            size: Size(size),
            kind: TileKind::Top,
        });
        self.top = Some(addr);
        rest
    }

    /// Closes the top that is left: its end becomes a fence, and what is before that a used chunk, which is to be released.
    fn close_top(&self, tiles: &mut TileWords) -> Option<Chunk>
        requires { KnowsTop self.now.top tiles.old.tiles }
        ensures tiles { tiles.new ≡ record tiles.old { tiles = closed_tiles tiles.old.tiles } }
        ensures rest { result ≡ left_of_top (bare_arena self.now tiles.old.tiles) }
    {
        match self.top(tiles) {
            None => None,
            Some(top) => close(tiles, &top),
        }
    }
}

/// Closes a tile that is top.
fn close(tiles: &mut TileWords, top: &Tile) -> Option<Chunk>
    requires row { Row tiles.old.tiles }
    requires top { top_of tiles.old.tiles ≡ Some top.now }
    ensures tiles { tiles.new
        ≡ record tiles.old { tiles = swapped top.now.addr (closed_top top.now) tiles.old.tiles } }
    ensures rest { result ≡ left_of_closed top.now }
{
    if top.size.0 < 64 {
        tiles.set_kind(top, TileKind::Fence);
        return None;
    }
    let size = Size(top.size.0 - 32);
    tiles.split(top, size, TileKind::Used, TileKind::Fence);
    Some(Chunk { at: top.addr, size })
}
