//! Steps over tiles and links together.

ghost use Rattle.std.specs.Prelude.{◌≡◌, ◌+◌, ◌-◌, ◌^◌, ◌<◌, ◌≤◌, false, drop, map, [], ◌∷◌, Some, IsSome, IfOk};
ghost use Rattle.chunk_tags.specs.BinOrder.{IsFalling, best_of, oldest_of};
ghost use Rattle.chunk_tags.specs.declared.tiles.Chunk.{Chunk as Piece};
ghost use Rattle.chunk_tags.specs.declared.tiles.Tile.{Tile as Square};
ghost use Rattle.chunk_tags.specs.Sizes.{IsChunkSize, bin_of as bin_index};
ghost use Rattle.chunk_tags.specs.Tiles.{Row, is_edge, is_free as is_free_tile, is_top as is_top_tile, fused, swapped, tile_at, tile_behind};
ghost use Rattle.part_words.specs.Extents.{IsWider};
ghost use Rattle.ordinary_bins.specs.Lists.{bin_count, list_at, put_front, times_in, times_listed, without};
ghost use Rattle.large_bins.specs.FirstChunks.{AreFalling};
ghost use Rattle.large_bins.specs.SeenChunks.{large_chunks, HaveTiles};
ghost use Rattle.arena_rules.specs.Moves.{tile_of};
ghost use Rattle.heap_top.specs.Regions.{address_of};
ghost use Rattle.arena_ground.specs.Grounds.{bins_at, tile_chunk, chunks_at, sorted_lists, lists_without, HaveFirsts};
ghost use Rattle.arena_rules.specs.Search.{first_oldest};

use arena_rules::HeapEnd;
use chunk_image::TileWords;
use chunk_tags::{Addr, Chunk, NoMemory, Size, Tile, TileKind, is_small, large_index, small_index};
use large_bins::forget;
use ordinary_bins::LinkWords;
use std::alloc::Global;

/// The bin of unsorted chunks (glibc's `unsorted_chunks`).
pub(crate) const UNSORTED: u8 = 1;

/// The bin of a size.
pub(crate) fn bin_of(size: Size) -> u8
    ensures { result ≡ bin_index size }
{
    if is_small(size) {
        small_index(size)
    } else {
        large_index(size)
    }
}

/// Whether a tile is free.
pub(crate) fn is_free(t: &Tile) -> bool
    ensures { result ≡ is_free_tile t.now }
{
    t.kind == TileKind::Free
}

/// Whether a tile is top.
pub(crate) fn is_top(t: &Tile) -> bool
    ensures { result ≡ is_top_tile t.now }
{
    t.kind == TileKind::Top
}

/// The chunk at an address.
pub(crate) fn chunk_of(tiles: &TileWords, at: Addr) -> Chunk
    requires { IsSome (tile_at at tiles.now.tiles) }
    ensures { result ≡ tile_chunk tiles.now.tiles at }
{
    Chunk {
        at,
        size: tiles.tile(at).size,
    }
}

/// The chunk that has been in a bin longest.
pub(crate) fn oldest_in(tiles: &TileWords, links: &LinkWords, bin: u8) -> Option<Chunk>
    requires bin { bin < bin_count }
    requires tiles { HaveTiles tiles.now.tiles links.now.lists }
    ensures { result ≡ oldest_of (chunks_at tiles.now.tiles (list_at bin links.now.lists)) }
{
    match links.last(bin) {
        None => None,
        Some(at) => Some(chunk_of(tiles, at)),
    }
}

/// A chunk and the tile behind it become one used chunk. The one of them that is free leaves its bin.
pub(crate) fn join(
    tiles: &mut TileWords,
    links: &mut LinkWords,
    firsts: &mut LinkWords,
    t: &Tile,
    u: &Tile,
    free: Addr,
) -> Chunk
    requires row { Row tiles.old.tiles }
    requires tile { tile_at t.now.addr tiles.old.tiles ≡ Some t.now }
    requires chunk { is_edge t.now ≡ false }
    requires behind { tile_behind t.now.addr tiles.old.tiles ≡ Some u.now }
    requires listed { 1 ≤ times_listed free links.old.lists }
    requires tiles { HaveTiles tiles.old.tiles links.old.lists }
    requires falling { AreFalling (bins_at tiles.old.tiles links.old.lists) }
    requires firsts { HaveFirsts (bins_at tiles.old.tiles links.old.lists) links.old.extent firsts.old }
    requires below { t.now.size + u.now.size < 2 ^ 34 }
    ensures chunk { result ≡ record { at = t.now.addr; size = t.now.size + u.now.size } }
    ensures tiles { tiles.new ≡ record tiles.old {
      tiles = fused t.now.addr
          (tile_of TileKind.Used t.now.addr (t.now.size + u.now.size)) tiles.old.tiles;
    } }
    ensures lists { links.new.lists ≡ map (without free) links.old.lists }
    ensures extent { links.new.extent ≡ links.old.extent }
    ensures firsts { HaveFirsts (bins_at tiles.old.tiles links.new.lists) links.new.extent firsts.new }
{
    forget(links, firsts, tiles, free);
    links.unlink(free);
    tiles.fuse(t, u, TileKind::Used);
    chunk_of(tiles, t.addr)
}

/// A free chunk leaves its bin and is used.
pub(crate) fn claim(tiles: &mut TileWords, links: &mut LinkWords, firsts: &mut LinkWords, c: Chunk)
    requires row { Row tiles.old.tiles }
    requires tile { tile_at c.at tiles.old.tiles ≡ Some (tile_of TileKind.Free c.at c.size) }
    requires listed { 1 ≤ times_listed c.at links.old.lists }
    requires tiles { HaveTiles tiles.old.tiles links.old.lists }
    requires falling { AreFalling (bins_at tiles.old.tiles links.old.lists) }
    requires firsts { HaveFirsts (bins_at tiles.old.tiles links.old.lists) links.old.extent firsts.old }
    ensures tiles { tiles.new ≡ record tiles.old {
      tiles = swapped c.at (tile_of TileKind.Used c.at c.size ∷ []) tiles.old.tiles;
    } }
    ensures lists { links.new.lists ≡ map (without c.at) links.old.lists }
    ensures extent { links.new.extent ≡ links.old.extent }
    ensures firsts { HaveFirsts (bins_at tiles.old.tiles links.new.lists) links.new.extent firsts.new }
{
    let Chunk { at, size } = c;
    forget(links, firsts, tiles, at);
    links.unlink(at);
    tiles.set_kind(
        &Tile {
            addr: at,
            size,
            kind: TileKind::Free,
        },
        TileKind::Used,
    );
}

/// The free chunk at the end of a heap leaves its bin.
pub(crate) fn unlink_end(
    tiles: &TileWords,
    links: &mut LinkWords,
    firsts: &mut LinkWords,
    end: &HeapEnd,
)
    requires listed { (u : Square) → end.now.before ≡ Some u
        → 1 ≤ times_listed u.addr links.old.lists }
    requires tiles { HaveTiles tiles.now.tiles links.old.lists }
    requires falling { AreFalling (bins_at tiles.now.tiles links.old.lists) }
    requires firsts { HaveFirsts (bins_at tiles.now.tiles links.old.lists) links.old.extent firsts.old }
    ensures lists { links.new.lists ≡ lists_without (address_of end.now.before) links.old.lists }
    ensures extent { links.new.extent ≡ links.old.extent }
    ensures firsts { HaveFirsts (bins_at tiles.now.tiles links.new.lists) links.new.extent firsts.new }
{
    match end.before {
        None => (),
        Some(chunk) => {
            forget(links, firsts, tiles, chunk.addr);
            links.unlink(chunk.addr);
        }
    }
}

/// A used chunk is free, in front of unsorted.
pub(crate) fn shelve(tiles: &mut TileWords, links: &mut LinkWords, c: Chunk)
    requires row { Row tiles.old.tiles }
    requires tile { tile_at c.at tiles.old.tiles ≡ Some (tile_of TileKind.Used c.at c.size) }
    requires covers { IsWider tiles.old.extent links.old.extent }
    requires high { bin_count ≤ c.at }
    requires unlisted { times_listed c.at links.old.lists ≡ 0 }
    ensures tiles { tiles.new ≡ record tiles.old {
      tiles = swapped c.at (tile_of TileKind.Free c.at c.size ∷ []) tiles.old.tiles;
    } }
    ensures lists { links.new.lists ≡ put_front 1 c.at links.old.lists }
    ensures extent { links.new.extent ≡ links.old.extent }
{
    let at = c.at;
    let t = tiles.tile(at);
    links.push_front(UNSORTED, at);
    tiles.set_kind(&t, TileKind::Free);
}

/// A used chunk becomes two, the first of `nb` bytes; gives the second.
pub(crate) fn part(tiles: &mut TileWords, c: Chunk, nb: Size) -> Chunk
    requires row { Row tiles.old.tiles }
    requires tile { tile_at c.at tiles.old.tiles ≡ Some (tile_of TileKind.Used c.at c.size) }
    requires first { IsChunkSize nb }
    requires rest { IsChunkSize (c.size - nb) }
    ensures rest { result ≡ record { at = c.at + nb; size = c.size - nb } }
    ensures tiles { tiles.new ≡ record tiles.old {
      tiles = swapped c.at
          (tile_of TileKind.Used c.at nb ∷ tile_of TileKind.Used (c.at + nb) (c.size - nb) ∷ [])
          tiles.old.tiles;
    } }
{
    let t = tiles.tile(c.at);
    tiles.split(&t, nb, TileKind::Used, TileKind::Used);
    Chunk {
        at: Addr(t.addr.0 + nb.0),
        size: Size(t.size.0 - nb.0),
    }
}

/// A free chunk leaves its bin and goes to that of its size (as the scan of glibc's `_int_malloc` does).
pub(crate) fn sort_in(tiles: &TileWords, links: &mut LinkWords, firsts: &mut LinkWords, c: Chunk)
    requires row { Row tiles.now.tiles }
    requires tile { tile_at c.at tiles.now.tiles ≡ Some (tile_of TileKind.Free c.at c.size) }
    requires covers { IsWider tiles.now.extent links.old.extent }
    requires high { bin_count ≤ c.at }
    requires unsorted { 1 ≤ times_in c.at (list_at 1 links.old.lists) }
    requires tiles { HaveTiles tiles.now.tiles links.old.lists }
    requires firsts { HaveFirsts (bins_at tiles.now.tiles links.old.lists) links.old.extent firsts.old }
    requires falling { 1024 ≤ c.size → IsFalling
        (large_chunks tiles.now.tiles c.size (map (without c.at) links.old.lists)) }
    ensures lists { links.new.lists ≡ sorted_lists tiles.now.tiles c links.old.lists }
    ensures extent { links.new.extent ≡ links.old.extent }
    ensures firsts { HaveFirsts (bins_at tiles.now.tiles links.new.lists) links.new.extent firsts.new }
{
    links.laws();
    let t = tiles.tile(c.at);
    links.unlink(t.addr);
    if is_small(t.size) {
        links.push_front(small_index(t.size), t.addr);
    } else {
        large_bins::insert(links, firsts, tiles, t.addr, t.size);
    }
}

/// The smallest chunk of the large bin for a size that fits; of several equals the second.
pub(crate) fn best(
    tiles: &TileWords,
    links: &LinkWords,
    firsts: &LinkWords,
    nb: Size,
) -> Option<Chunk>
    requires large { 1024 ≤ nb }
    requires tiles { HaveTiles tiles.now.tiles links.now.lists }
    requires falling { IsFalling (large_chunks tiles.now.tiles nb links.now.lists) }
    requires firsts { HaveFirsts (bins_at tiles.now.tiles links.now.lists) links.now.extent firsts.now }
    requires free { (c : Piece) →
        best_of nb (large_chunks tiles.now.tiles nb links.now.lists) ≡ Some c
        → tile_at c.at tiles.now.tiles ≡ Some (tile_of TileKind.Free c.at c.size) }
    ensures { result ≡ best_of nb (large_chunks tiles.now.tiles nb links.now.lists) }
{
    match large_bins::best(links, firsts, tiles, nb) {
        None => None,
        Some(at) => Some(chunk_of(tiles, at)),
    }
}

/// The last chunk of the first bin from an index on that isn't empty.
pub(crate) fn first_oldest_from(tiles: &TileWords, links: &LinkWords, bin: u8) -> Option<Chunk>
    requires bin { bin ≤ bin_count }
    requires tiles { HaveTiles tiles.now.tiles links.now.lists }
    ensures { result ≡ first_oldest (drop bin (bins_at tiles.now.tiles links.now.lists)) }
{
    links.laws();
    match links.first_filled(bin) {
        None => None,
        Some(found) => oldest_in(tiles, links, found),
    }
}

/// The addresses of a bin, its front first.
pub(crate) fn addresses(links: &LinkWords, alloc: Global, bin: u8) -> Result<Vec<Addr>, NoMemory>
    requires { bin < bin_count }
    ensures { IfOk result (λ v. v.items ≡ list_at bin links.now.lists) }
{
    let mut found = Vec::new(alloc);
    let mut next = links.first(bin);
    while let Some(at) = next {
        found.push(at)?;
        next = links.next(at);
    }
    Ok(found)
}
