//! Insertion into a large bin, and its best fit.

ghost use Rattle.std.specs.Prelude.{◌≡◌, ℕ, ◌<◌, ◌≤◌, List, ◌∷◌, ◌++◌, IsSome, IfSome, IfNone, map};
ghost use Rattle.std.specs.Option.{option_map};
ghost use Rattle.part_words.specs.Extents.{IsOpen, IsWider};
ghost use Rattle.ordinary_bins.specs.Lists.{bin_count, list_at, times_listed, without};
ghost use Rattle.chunk_tags.specs.Sizes.{large_index_of};
ghost use Rattle.chunk_tags.specs.Tiles.{tile_at};
ghost use Rattle.chunk_tags.specs.BinOrder.{IsFalling, inserted, best_of};
ghost use Rattle.large_bins.specs.FirstChunks.{AreFalling, AreFirsts};
ghost use Rattle.large_bins.specs.SeenChunks.{size_at, chunks_by, bins_by, large_chunks, put_large, HaveTiles};
ghost use Rattle.large_bins.specs.Places.{first_of_size, AllAbove, AllBelow, FitsLast, StopsAt};

use crate::splices::{insert_before, push_back, replace};
use chunk_image::TileWords;
use chunk_tags::{Addr, Size, large_index};
use ordinary_bins::LinkWords;

/// The bytes of a chunk.
fn size_of(tiles: &TileWords, at: Addr) -> u64
    requires { IsSome (tile_at at tiles.now.tiles) }
    ensures { result ≡ size_at tiles.now.tiles at }
{
    tiles.tile(at).size.0
}

/// Puts a free chunk into the large bin for its size: behind all greater chunks, and where its size is there already,
/// as the second of its equals (glibc's `_int_malloc`, where it places an unsorted chunk in a large bin). `firsts` has
/// the first chunk of each size of each large bin, so that a walk passes equals at once (glibc's `fd_nextsize` and
/// `bk_nextsize`).
pub fn insert(
    links: &mut LinkWords,
    firsts: &mut LinkWords,
    tiles: &TileWords,
    at: Addr,
    size: Size,
)
    requires large { 1024 ≤ size }
    requires high { bin_count ≤ at }
    requires word { IsOpen links.old.extent at }
    requires unlisted { times_listed at links.old.lists ≡ 0 }
    requires tile { size_at tiles.now.tiles at ≡ size }
    requires tiles { HaveTiles tiles.now.tiles links.old.lists }
    requires falling { IsFalling (large_chunks tiles.now.tiles size links.old.lists) }
    requires firsts { AreFirsts (bins_by (size_at tiles.now.tiles) links.old.lists)
        firsts.old.lists }
    requires wider { IsWider links.old.extent firsts.old.extent }
    ensures lists { links.new.lists
        ≡ put_large tiles.now.tiles (record { at = at; size = size }) links.old.lists }

    // the chunks of the bin, with the new one, are in order again
    ensures falling { IsFalling (inserted (record { at = at; size = size })
        (large_chunks tiles.now.tiles size links.old.lists)) }
    ensures extent { links.new.extent ≡ links.old.extent }
    ensures firsts { AreFirsts (bins_by (size_at tiles.now.tiles) links.new.lists)
        firsts.new.lists }
    ensures open { firsts.new.extent ≡ firsts.old.extent }
{
    links.laws();
    firsts.laws();
    let bin = large_index(size);
    match first_not_above(links, firsts, tiles, bin, size.0) {
        None => {
            push_back(links, bin, at);
            push_back(firsts, bin, at);
        }
        Some(first) => {
            if size_of(tiles, first) == size.0 {
                links.insert_behind(first, at);
            } else {
                insert_before(links, bin, first, at);
                insert_before(firsts, bin, first, at);
            }
        }
    }
}

/// The first chunk of a bin that isn't greater than a size. `None` where all are, which the last one tells.
fn first_not_above(
    links: &LinkWords,
    firsts: &LinkWords,
    tiles: &TileWords,
    bin: u8,
    size: u64,
) -> Option<Addr>
    requires large { 64 ≤ bin }
    requires bin { bin < bin_count }
    requires tiles { HaveTiles tiles.now.tiles links.now.lists }
    requires falling { IsFalling
        (chunks_by (size_at tiles.now.tiles) (list_at bin links.now.lists)) }
    requires firsts { AreFirsts (bins_by (size_at tiles.now.tiles) links.now.lists)
        firsts.now.lists }
    ensures none { IfNone result
        (AllAbove (size_at tiles.now.tiles) size (list_at bin links.now.lists)) }
    ensures some { IfSome result (StopsAt (size_at tiles.now.tiles) size
        (list_at bin links.now.lists) (list_at bin firsts.now.lists)) }
{
    firsts.laws();
    let last = links.last(bin)?;
    if size < size_of(tiles, last) {
        return None;
    }
    let mut next = firsts.first(bin);
    while let Some(at) = next {
        if size_of(tiles, at) <= size {
            return Some(at);
        }
        next = firsts.next(at);
    }
    None
}

/// Takes a chunk that is to leave its bin from the first chunks of their sizes. Where it is one, the chunk behind it takes its
/// place, if that has its size (glibc's `unlink_chunk`).
pub fn forget(links: &LinkWords, firsts: &mut LinkWords, tiles: &TileWords, at: Addr)
    requires listed { 1 ≤ times_listed at links.now.lists }
    requires tiles { HaveTiles tiles.now.tiles links.now.lists }
    requires falling { AreFalling (bins_by (size_at tiles.now.tiles) links.now.lists) }
    requires firsts { AreFirsts (bins_by (size_at tiles.now.tiles) links.now.lists)
        firsts.old.lists }
    requires wider { IsWider links.now.extent firsts.old.extent }
    ensures firsts { AreFirsts (bins_by (size_at tiles.now.tiles)
        (map (without at) links.now.lists)) firsts.new.lists }
    ensures open { firsts.new.extent ≡ firsts.old.extent }
{
    links.laws();
    firsts.laws();
    if firsts.is_listed(at) {
        match equal_behind(links, tiles, at) {
            None => firsts.unlink(at),
            Some(next) => replace(firsts, at, next),
        }
    }
}

/// The chunk behind another one of its bin, if it has the same size.
fn equal_behind(links: &LinkWords, tiles: &TileWords, at: Addr) -> Option<Addr>
    requires listed { 1 ≤ times_listed at links.now.lists }
    requires tiles { HaveTiles tiles.now.tiles links.now.lists }
    ensures { (bin : ℕ) (front back : List ℕ) → bin < bin_count
        → list_at bin links.now.lists ≡ front ++ at ∷ back
        → result ≡ first_of_size (size_at tiles.now.tiles) (size_at tiles.now.tiles at) back }
{
    links.laws();
    let next = links.next(at)?;
    if size_of(tiles, next) == size_of(tiles, at) {
        Some(next)
    } else {
        None
    }
}

/// The smallest chunk of the large bin for this size that is as large; of several equals the second, which leaves the
/// first where it is (glibc's `_int_malloc`, the search of the request's own large bin). `None` exactly where no chunk
/// of the bin fits.
pub fn best(links: &LinkWords, firsts: &LinkWords, tiles: &TileWords, nb: Size) -> Option<Addr>
    requires large { 1024 ≤ nb }
    requires tiles { HaveTiles tiles.now.tiles links.now.lists }
    requires falling { IsFalling (large_chunks tiles.now.tiles nb links.now.lists) }
    requires firsts { AreFirsts (bins_by (size_at tiles.now.tiles) links.now.lists)
        firsts.now.lists }
    ensures { result
        ≡ option_map (λ c. c.at) (best_of nb (large_chunks tiles.now.tiles nb links.now.lists)) }
{
    let first = last_fitting(firsts, tiles, large_index(nb), nb.0)?;
    Some(equal_behind(links, tiles, first).unwrap_or(first))
}

/// The last chunk of a bin that has this size at least.
fn last_fitting(links: &LinkWords, tiles: &TileWords, bin: u8, nb: u64) -> Option<Addr>
    requires bin { bin < bin_count }
    requires tiles { HaveTiles tiles.now.tiles links.now.lists }
    ensures none { IfNone result
        (AllBelow (size_at tiles.now.tiles) nb (list_at bin links.now.lists)) }
    ensures last { IfSome result
        (FitsLast (size_at tiles.now.tiles) nb (list_at bin links.now.lists)) }
{
    links.laws();
    let mut next = links.last(bin);
    while let Some(at) = next {
        if nb <= size_of(tiles, at) {
            return Some(at);
        }
        next = links.before(at);
    }
    None
}
