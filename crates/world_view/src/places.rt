//! The chunks of arenas, each at the place where it is found.

ghost use Rattle.std.specs.Prelude.{◌≡◌, ◌<◌, [], map, fold, slice_index_or, IfOk, OnOk};
ghost use Rattle.stats_text.specs.Views.{lists_of};
ghost use Rattle.stats_text.specs.declared.views.Place.TheVariants as places;
ghost use Rattle.world_view.specs.Places.{found_by_address, bins_of, placed_in, put_found, place_in, shown_tiles};
ghost use Rattle.world_view.specs.Rows.{fast_at};

use crate::finds::tile;
use crate::table::{PlaceList, PlaceTable};
use arena_ground::Ground;
use chunk_tags::{Addr, NoMemory, Tile, TileKind};
use fast_bins::FAST_BINS;
use stats_text::{Place, TileView};
use std::alloc::Global;

/// How many bins an arena has beside the fast bins, with the one that isn't used.
const BINS: u8 = 127;

/// The list at an index; behind the last one an empty one.
fn list(alloc: Global, lists: &[Vec<Addr>], index: usize) -> Result<Vec<Addr>, NoMemory>
    ensures { IfOk result (λ v. v.items ≡ slice_index_or (map (λ l. l.items) lists.now) index []) }
{
    match lists.get(index) {
        None => Ok(Vec::new(alloc)),
        Some(list) => Ok(Vec::from_slice(alloc, list.as_slice())?),
    }
}

/// The ten fast bins of the arena at an index, each from the front.
#[tactic(auto, unfolding(crate::specs::Rows::fast_at))]
pub fn fast_bins(
    alloc: Global,
    lists: &[Vec<Addr>],
    index: usize,
) -> Result<Vec<(u8, Vec<Addr>)>, NoMemory>
    requires { index < 64 }
    ensures { IfOk result (λ v. lists_of v.items ≡ fast_at (map (λ l. l.items) lists.now) index) }
{
    let mut bins = Vec::new(alloc);
    for number in 0..FAST_BINS {
        let list = list(
            alloc,
            lists,
            usize::from(FAST_BINS) * index + usize::from(number),
        )?;
        bins.push((number, list))?;
    }
    Ok(bins)
}

/// The bins of an arena, each from the front.
#[tactic(auto, unfolding(crate::specs::Places::bins_of))]
pub fn bins(alloc: Global, ground: &Ground) -> Result<Vec<(u8, Vec<Addr>)>, NoMemory>
    ensures { IfOk result (λ v. lists_of v.items ≡ bins_of ground.now.arena) }
{
    let mut bins = Vec::new(alloc);
    for number in 0..BINS {
        bins.push((number, ground.bin(alloc, number)?))?;
    }
    Ok(bins)
}

/// Puts the chunks of a list at a place.
fn put_list(found: &mut PlaceList, addrs: &[Addr], place: Place) -> Result<(), NoMemory>
    ensures { OnOk result (found_by_address found.new
        ≡ fold put_found (found_by_address found.old) (map (λ addr. (addr, place)) addrs.now)) }
{
    for addr in addrs {
        found.put(*addr, place)?;
    }
    Ok(())
}

/// Puts the chunks of fast bins.
pub fn put_fast(found: &mut PlaceList, bins: &[(u8, Vec<Addr>)]) -> Result<(), NoMemory>
    ensures { OnOk result (found_by_address found.new
        ≡ fold put_found (found_by_address found.old) (placed_in places.Fast (lists_of bins.now))) }
{
    for bin in bins {
        put_list(found, bin.1.as_slice(), Place::Fast { bin: bin.0 })?;
    }
    Ok(())
}

/// Puts the chunks of other bins.
pub fn put_bins(found: &mut PlaceList, bins: &[(u8, Vec<Addr>)]) -> Result<(), NoMemory>
    ensures { OnOk result (found_by_address found.new
        ≡ fold put_found (found_by_address found.old) (placed_in places.Bin (lists_of bins.now))) }
{
    for bin in bins {
        put_list(found, bin.1.as_slice(), Place::Bin { bin: bin.0 })?;
    }
    Ok(())
}

/// Where a tile of an arena is.
fn place(found: &PlaceTable, t: &Tile, next: &mut usize) -> Option<Place>
    ensures { result ≡ place_in (found_by_address found.now) t.now }
{
    match t.kind {
        TileKind::Used | TileKind::Free => found.at(t.addr, next),
        TileKind::Top => Some(Place::Top),
        TileKind::Fence => Some(Place::Fence),
    }
}

/// The tiles of an arena, as they are shown.
pub fn tile_views(
    alloc: Global,
    found: &PlaceTable,
    tiles: &[Tile],
) -> Result<Vec<TileView>, NoMemory>
    ensures { IfOk result (λ v. v.items ≡ shown_tiles (found_by_address found.now) tiles.now) }
{
    let mut views = Vec::with_capacity(alloc, tiles.len())?;
    let mut next = 0;
    for t in tiles {
        if let Some(place) = place(found, t, &mut next) {
            views.push(tile(t.addr, t.size, 0, place))?;
        }
    }
    Ok(views)
}
