//! The arenas, each tile at the place where it is found. All arenas share one table of what is found, which has the blocks of
//! threads and trays: first the chunks of all bins go into it, then each tile is looked up once.

ghost use Rattle.std.specs.Prelude.{◌≡◌, ◌<◌, ◌≤◌, ◌^◌, length, map, fold, IfOk, OnOk};
ghost use Rattle.stats_text.specs.Totals.{AreWithinSystem, idle_bytes_of, system_bytes_of};
ghost use Rattle.world_view.specs.Places.{found_by_address, binned, bins_of, put_found};
ghost use Rattle.world_view.specs.Scenes.{arena_shown, place_in_list};
ghost use Rattle.world_view.specs.Rows.{fast_at, binned_from, arenas_from, plains_of};

use crate::places::{bins, fast_bins, put_bins, put_fast, tile_views};
use crate::table::{PlaceList, PlaceTable};
use arena_core::Arena;
use arena_ground::Ground;
use arena_rules::Moves;
use chunk_tags::{Addr, NoMemory};
use stats_text::ArenaView;
use std::alloc::Global;

/// How many arenas stand before one in the list of arenas.
fn place_in_list(list: &[u8], number: u8) -> u8
    requires { length list.now ≤ 64 }
    ensures { result ≡ place_in_list number list.now }
{
    for (place, other) in list.iter().enumerate() {
        if *other == number {
            return place as u8;
        }
    }
    list.len() as u8
}

/// Puts the chunks in the bins of the arena at an index.
#[tactic(auto, unfolding(crate::specs::Places::binned))]
fn put_binned(
    alloc: Global,
    found: &mut PlaceList,
    ground: &Ground,
    lists: &[Vec<Addr>],
    index: usize,
) -> Result<(), NoMemory>
    requires { index < 64 }
    ensures { OnOk result (found_by_address found.new ≡ fold put_found (found_by_address found.old)
        (binned (fast_at (map (λ l. l.items) lists.now) index) (bins_of ground.now.arena))) }
{
    let fast = fast_bins(alloc, lists, index)?;
    let bins = bins(alloc, ground)?;
    put_fast(found, fast.as_slice())?;
    put_bins(found, bins.as_slice())
}

/// Puts those of all arenas.
fn put_arenas(
    alloc: Global,
    found: &mut PlaceList,
    arenas: &[Arena<Ground>],
    lists: &[Vec<Addr>],
) -> Result<(), NoMemory>
    requires { length arenas.now ≤ 64 }
    ensures { OnOk result (found_by_address found.new ≡ fold put_found (found_by_address found.old)
        (binned_from (map (λ l. l.items) lists.now) 0 (plains_of arenas.now))) }
{
    for (index, arena) in arenas.iter().enumerate() {
        put_binned(alloc, found, arena.ground.as_ref(), lists, index)?;
    }
    Ok(())
}

/// The arena at an index.
#[tactic(auto, unfolding(crate::specs::Scenes::arena_shown))]
fn arena_view(
    alloc: Global,
    found: &PlaceTable,
    list: &[u8],
    ground: &Ground,
    lists: &[Vec<Addr>],
    index: usize,
) -> Result<ArenaView, NoMemory>
    requires index { index < 64 }
    requires list { length list.now ≤ 64 }
    ensures shown { IfOk result (λ a. a ≡ arena_shown (found_by_address found.now) list.now
        (fast_at (map (λ l. l.items) lists.now) index) ground.now.arena) }
    ensures idle { IfOk result (λ a. idle_bytes_of a.tiles ≤ a.system) }
    ensures fits { IfOk result (λ a. a.system ≤ 2 ^ 32) }
{
    ground.laws();
    let tiles = ground.tiles(alloc)?;
    let number = ground.number();
    Ok(ArenaView {
        number,
        system: ground.system(),
        max: ground.most(),
        list: place_in_list(list, number),
        last: ground.last_remainder(),
        tiles: tile_views(alloc, found, tiles.as_slice())?,
        fast: fast_bins(alloc, lists, index)?,
        bins: bins(alloc, ground)?,
    })
}

/// All arenas, by what is found.
fn shown_arenas(
    alloc: Global,
    found: &PlaceTable,
    list: &[u8],
    arenas: &[Arena<Ground>],
    lists: &[Vec<Addr>],
) -> Result<Vec<ArenaView>, NoMemory>
    requires arenas { length arenas.now ≤ 64 }
    requires list { length list.now ≤ 64 }
    ensures shown { IfOk result (λ v. v.items ≡ arenas_from (found_by_address found.now) list.now
        (map (λ l. l.items) lists.now) 0 (plains_of arenas.now)) }
    ensures idle { IfOk result (λ v. AreWithinSystem v.items) }
    ensures fits { IfOk result (λ v. system_bytes_of v.items ≤ 2 ^ 38) }
{
    let mut views = Vec::new(alloc);
    for (index, arena) in arenas.iter().enumerate() {
        views.push(arena_view(alloc, found, list, arena.ground.as_ref(), lists, index)?)?;
    }
    Ok(views)
}

/// All arenas, by what is found beside their bins.
pub fn arena_views(
    alloc: Global,
    mut found: PlaceList,
    list: &[u8],
    arenas: &[Arena<Ground>],
    lists: &[Vec<Addr>],
) -> Result<Vec<ArenaView>, NoMemory>
    requires arenas { length arenas.now ≤ 64 }
    requires list { length list.now ≤ 64 }
    ensures shown { IfOk result (λ v. v.items ≡ arenas_from (fold put_found (found_by_address found)
        (binned_from (map (λ l. l.items) lists.now) 0 (plains_of arenas.now)))
        list.now (map (λ l. l.items) lists.now) 0 (plains_of arenas.now)) }
    ensures idle { IfOk result (λ v. AreWithinSystem v.items) }
    ensures fits { IfOk result (λ v. system_bytes_of v.items ≤ 2 ^ 38) }
{
    put_arenas(alloc, &mut found, arenas, lists)?;
    let found = found.sorted()?;
    shown_arenas(alloc, &found, list, arenas, lists)
}
