//! The blocks of threads and trays, each seen at the place where it is found.

ghost use Rattle.std.specs.Prelude.{◌≡◌, ◌≤◌, length, map, fold, IfOk, OnOk};
ghost use Rattle.std.specs.Map.{values_of};
ghost use Rattle.thread_cache.specs.Caches.{cached_tiles, structure_of};
ghost use Rattle.malloc_calls.specs.Threads.{own_of, names_of};
ghost use Rattle.world_view.specs.Places.{view_of_tile, block_find, named_from, far_finds, cached_find, structure_finds, thread_finds, threads_finds, tray_find, finds_of, finds_found, found_by_address, mapped_finds, by_address};
ghost use Rattle.world_view.specs.Sights.{seen_in, put_seen};

use crate::sights::Sights;
use address_space::Kernel;
use chunk_tags::{Addr, Block, NoMemory, Size};
use malloc_calls::Thread;
use stats_text::{Place, TileView};
use std::alloc::Global;

/// A chunk at the place where it is found.
#[derive(Clone, Copy, Debug, PartialEq, Eq)]
pub struct Find {
    pub tile: TileView,
    /// It lies in a mapping of its own.
    pub mapped: bool,
}

/// A chunk at a place.
pub fn tile(addr: Addr, size: Size, lead: u64, place: Place) -> TileView
    ensures { result ≡ view_of_tile addr size lead place }
{
    TileView {
        addr,
        size,
        lead,
        place,
    }
}

/// A block at a place.
fn block_at_place(block: &Block, place: Place) -> Find
    ensures { result ≡ block_find place block.now }
{
    Find {
        tile: tile(block.addr, block.size, block.lead, place),
        mapped: block.arena.is_none(),
    }
}

/// Sees the blocks of a thread that are in the row.
fn see_row<K: Kernel>(sights: &mut Sights, number: u8, thread: &Thread<K>) -> Result<(), NoMemory>
    ensures { OnOk result (seen_in sights.new
        ≡ fold put_seen (seen_in sights.old) (named_from number 0 (names_of thread.now).near)) }
{
    for name in 0..thread.row() {
        if let Some(block) = thread.in_row(name) {
            let place = Place::Live {
                thread: number,
                name,
            };
            sights.put(&block_at_place(&block, place))?;
        }
    }
    Ok(())
}

/// Sees those whose names have places of their own.
#[tactic(auto, using(crate::proofs::FarFinds::seen_by_name))]
fn see_far<K: Kernel>(sights: &mut Sights, number: u8, thread: &Thread<K>) -> Result<(), NoMemory>
    ensures { OnOk result (seen_in sights.new
        ≡ fold put_seen (seen_in sights.old) (far_finds number (names_of thread.now).far)) }
{
    for name in thread.far().names() {
        if let Some(block) = thread.far().get(*name) {
            let place = Place::Live {
                thread: number,
                name: *name,
            };
            sights.put(&block_at_place(&block, place))?;
        }
    }
    Ok(())
}

/// Sees the chunks of a thread's cache.
fn see_cached<K: Kernel>(
    alloc: Global,
    sights: &mut Sights,
    number: u8,
    thread: &Thread<K>,
) -> Result<(), NoMemory>
    ensures { OnOk result (seen_in sights.new
        ≡ fold put_seen (seen_in sights.old)
        (map (cached_find number) (cached_tiles (own_of thread.now).cache))) }
{
    let cached = thread.cache().tiles(alloc)?;
    for chunk in &cached {
        let place = Place::Cache { thread: number };
        sights.put(&Find {
            tile: tile(chunk.addr, chunk.size, 0, place),
            mapped: false,
        })?;
    }
    Ok(())
}

/// Sees the chunk of an open cache's structure.
fn see_structure<K: Kernel>(
    sights: &mut Sights,
    number: u8,
    thread: &Thread<K>,
) -> Result<(), NoMemory>
    ensures { OnOk result (seen_in sights.new
        ≡ fold put_seen (seen_in sights.old)
        (structure_finds number (structure_of (own_of thread.now).cache))) }
{
    if let Some(block) = thread.cache().structure() {
        let place = Place::Structure { thread: number };
        sights.put(&block_at_place(block, place))?;
    }
    Ok(())
}

/// Sees all blocks of a thread.
#[tactic(auto, unfolding(crate::specs::Places::thread_finds))]
fn see_thread<K: Kernel>(
    alloc: Global,
    sights: &mut Sights,
    number: u8,
    thread: &Thread<K>,
) -> Result<(), NoMemory>
    ensures { OnOk result (seen_in sights.new
        ≡ fold put_seen (seen_in sights.old) (thread_finds number (own_of thread.now))) }
{
    see_row(sights, number, thread)?;
    see_far(sights, number, thread)?;
    see_cached(alloc, sights, number, thread)?;
    see_structure(sights, number, thread)
}

/// Sees those of all threads.
fn see_threads<K: Kernel>(
    alloc: Global,
    sights: &mut Sights,
    threads: &[Thread<K>],
) -> Result<(), NoMemory>
    requires { length threads.now ≤ 64 }
    ensures { OnOk result (seen_in sights.new
        ≡ fold put_seen (seen_in sights.old) (threads_finds 0 (map own_of threads.now))) }
{
    for (number, thread) in threads.iter().enumerate() {
        see_thread(alloc, sights, number as u8, thread)?;
    }
    Ok(())
}

/// Sees the blocks in trays.
fn see_trays(sights: &mut Sights, trays: &[(u32, Block)]) -> Result<(), NoMemory>
    ensures { OnOk result (seen_in sights.new
        ≡ fold put_seen (seen_in sights.old) (map tray_find trays.now)) }
{
    for tray in trays {
        let place = Place::Tray { tray: tray.0 };
        sights.put(&block_at_place(&tray.1, place))?;
    }
    Ok(())
}

/// The blocks of all threads and of all full trays.
pub fn sights<K: Kernel>(
    alloc: Global,
    threads: &[Thread<K>],
    trays: &[(u32, Block)],
) -> Result<Sights, NoMemory>
    requires { length threads.now ≤ 64 }
    ensures found { IfOk result (λ s. found_by_address s.found
        ≡ found_by_address (finds_found (finds_of (map own_of threads.now) trays.now))) }
    ensures mapped { IfOk result (λ s. values_of s.mapped.entries
        ≡ by_address (mapped_finds (finds_of (map own_of threads.now) trays.now))) }
{
    let mut sights = Sights::new(alloc);
    see_threads(alloc, &mut sights, threads)?;
    see_trays(&mut sights, trays)?;
    Ok(sights)
}
