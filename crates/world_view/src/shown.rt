//! What a report shows of threads, arenas and trays.

ghost use Rattle.std.specs.Prelude.{◌≡◌, ◌≤◌, ◌<◌, ◌+◌, ◌^◌, ◌++◌, List, length, map, IfOk, OnOk};
ghost use Rattle.std.specs.Map.{values_of};
ghost use Rattle.arena_choice.specs.Books.{arena_of};
ghost use Rattle.malloc_calls.specs.Threads.{own_of};
ghost use Rattle.stats_text.specs.Totals.{HasTotals};
ghost use Rattle.world_view.specs.Scenes.{ArenaScene, AreArenas, cache_lists, caches_from, dials_of, shown_of};

use crate::arenas::arena_views;
use crate::finds::sights;
use crate::sights::Sights;
use address_space::Kernel;
use arena_choice::Book;
use arena_core::Arena;
use arena_ground::Ground;
use chunk_tags::{Addr, Block, NoMemory};
use malloc_calls::Thread;
use mapped_chunks::DialState;
use stats_text::{CacheView, DialsView, Snapshot, TileView};
use std::alloc::Global;
use std::collections::BTreeMap;

/// The mapped chunks by address.
fn mapped_views(alloc: Global, mapped: &BTreeMap<u64, TileView>) -> Result<Vec<TileView>, NoMemory>
    ensures { IfOk result (λ v. v.items ≡ values_of mapped.now.entries) }
{
    Ok(mapped.values().copied().collect(alloc)?)
}

/// Appends the lists of a thread's cache.
fn append_lists(
    alloc: Global,
    views: &mut Vec<CacheView>,
    thread: u8,
    lists: &[Vec<Addr>],
) -> Result<(), NoMemory>
    requires { length lists.now ≤ 64 }
    ensures { OnOk result (views.new.items
        ≡ views.old.items ++ cache_lists thread 0 (map (λ l. l.items) lists.now)) }
{
    for (index, addrs) in lists.iter().enumerate() {
        let addrs = Vec::from_slice(alloc, addrs.as_slice())?;
        views.push(CacheView {
            thread,
            bin: index as u8,
            addrs,
        })?;
    }
    Ok(())
}

/// The lists of all threads' caches.
fn cache_views<K: Kernel>(alloc: Global, threads: &[Thread<K>]) -> Result<Vec<CacheView>, NoMemory>
    requires { length threads.now ≤ 64 }
    ensures { IfOk result (λ v. v.items ≡ caches_from 0 (map own_of threads.now)) }
{
    let mut views = Vec::new(alloc);
    for (number, thread) in threads.iter().enumerate() {
        let lists = thread.cache().lists(alloc)?;
        append_lists(alloc, &mut views, number as u8, lists.as_slice())?;
    }
    Ok(views)
}

/// Threads, each with its arena.
fn thread_views(alloc: Global, book: &Book, lines: &[u8]) -> Result<Vec<(u8, Option<u8>)>, NoMemory>
    ensures { IfOk result (λ v. v.items
        ≡ map (λ thread. (thread, arena_of book.now thread)) lines.now) }
{
    let mut threads = Vec::new(alloc);
    for thread in lines {
        threads.push((*thread, book.arena_of(*thread)))?;
    }
    Ok(threads)
}

/// The words beside the arenas.
fn dial_view(d: &DialState) -> DialsView
    ensures { result ≡ dials_of d.now }
{
    DialsView {
        mmap_threshold: d.mmap_threshold,
        trim_threshold: d.trim_threshold,
        mapped: d.mapped,
        bytes: d.bytes,
        max_mapped: d.max_mapped,
        max_bytes: d.max_bytes,
    }
}

/// All that a report shows of threads and arenas by number: `fast` has ten lists an arena, one arena after another, each from
/// its front; `trays` the blocks in full trays, by the tray's number; `lines` the threads that have lines in the trace.
#[tactic(auto, unfolding(crate::specs::Scenes::shown_of))]
pub fn snapshot<K: Kernel>(
    alloc: Global,
    threads: &[Thread<K>],
    arenas: &[Arena<Ground>],
    fast: &[Vec<Addr>],
    trays: &[(u32, Block)],
    book: &Book,
    dials: &DialState,
    lines: &[u8],
) -> Result<Snapshot, NoMemory>
    requires threads { length threads.now ≤ 64 }
    requires arenas { length arenas.now ≤ 64 }
    requires bytes { dials.now.bytes + 2 ^ 40 < 2 ^ 64 }
    ensures shown { (scenes : List ArenaScene) →
        AreArenas scenes (map (λ a. a.ground.value.arena) arenas.now) (map (λ l. l.items) fast.now) →
        IfOk result (λ s. s ≡ shown_of (record {
          owns = map own_of threads.now;
          arenas = scenes;
          trays = trays.now;
          book = book.now;
          dials = dials.now;
          lines = lines.now;
        })) }
    ensures totals { IfOk result HasTotals }
{
    book.laws();
    let Sights { found, mapped } = sights(alloc, threads, trays)?;
    Ok(Snapshot {
        arenas: arena_views(alloc, found, book.list(), arenas, fast)?,
        mapped: mapped_views(alloc, &mapped)?,
        caches: cache_views(alloc, threads)?,
        threads: thread_views(alloc, book, lines)?,
        free: Vec::from_slice(alloc, book.free())?,
        next: book.next(),
        limit: book.limit(),
        dials: dial_view(dials),
    })
}
