//! Snapshots made by hand.

use chunk_tags::{Addr, NoMemory, Size};
use stats_text::{ArenaView, DialsView, Place, Snapshot, TileView};
use std::alloc::Global;

/// The place of a thread's block.
fn live(thread: u8, name: u32) -> Place {
    Place::Live { thread, name }
}

/// A chunk that is `lead` bytes behind its mapping's start, 0 in arenas.
fn tile(addr: u64, size: u64, lead: u64, place: Place) -> TileView {
    TileView {
        addr: Addr(addr),
        size: Size(size),
        lead,
        place,
    }
}

/// An arena whose system bytes are at their maximum, with no last remainder and no lists.
fn arena(
    alloc: Global,
    number: u8,
    system: u64,
    list: u8,
    tiles: &[(u64, u64, Place)],
) -> Result<ArenaView, NoMemory> {
    let mut all = Vec::new(alloc);
    for (addr, size, place) in tiles {
        all.push(tile(*addr, *size, 0, *place))?;
    }
    Ok(ArenaView {
        number,
        system,
        max: system,
        list,
        last: None,
        tiles: all,
        fast: Vec::new(alloc),
        bins: Vec::new(alloc),
    })
}

/// No arena, no thread, and the dials as they start.
fn empty(alloc: Global) -> Snapshot {
    Snapshot {
        arenas: Vec::new(alloc),
        mapped: Vec::new(alloc),
        caches: Vec::new(alloc),
        threads: Vec::new(alloc),
        free: Vec::new(alloc),
        next: None,
        limit: 0,
        dials: DialsView {
            mmap_threshold: 131072,
            trim_threshold: 131072,
            mapped: 0,
            bytes: 0,
            max_mapped: 0,
            max_bytes: 0,
        },
    }
}

/// An arena alone, with thread 0 attached to it.
fn one_arena(alloc: Global, a: ArenaView) -> Result<Snapshot, NoMemory> {
    let mut s = empty(alloc);
    s.arenas.push(a)?;
    s.threads.push((0, Some(0)))?;
    Ok(s)
}

/// Mapped chunks, one with a lead, and one in a tray.
pub fn mapped_chunks(alloc: Global) -> Result<Snapshot, NoMemory> {
    let tiles = [
        (0x555555559000, 656, Place::Structure { thread: 0 }),
        (0x555555559290, 131088, live(0, 1)),
        (0x5555555792a0, 3424, Place::Top),
    ];
    let mut s = one_arena(alloc, arena(alloc, 0, 135168, 0, &tiles)?)?;
    s.mapped
        .push(tile(0x600000000000, 135168, 0, Place::Tray { tray: 9 }))?;
    s.mapped
        .push(tile(0x600000021ff0, 200720, 4080, live(0, 3)))?;
    s.dials = DialsView {
        mmap_threshold: 143360,
        trim_threshold: 286720,
        mapped: 2,
        bytes: 339968,
        max_mapped: 3,
        max_bytes: 483328,
    };
    Ok(s)
}

/// Arenas without chunks, at places above their count; two have one place.
pub fn far_places(alloc: Global) -> Result<Snapshot, NoMemory> {
    let mut s = empty(alloc);
    s.arenas.push(arena(alloc, 0, 4096, 200, &[])?)?;
    s.arenas.push(arena(alloc, 1, 8192, 7, &[])?)?;
    s.arenas.push(arena(alloc, 2, 12288, 200, &[])?)?;
    Ok(s)
}
