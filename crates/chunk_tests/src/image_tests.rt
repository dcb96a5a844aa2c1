//! Tiles in words, and how they are found.

ghost use Rattle.std.specs.Prelude.{◌≡◌, [], ◌∷◌, IfOk};

use chunk_image::TileWords;
use chunk_tags::{Addr, NoMemory, Size, Tile, TileKind};
use std::alloc::Global;
use std::test::Fail;

fn tile(addr: u64, size: u64, kind: TileKind) -> Tile
    ensures { result ≡ record { addr = addr; size = size; kind = kind } }
{
    Tile {
        addr: Addr(addr),
        size: Size(size),
        kind,
    }
}

/// A page with chunks of 64 and 32 bytes before top.
fn with_two_chunks(alloc: Global) -> Result<TileWords, NoMemory>
    ensures { IfOk result (λ words. words
        ≡ record {
          tiles = record { addr = 4096; size = 64; kind = TileKind.Used }
              ∷ record { addr = 4160; size = 32; kind = TileKind.Used }
              ∷ record { addr = 4192; size = 4000; kind = TileKind.Top } ∷ [];
          extent = record { base = 4096; width = 4096; words = 256 ∷ [] };
        }) }
{
    let mut words = TileWords::new(alloc, Addr(4096), 65536);
    words.open(alloc, Addr(4096), 4096)?;
    let top = tile(4096, 4096, TileKind::Top);
    words.enter(&top);
    words.split(&top, Size(64), TileKind::Used, TileKind::Top);
    words.split(
        &tile(4160, 4032, TileKind::Top),
        Size(32),
        TileKind::Used,
        TileKind::Top,
    );
    Ok(words)
}

#[test]
fn a_border_is_shifted_and_shifted_back(rt: HostRuntime) -> Result<(), Fail> {
    let mut words = with_two_chunks(rt.alloc())?;
    let cut = words.tile(Addr(4160)).size;
    let border = words.shift_border(
        &tile(4160, 32, TileKind::Used),
        &tile(4192, 4000, TileKind::Top),
        Size(48),
    );
    let shifted = words.tile(Addr(4208)).size;
    words.shift_border(
        &tile(4160, 48, TileKind::Used),
        &tile(4208, 3984, TileKind::Top),
        Size(32),
    );
    let again = words.tile(Addr(4192)).size;
    assert_eq!(rt;
        (cut, border, shifted, again),
        (Size(32), Addr(4208), Size(3984), Size(4000))
    );
    Ok(())
}

#[test]
fn tiles_are_freed_fused_and_removed(rt: HostRuntime) -> Result<(), Fail> {
    let mut words = with_two_chunks(rt.alloc())?;
    words.set_kind(&tile(4096, 64, TileKind::Used), TileKind::Free);
    let free = words.free_before(Addr(4160)).is_some();
    let behind = words.behind(&tile(4096, 64, TileKind::Free)).size;
    words.fuse(
        &tile(4096, 64, TileKind::Free),
        &tile(4160, 32, TileKind::Used),
        TileKind::Used,
    );
    words.set_size(&tile(4192, 4000, TileKind::Top), Size(2048));
    let count = words.tiles(rt.alloc())?.len();
    words.remove(&tile(4096, 96, TileKind::Used));
    let left = words.tile(Addr(4192)).size;
    assert_eq!(rt;
        (free, behind, count, left),
        (true, Size(32), 2, Size(2048))
    );
    Ok(())
}

#[test]
fn a_tile_is_found_by_its_end(rt: HostRuntime) -> Result<(), Fail> {
    let mut words = TileWords::new(rt.alloc(), Addr(4096), 65536);
    words.open(rt.alloc(), Addr(4096), 4096)?;
    let top = tile(6336, 1856, TileKind::Top);
    words.enter(&top);
    words.split(&top, Size(1808), TileKind::Used, TileKind::Fence);
    let fence = words.ending_at(Addr(8192));
    assert_eq!(rt;
        (fence.addr, fence.size, words.ending_at(Addr(8144)).addr),
        (Addr(8144), Size(48), Addr(6336))
    );
    Ok(())
}
