//! The large bin of 1,984 to 2,047 bytes.

ghost use Rattle.std.specs.Prelude.{◌≡◌, ℕ, ◌+◌, ◌<◌, ◌≤◌, [], ◌∷◌, None, IsSome, IfOk, nat_eq, if◌then◌else◌};
ghost use Rattle.chunk_tags.specs.BinOrder.{IsFalling};
ghost use Rattle.chunk_tags.specs.Tiles.{entered, tile_at};
ghost use Rattle.ordinary_bins.specs.Extents.{IsOpen, IsWider};
ghost use Rattle.chunk_image.specs.Rows.{IsRoom, IsWordSize};
ghost use Rattle.ordinary_bins.specs.Lists.{bin_count, empty_lists, list_at, times_listed};
ghost use Rattle.large_bins.specs.FirstChunks.{AreFirsts};
ghost use Rattle.large_bins.specs.SeenChunks.{size_at, chunks_by, bins_by, HaveTiles};

use chunk_image::TileWords;
use chunk_tags::{Addr, NoMemory, Size, Tile, TileKind};
use large_bins::{best, insert};
use ordinary_bins::LinkWords;
use std::alloc::Global;
use std::test::Fail;

const BIN: u8 = 79;

/// A chunk stands at an address.
fn stand(tiles: &mut TileWords, at: u64, size: u64)
    requires none { tile_at at tiles.old.tiles ≡ None }
    requires some { 0 < size }
    requires fits { IsWordSize size }
    requires room { IsRoom tiles.old.extent at size }
    ensures { tiles.new ≡ record tiles.old {
      tiles = entered (record { addr = at; size = size; kind = TileKind.Used }) tiles.old.tiles;
    } }
{
    tiles.enter(&Tile {
        addr: Addr(at),
        size: Size(size),
        kind: TileKind::Used,
    });
}

/// Five chunks side by side: three equal ones, a greater one and a smaller one.
fn five_chunks(alloc: Global) -> Result<TileWords, NoMemory>
    ensures { IfOk result (λ words. words.tiles
        ≡ record { addr = 4096; size = 2016; kind = TileKind.Used }
        ∷ record { addr = 6112; size = 2016; kind = TileKind.Used }
        ∷ record { addr = 8128; size = 2016; kind = TileKind.Used }
        ∷ record { addr = 10144; size = 2032; kind = TileKind.Used }
        ∷ record { addr = 12176; size = 1984; kind = TileKind.Used } ∷ []) }
{
    let mut tiles = TileWords::new(alloc, Addr(4096), 65_536);
    tiles.open(alloc, Addr(4096), 16_384)?;
    stand(&mut tiles, 4096, 2016);
    stand(&mut tiles, 6112, 2016);
    stand(&mut tiles, 8128, 2016);
    stand(&mut tiles, 10_144, 2032);
    stand(&mut tiles, 12_176, 1984);
    Ok(tiles)
}

/// Empty bins, with link words for the chunks.
fn no_chunks(alloc: Global) -> Result<LinkWords, NoMemory>
    ensures lists { IfOk result (λ links. links.lists ≡ empty_lists) }
    ensures extent { IfOk result (λ links. links.extent
        ≡ record { base = 4096; width = 4096; words = 1024 ∷ [] }) }
{
    let mut links = LinkWords::new(alloc, 4096, 65_536)?;
    links.open(alloc, Addr(4096), 16_384)?;
    Ok(links)
}

/// Puts a chunk of the bin's sizes into it.
fn put(links: &mut LinkWords, firsts: &mut LinkWords, tiles: &TileWords, at: u64)
    requires stands { IsSome (tile_at at tiles.now.tiles) }
    requires least { 1984 ≤ size_at tiles.now.tiles at }
    requires most { size_at tiles.now.tiles at < 2048 }
    requires high { bin_count ≤ at }
    requires word { IsOpen links.old.extent at }
    requires unlisted { times_listed at links.old.lists ≡ 0 }
    requires tiles { HaveTiles tiles.now.tiles links.old.lists }
    requires falling { IsFalling
        (chunks_by (size_at tiles.now.tiles) (list_at 79 links.old.lists)) }
    requires firsts { AreFirsts (bins_by (size_at tiles.now.tiles) links.old.lists)
        firsts.old.lists }
    requires wider { IsWider links.old.extent firsts.old.extent }
    ensures listed { (n : ℕ) → times_listed n links.new.lists
        ≡ times_listed n links.old.lists + (if nat_eq n at then 1 else 0) }
    ensures tiles { HaveTiles tiles.now.tiles links.new.lists }
    ensures falling { IsFalling
        (chunks_by (size_at tiles.now.tiles) (list_at 79 links.new.lists)) }
    ensures extent { links.new.extent ≡ links.old.extent }
    ensures firsts { AreFirsts (bins_by (size_at tiles.now.tiles) links.new.lists)
        firsts.new.lists }
    ensures wider { IsWider links.new.extent firsts.new.extent }
{
    links.laws();
    let size = tiles.tile(Addr(at)).size;
    insert(links, firsts, tiles, Addr(at), size);
}

/// Takes the bin's last chunk out of it.
fn take_last(links: &mut LinkWords) -> Option<Addr> {
    let last = links.last(BIN)?;
    links.unlink(last);
    Some(last)
}

#[test]
fn equals_and_others_in_order(rt: HostRuntime) -> Result<(), Fail> {
    let tiles = five_chunks(rt.alloc())?;
    let mut links = no_chunks(rt.alloc())?;
    let mut firsts = no_chunks(rt.alloc())?;
    put(&mut links, &mut firsts, &tiles, 4096);
    let of_one = best(&links, &firsts, &tiles, Size(2000));
    put(&mut links, &mut firsts, &tiles, 6112);
    put(&mut links, &mut firsts, &tiles, 8128);
    let of_three = (
        best(&links, &firsts, &tiles, Size(2016)),
        best(&links, &firsts, &tiles, Size(2032)),
    );
    put(&mut links, &mut firsts, &tiles, 10_144);
    put(&mut links, &mut firsts, &tiles, 12_176);
    let of_five = (
        best(&links, &firsts, &tiles, Size(2032)),
        best(&links, &firsts, &tiles, Size(2000)),
        best(&links, &firsts, &tiles, Size(1984)),
    );
    assert_eq!(rt; of_one, Some(Addr(4096)));
    assert_eq!(rt; of_three, (Some(Addr(8128)), None));
    assert_eq!(rt;
        of_five,
        (Some(Addr(10_144)), Some(Addr(8128)), Some(Addr(12_176)))
    );
    for at in [
        Some(Addr(12_176)),
        Some(Addr(6112)),
        Some(Addr(8128)),
        Some(Addr(4096)),
        Some(Addr(10_144)),
        None,
    ] {
        assert_eq!(rt; take_last(&mut links), at);
    }
    Ok(())
}
