//! Top, main's break and pieces, and the heaps of another arena.

ghost use Rattle.std.specs.Prelude.{IfOk, [], ◌∷◌};
ghost use Rattle.chunk_tags.specs.Tiles.{Row};
ghost use Rattle.arena_tests.specs.MainScenes.{IsScene};
ghost use Rattle.arena_tests.specs.HeapScenes.{one_heap, longer_heap, two_heaps, free_rest, heap_again, shorter_heap, IsHeapScene};

use address_space::{HEAPS_START, MAIN_START, PIECE_START};
use chunk_image::TileWords;
use chunk_tags::{Addr, Chunk, NoMemory, Size, Tile, TileKind};
use heap_top::Regions;
use std::alloc::Global;
use std::process::Abort;
use std::test::Fail;

/// The bytes of main's break, and of its pieces, that have words.
const BREAK_ROOM: u64 = 262_144;

const PIECE_ROOM: u64 = 2_097_152;

/// Main before its first growth.
fn main_with_words(alloc: Global) -> Result<(Regions, TileWords), NoMemory>
    ensures { IfOk result (λ main. IsScene main.0 main.1) }
{
    let mut tiles = TileWords::new(alloc, Addr(MAIN_START), PIECE_START - MAIN_START);
    tiles.open(alloc, Addr(MAIN_START), BREAK_ROOM)?;
    tiles.open(alloc, Addr(PIECE_START), PIECE_ROOM)?;
    Ok((Regions::main(alloc), tiles))
}

/// The break grows.
fn grow(rt: &impl Abort, main: &mut Regions, tiles: &mut TileWords, growth: u64) -> Option<Chunk>
    requires { IsScene main.old tiles.old }
    ensures { IsScene main.new tiles.new }
{
    assert!(rt; growth > 0);
    assert!(rt; growth % 4096 == 0);
    assert!(rt; growth <= BREAK_ROOM);
    assert!(rt; main.break_at <= MAIN_START + (BREAK_ROOM - growth));
    main.take_break(tiles, growth)
}

/// A piece comes.
fn take_piece(rt: &impl Abort, main: &mut Regions, tiles: &mut TileWords, len: u64) -> Option<Chunk>
    requires { IsScene main.old tiles.old }
    ensures { IsScene main.new tiles.new }
{
    assert!(rt; len > 0);
    assert!(rt; len % 4096 == 0);
    assert!(rt; len <= PIECE_ROOM);
    assert!(rt; main.next_piece <= PIECE_START + (PIECE_ROOM - len));
    main.take_piece(tiles, len)
}

/// A chunk is cut off top.
fn cut(rt: &impl Abort, main: &mut Regions, tiles: &mut TileWords, nb: u64) -> Addr
    requires { IsScene main.old tiles.old }
    ensures { IsScene main.new tiles.new }
{
    let top = main.top(tiles).expect(rt, "top");
    assert!(rt; nb >= 32);
    assert!(rt; nb % 16 == 0);
    assert!(rt; nb <= top.size.0);
    assert!(rt; top.size.0 - nb >= 32);
    main.cut_top(tiles, Size(nb))
}

/// The end of top is given back.
fn trim(rt: &impl Abort, main: &mut Regions, tiles: &mut TileWords, bytes: u64)
    requires { IsScene main.old tiles.old }
    ensures { IsScene main.new tiles.new }
{
    let top = main.top(tiles).expect(rt, "top");
    assert!(rt; bytes % 4096 == 0);
    assert!(rt; bytes <= top.size.0);
    assert!(rt; top.size.0 - bytes >= 32);
    assert!(rt; main.break_at >= top.addr.0);
    assert!(rt; main.break_at - top.addr.0 == top.size.0);
    main.cut_main(tiles, bytes);
}

/// The maximum is raised.
fn note(main: &mut Regions, tiles: &TileWords)
    requires { IsScene main.old tiles.now }
    ensures { IsScene main.new tiles.now }
{
    main.note_most();
}

/// These tiles have such places, sizes and kinds.
pub(crate) fn expect_row(rt: &impl Abort, is: &[Tile], want: &[(u64, u64, TileKind)]) {
    assert_eq!(rt; is.len(), want.len());
    for (t, row) in is.iter().zip(want) {
        assert_eq!(rt; (t.addr.0, t.size.0, t.kind), *row);
    }
}

/// The tiles are these, by place, size and kind.
fn expect_tiles(
    rt: &impl Abort,
    alloc: Global,
    tiles: &TileWords,
    want: &[(u64, u64, TileKind)],
) -> Result<(), NoMemory>
    requires { Row tiles.now.tiles }
{
    expect_row(rt, &tiles.tiles(alloc)?, want);
    Ok(())
}

/// The first growth is top, which a later one makes longer.
fn top_grows(
    rt: &impl Abort,
    alloc: Global,
    main: &mut Regions,
    tiles: &mut TileWords,
) -> Result<(), NoMemory>
    requires { IsScene main.old tiles.old }
    ensures { IsScene main.new tiles.new }
{
    assert_eq!(rt; grow(rt, main, tiles, 135_168), None);
    assert_eq!(rt; cut(rt, main, tiles, 32), Addr(MAIN_START));
    assert_eq!(rt; grow(rt, main, tiles, 4096), None);
    note(main, tiles);
    assert_eq!(rt; (main.system, main.most), (139_264, 139_264));
    let want = [
        (MAIN_START, 32, TileKind::Used),
        (MAIN_START + 32, 139_232, TileKind::Top),
    ];
    expect_tiles(rt, alloc, tiles, &want)
}

/// A piece is top, and the old one ends in a fence.
fn top_moves(
    rt: &impl Abort,
    alloc: Global,
    main: &mut Regions,
    tiles: &mut TileWords,
) -> Result<(), NoMemory>
    requires { IsScene main.old tiles.old }
    ensures { IsScene main.new tiles.new }
{
    let rest = take_piece(rt, main, tiles, 1_048_576);
    let want = Chunk {
        at: Addr(MAIN_START + 32),
        size: Size(139_200),
    };
    assert_eq!(rt;
        (rest, main.contiguous, main.next_piece),
        (Some(want), false, PIECE_START + 1_048_576)
    );
    let want = [
        (MAIN_START, 32, TileKind::Used),
        (MAIN_START + 32, 139_200, TileKind::Used),
        (MAIN_START + 139_232, 32, TileKind::Fence),
        (PIECE_START, 1_048_576, TileKind::Top),
    ];
    expect_tiles(rt, alloc, tiles, &want)
}

/// A top of 48 bytes, and one of 32, are all fence.
fn small_tops_close(
    rt: &impl Abort,
    alloc: Global,
    main: &mut Regions,
    tiles: &mut TileWords,
) -> Result<(), NoMemory>
    requires { IsScene main.old tiles.old }
    ensures { IsScene main.new tiles.new }
{
    assert_eq!(rt; cut(rt, main, tiles, 1_048_528), Addr(PIECE_START));
    assert_eq!(rt; grow(rt, main, tiles, 4096), None);
    assert_eq!(rt; cut(rt, main, tiles, 4064), Addr(MAIN_START + 139_264));
    assert_eq!(rt; take_piece(rt, main, tiles, 1_048_576), None);
    note(main, tiles);
    assert_eq!(rt; main.most, 2_240_512);
    let want = [
        (MAIN_START, 32, TileKind::Used),
        (MAIN_START + 32, 139_200, TileKind::Used),
        (MAIN_START + 139_232, 32, TileKind::Fence),
        (MAIN_START + 139_264, 4064, TileKind::Used),
        (MAIN_START + 143_328, 32, TileKind::Fence),
        (PIECE_START, 1_048_528, TileKind::Used),
        (PIECE_START + 1_048_528, 48, TileKind::Fence),
        (PIECE_START + 1_048_576, 1_048_576, TileKind::Top),
    ];
    expect_tiles(rt, alloc, tiles, &want)
}

/// Top goes back to the break, whose end is given back; the maximum stays.
fn top_goes_back(rt: &impl Abort, main: &mut Regions, tiles: &mut TileWords)
    requires { IsScene main.old tiles.old }
{
    let rest = grow(rt, main, tiles, 8192);
    let want = Chunk {
        at: Addr(PIECE_START + 1_048_576),
        size: Size(1_048_544),
    };
    assert_eq!(rt; rest, Some(want));
    note(main, tiles);
    trim(rt, main, tiles, 4096);
    note(main, tiles);
    assert_eq!(rt;
        (main.break_at, main.system, main.most),
        (MAIN_START + 147_456, 2_244_608, 2_248_704)
    );
    let top = Tile {
        addr: Addr(MAIN_START + 143_360),
        size: Size(4096),
        kind: TileKind::Top,
    };
    assert_eq!(rt; main.top(tiles), Some(top));
}

#[test]
fn top_grows_is_cut_and_moves(rt: HostRuntime) -> Result<(), Fail> {
    let (mut main, mut tiles) = main_with_words(rt.alloc())?;
    top_grows(&rt, rt.alloc(), &mut main, &mut tiles)?;
    top_moves(&rt, rt.alloc(), &mut main, &mut tiles)?;
    small_tops_close(&rt, rt.alloc(), &mut main, &mut tiles)?;
    top_goes_back(&rt, &mut main, &mut tiles);
    Ok(())
}

/// Arena 1 with a chunk of 1024 bytes in its heap 0, and with words for both its windows.
fn with_a_heap(alloc: Global) -> Result<(Regions, TileWords), NoMemory>
    ensures { IfOk result (λ x. IsHeapScene x.0 x.1 one_heap []) }
{
    let mut tiles = TileWords::new(alloc, Addr(HEAPS_START), 65_536);
    tiles.open(alloc, Addr(HEAPS_START), 65_536)?;
    tiles.open(alloc, Addr(HEAPS_START + 65_536), 65_536)?;
    let mut heaps = Regions::other(alloc, 1, 65_536, 2)?;
    heaps.open_heap(&mut tiles, 8192);
    heaps.cut_top(&mut tiles, Size(1024));
    Ok((heaps, tiles))
}

/// Heap 0 becomes a page longer.
fn extend_first(heaps: &mut Regions, tiles: &mut TileWords)
    requires { IsHeapScene heaps.old tiles.old one_heap [] }
    ensures { IsHeapScene heaps.new tiles.new longer_heap [] }
{
    heaps.extend_heap(tiles, 4096);
}

/// A second heap comes, and what is left of the old top is given.
fn add_second(heaps: &mut Regions, tiles: &mut TileWords) -> Option<Chunk>
    requires { IsHeapScene heaps.old tiles.old longer_heap [] }
    ensures { IsHeapScene heaps.new tiles.new two_heaps (12288 ∷ []) }
{
    heaps.add_heap(tiles, 8192)
}

/// What is left of the old top is free.
fn free_the_rest(heaps: &Regions, tiles: &mut TileWords)
    requires { IsHeapScene heaps.now tiles.old two_heaps (12288 ∷ []) }
    ensures { IsHeapScene heaps.now tiles.new free_rest (12288 ∷ []) }
{
    let rest = Tile {
        addr: Addr(HEAPS_START + 3264),
        size: Size(8992),
        kind: TileKind::Used,
    };
    tiles.set_kind(&rest, TileKind::Free);
}

/// The second heap is dropped.
fn drop_second(rt: &impl Abort, heaps: &mut Regions, tiles: &mut TileWords)
    requires { IsHeapScene heaps.old tiles.old free_rest (12288 ∷ []) }
    ensures { IsHeapScene heaps.new tiles.new heap_again [] }
{
    let end = heaps.end_before(tiles).expect(rt, "an end");
    assert_eq!(rt; end.room, 53_248);
    heaps.drop_heap(tiles, &end);
}

/// Heap 0, before which there is none, becomes a page shorter.
fn shorten_first(rt: &impl Abort, heaps: &mut Regions, tiles: &mut TileWords)
    requires { IsHeapScene heaps.old tiles.old heap_again [] }
    ensures { IsHeapScene heaps.new tiles.new shorter_heap [] }
{
    assert_eq!(rt; heaps.end_before(tiles), None);
    heaps.shorten_heap(tiles, 4096);
}

/// Arena 1 with two heaps.
fn with_two_heaps(rt: &impl Abort, alloc: Global) -> Result<(Regions, TileWords), NoMemory>
    ensures { IfOk result (λ x. IsHeapScene x.0 x.1 two_heaps (12288 ∷ [])) }
{
    let (mut heaps, mut tiles) = with_a_heap(alloc)?;
    extend_first(&mut heaps, &mut tiles);
    assert_eq!(rt; heaps.system, 12_288);
    let rest = add_second(&mut heaps, &mut tiles);
    let want = Chunk {
        at: Addr(HEAPS_START + 3264),
        size: Size(8992),
    };
    assert_eq!(rt; (rest, heaps.system), (Some(want), 20_480));
    Ok((heaps, tiles))
}

#[test]
fn heaps_come_and_go(rt: HostRuntime) -> Result<(), Fail> {
    let alloc = rt.alloc();
    let (mut heaps, mut tiles) = with_two_heaps(&rt, alloc)?;
    let want = [
        (HEAPS_START + 2240, 1024, TileKind::Used),
        (HEAPS_START + 3264, 8992, TileKind::Used),
        (HEAPS_START + 12_256, 32, TileKind::Fence),
        (HEAPS_START + 65_568, 8160, TileKind::Top),
    ];
    expect_tiles(&rt, alloc, &tiles, &want)?;
    free_the_rest(&heaps, &mut tiles);
    drop_second(&rt, &mut heaps, &mut tiles);
    assert_eq!(rt; heaps.system, 12_288);
    shorten_first(&rt, &mut heaps, &mut tiles);
    assert_eq!(rt; heaps.system, 8192);
    let want = [
        (HEAPS_START + 2240, 1024, TileKind::Used),
        (HEAPS_START + 3264, 4928, TileKind::Top),
    ];
    expect_tiles(&rt, alloc, &tiles, &want)?;
    Ok(())
}
