//! The moves of an arena that is kept in words.

ghost use Rattle.std.specs.Prelude.{◌≡◌, IfOk};
ghost use Rattle.arena_tests.specs.HeapScenes.{one_heap, two_heaps, free_rest, heap_again};
ghost use Rattle.arena_tests.specs.GroundScenes.{two_chunks, grown_behind_free};

use crate::region_tests::expect_row;
use arena_ground::Ground;
use arena_rules::{HeapEnd, Moves};
use chunk_tags::{Addr, Chunk, NoMemory, Size, Tile, TileKind};
use std::alloc::Global;
use std::process::Abort;
use std::test::Fail;

/// Where main begins.
const START: u64 = 0x5555_5555_9000;

/// Where heap 0 of arena 1 begins.
const HEAP: u64 = 0x7f00_0000_0000;

/// The end of heap 0 before a second heap.
const FIRST_END: HeapEnd = HeapEnd {
    fence: Tile {
        addr: Addr(HEAP + 12_256),
        size: Size(32),
        kind: TileKind::Fence,
    },
    before: Some(Tile {
        addr: Addr(HEAP + 3264),
        size: Size(8992),
        kind: TileKind::Free,
    }),
    room: 53_248,
};

/// Main with a chunk off its first growth, with what was to be released of an old top, and where the chunk is.
fn with_a_chunk(alloc: Global) -> Result<(Ground, Option<Chunk>, Addr), NoMemory> {
    let mut ground = Ground::main(alloc)?;
    ground.make_break_room(135_168)?;
    let rest = ground.take_break(135_168);
    let at = ground.cut_top(Size(32));
    ground.note_most();
    Ok((ground, rest, at))
}

/// Main with two chunks of 32 bytes.
fn with_two_chunks(alloc: Global) -> Result<Ground, NoMemory>
    ensures { IfOk result (λ g. g.arena ≡ two_chunks) }
{
    let mut ground = Ground::main(alloc)?;
    ground.make_break_room(135_168)?;
    ground.take_break(135_168);
    ground.cut_top(Size(32));
    ground.cut_top(Size(32));
    Ok(ground)
}

/// The first chunk becomes free, and then the second grows into top.
fn grow_behind_free(ground: &mut Ground)
    requires { ground.old.arena ≡ two_chunks }
    ensures { ground.new.arena ≡ grown_behind_free }
{
    let size = Size(32);
    ground.shelve(Chunk {
        at: Addr(START),
        size,
    });
    ground.grow_into_top(
        Chunk {
            at: Addr(START + 32),
            size,
        },
        Size(64),
    );
}

/// A chunk of 32 bytes is cut off top, and joined with the one before it.
fn join_the_next(ground: &mut Ground) -> Chunk
    requires { ground.old.arena ≡ grown_behind_free }
{
    let next = ground.cut_top(Size(32));
    ground.join_used(
        Chunk {
            at: Addr(START + 32),
            size: Size(64),
        },
        Chunk {
            at: next,
            size: Size(32),
        },
    )
}

/// Arena 1 with a chunk of 1024 bytes in its heap 0, and where that is.
fn with_a_heap(alloc: Global) -> Result<(Ground, Addr), NoMemory>
    ensures { IfOk result (λ x. x.0.arena ≡ one_heap) }
{
    let mut ground = Ground::open(alloc, 1, 65536, 2, 8192)?;
    let at = ground.cut_top(Size(1024));
    Ok((ground, at))
}

/// Heap 0 becomes a page longer, a second heap of two pages comes, and what is left of the old top is given.
fn grow_heaps(ground: &mut Ground) -> Result<Option<Chunk>, NoMemory>
    requires { ground.old.arena ≡ one_heap }
    ensures { IfOk result (λ rest. ground.new.arena ≡ two_heaps) }
{
    ground.make_extension_room(4096)?;
    ground.extend_heap(4096);
    ground.make_heap_room(8192)?;
    Ok(ground.add_heap(8192))
}

/// What is left of the old top is free.
fn free_the_rest(ground: &mut Ground)
    requires { ground.old.arena ≡ two_heaps }
    ensures { ground.new.arena ≡ free_rest }
{
    ground.shelve(Chunk {
        at: Addr(HEAP + 3264),
        size: Size(8992),
    });
}

/// The end of heap 0.
fn end_of_first(ground: &Ground) -> Option<HeapEnd>
    requires { ground.now.arena ≡ free_rest }
{
    ground.end_before()
}

/// The second heap is dropped.
fn drop_second(ground: &mut Ground)
    requires { ground.old.arena ≡ free_rest }
    ensures { ground.new.arena ≡ heap_again }
{
    ground.drop_heap(&FIRST_END);
}

/// The heap that is left becomes a page shorter.
fn shorten_first(ground: &mut Ground)
    requires { ground.old.arena ≡ heap_again }
{
    ground.shorten_heap(4096);
}

/// The tiles are these, by place, size and kind.
fn expect_tiles(
    rt: &impl Abort,
    alloc: Global,
    ground: &Ground,
    want: &[(u64, u64, TileKind)],
) -> Result<(), NoMemory> {
    expect_row(rt, &ground.tiles(alloc)?, want);
    Ok(())
}

/// Unsorted has so many chunks.
fn expect_unsorted(
    rt: &impl Abort,
    alloc: Global,
    ground: &Ground,
    count: usize,
) -> Result<(), NoMemory> {
    assert_eq!(rt; ground.bin(alloc, 1)?.len(), count);
    Ok(())
}

#[test]
fn a_chunk_of_main(rt: HostRuntime) -> Result<(), Fail> {
    let (ground, rest, at) = with_a_chunk(rt.alloc())?;
    assert_eq!(rt; (rest, at, ground.most()), (None, Addr(START), 135_168));
    let tiles = [
        (START, 32, TileKind::Used),
        (START + 32, 135_136, TileKind::Top),
    ];
    expect_tiles(&rt, rt.alloc(), &ground, &tiles)?;
    expect_unsorted(&rt, rt.alloc(), &ground, 0)?;
    Ok(())
}

#[test]
fn a_chunk_grows_and_is_joined(rt: HostRuntime) -> Result<(), Fail> {
    let mut ground = with_two_chunks(rt.alloc())?;
    grow_behind_free(&mut ground);
    let tiles = [
        (START, 32, TileKind::Free),
        (START + 32, 64, TileKind::Used),
        (START + 96, 135_072, TileKind::Top),
    ];
    expect_tiles(&rt, rt.alloc(), &ground, &tiles)?;
    let joined = join_the_next(&mut ground);
    assert_eq!(rt; (joined.at, joined.size), (Addr(START + 32), Size(96)));
    let tiles = [
        (START, 32, TileKind::Free),
        (START + 32, 96, TileKind::Used),
        (START + 128, 135_040, TileKind::Top),
    ];
    expect_tiles(&rt, rt.alloc(), &ground, &tiles)?;
    expect_unsorted(&rt, rt.alloc(), &ground, 1)?;
    Ok(())
}

/// What the second heap changes.
fn expect_two_heaps(
    rt: &impl Abort,
    alloc: Global,
    ground: &Ground,
    rest: Option<Chunk>,
) -> Result<(), NoMemory> {
    let want = Chunk {
        at: Addr(HEAP + 3264),
        size: Size(8992),
    };
    assert_eq!(rt; (rest, ground.system()), (Some(want), 20_480));
    let tiles = [
        (HEAP + 2240, 1024, TileKind::Used),
        (HEAP + 3264, 8992, TileKind::Used),
        (HEAP + 12_256, 32, TileKind::Fence),
        (HEAP + 65_568, 8160, TileKind::Top),
    ];
    expect_tiles(rt, alloc, ground, &tiles)
}

/// Arena 1 with two heaps, and what was left of the first one's top free.
fn with_two_heaps(rt: &impl Abort, alloc: Global) -> Result<Ground, NoMemory>
    ensures { IfOk result (λ g. g.arena ≡ free_rest) }
{
    let (mut ground, at) = with_a_heap(alloc)?;
    assert_eq!(rt; at, Addr(HEAP + 2240));
    let rest = grow_heaps(&mut ground)?;
    expect_two_heaps(rt, alloc, &ground, rest)?;
    free_the_rest(&mut ground);
    Ok(ground)
}

#[test]
fn heaps_come_and_go(rt: HostRuntime) -> Result<(), Fail> {
    let mut ground = with_two_heaps(&rt, rt.alloc())?;
    expect_unsorted(&rt, rt.alloc(), &ground, 1)?;
    assert_eq!(rt; end_of_first(&ground), Some(FIRST_END));
    drop_second(&mut ground);
    expect_unsorted(&rt, rt.alloc(), &ground, 0)?;
    shorten_first(&mut ground);
    assert_eq!(rt; ground.system(), 8192);
    let tiles = [
        (HEAP + 2240, 1024, TileKind::Used),
        (HEAP + 3264, 4928, TileKind::Top),
    ];
    expect_tiles(&rt, rt.alloc(), &ground, &tiles)?;
    Ok(())
}
