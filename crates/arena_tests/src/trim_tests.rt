//! Merging, consolidating and trimming, over an arena in its words.

ghost use Rattle.std.specs.Prelude.{◌≡◌, ◌+◌, ◌%◌, ◌<◌, ◌≤◌, ◌&&◌, IfOk, OnOk, IsTrue};
ghost use Rattle.chunk_tags.specs.BinOrder.{once, fast_chunk};
ghost use Rattle.chunk_tags.specs.Tiles.{is_used};
ghost use Rattle.chunk_tags.specs.declared.tiles.Chunk.{Chunk as Piece};
ghost use Rattle.arena_rules.specs.PlainArena.{IsSound, is_chunk, is_own};
ghost use Rattle.fast_bins.specs.PlainBins.{plain_fast};
ghost use Rattle.consolidate_trim.specs.Holds.{IsBacked, no_chunk};

use address_space::{Always, Space, Windows};
use arena_ground::Ground;
use arena_rules::{Moves, Said};
use chunk_tags::{Addr, Chunk, Mode, NoMemory, Size, Tile, TileKind, Tunables};
use consolidate_trim::{Merged, consolidate, merge, trim_heap, trim_main};
use fast_bins::{FastPort, PlainFast};
use std::alloc::Global;
use std::process::Abort;
use std::test::Fail;

const START: u64 = 0x5555_5555_9000;

/// Where heap 0 of arena 1 begins.
const HEAP: u64 = 0x7f00_0000_0000;

/// Main after its first growth.
fn grown(alloc: Global, growth: u64) -> Result<Ground, NoMemory>
    requires some { 0 < growth }
    requires pages { growth % 4096 ≡ 0 }
    requires window { growth ≤ 1048576 }
    ensures { IfOk result (λ g. IsSound g.arena) }
{
    let mut g = Ground::main(alloc)?;
    g.make_break_room(growth)?;
    let _rest = g.take_break(growth);
    Ok(g)
}

fn chunk(at: u64, size: u64) -> Chunk {
    Chunk {
        at: Addr(at),
        size: Size(size),
    }
}

/// Cuts a chunk off top.
fn cut(rt: &impl Abort, g: &mut Ground, nb: u64) -> Chunk
    requires { IsSound g.old.arena }
    ensures { IsSound g.new.arena }
{
    let top = g.top().expect(rt, "top");
    assert!(rt; nb >= 32);
    assert!(rt; nb % 16 == 0);
    assert!(rt; nb <= top.size.0);
    assert!(rt; top.size.0 - nb >= 32);
    let at = g.cut_top(Size(nb));
    Chunk { at, size: Size(nb) }
}

/// Whether a tile is this chunk, and used.
fn is_used_chunk(t: &Tile, c: &Chunk) -> bool
    ensures { result ≡ is_used t.now && is_chunk c.now t.now }
{
    t.kind == TileKind::Used && t.addr == c.at && t.size == c.size
}

/// Stops where a chunk isn't used.
fn expect_own(rt: &impl Abort, alloc: Global, g: &Ground, c: &Chunk) -> Result<(), NoMemory>
    requires { IsSound g.now.arena }
    ensures { OnOk result (IsTrue (is_own g.now.arena c.now)) }
{
    let tiles = g.tiles(alloc)?;
    let times = tiles.iter().filter(|t| is_used_chunk(t, c)).count();
    assert!(rt; times > 0);
    Ok(())
}

/// Merges a chunk.
fn merge_own(rt: &impl Abort, alloc: Global, g: &mut Ground, c: Chunk) -> Result<Merged, NoMemory>
    requires { IsSound g.old.arena }
    ensures { OnOk result (IsSound g.new.arena) }
{
    expect_own(rt, alloc, g, &c)?;
    Ok(merge(g, c))
}

/// The tiles are as large, from the start of main on.
fn expect_sizes(
    rt: &impl Abort,
    alloc: Global,
    g: &Ground,
    want: &[(u64, TileKind)],
) -> Result<(), NoMemory>
    requires { IsSound g.now.arena }
{
    let tiles = g.tiles(alloc)?;
    assert_eq!(rt; tiles.len(), want.len());
    for (t, row) in tiles.iter().zip(want) {
        assert_eq!(rt; (t.size.0, t.kind), *row);
    }
    Ok(())
}

/// Unsorted has these chunks, front first.
fn expect_unsorted(
    rt: &impl Abort,
    alloc: Global,
    g: &Ground,
    want: &[u64],
) -> Result<(), NoMemory> {
    let unsorted = g.bin(alloc, 1)?;
    assert_eq!(rt; unsorted.len(), want.len());
    for (at, want) in unsorted.iter().zip(want) {
        assert_eq!(rt; at.0, *want);
    }
    Ok(())
}

/// The first answers are these chunks of the fast bins, 0 for none.
fn expect_given(rt: &impl Abort, said: &[Said], want: &[u64]) {
    for (answer, want) in said.iter().zip(want) {
        let at = match answer {
            Said::Own(Some(at)) => at.0,
            _ => 0,
        };
        assert_eq!(rt; at, *want);
    }
}

/// Cuts chunks of these sizes off top, one behind the other.
fn cut_each(rt: &impl Abort, g: &mut Ground, sizes: &[u64])
    requires { IsSound g.old.arena }
    ensures { IsSound g.new.arena }
{
    for nb in sizes {
        cut(rt, g, *nb);
    }
}

/// Main with six chunks, which are merged in the order of these rows, all but the last. Each row has a chunk's place,
/// its size, and the size that it has once it is merged.
fn five_merged(rt: &impl Abort, alloc: Global) -> Result<Ground, NoMemory>
    ensures { IfOk result (λ g. IsSound g.arena) }
{
    let mut g = grown(alloc, 135_168)?;
    cut_each(rt, &mut g, &[160, 176, 192, 208, 224, 240]);
    for (at, size, merged) in [
        // alone, with a free one before it, alone, between two, with a free one behind it
        (START + 160, 176, 176),
        (START + 336, 192, 368),
        (START + 736, 224, 224),
        (START + 528, 208, 800),
        (START, 160, 960),
    ] {
        let is = merge_own(rt, alloc, &mut g, chunk(at, size))?;
        assert_eq!(rt; is, Merged::Unsorted(Size(merged)));
    }
    Ok(g)
}

/// Unsorted has these chunks, front first, and the tiles are as large from the start of main on.
fn expect_left(
    rt: &impl Abort,
    alloc: Global,
    g: &Ground,
    unsorted: &[u64],
    sizes: &[(u64, TileKind)],
) -> Result<(), NoMemory>
    requires { IsSound g.now.arena }
{
    expect_unsorted(rt, alloc, g, unsorted)?;
    expect_sizes(rt, alloc, g, sizes)
}

#[test]
fn neighbours_are_merged(rt: HostRuntime) -> Result<(), Fail> {
    let g = five_merged(&rt, rt.alloc())?;
    let sizes = [
        (960, TileKind::Free),
        (240, TileKind::Used),
        (133_968, TileKind::Top),
    ];
    expect_left(&rt, rt.alloc(), &g, &[START], &sizes)?;
    Ok(())
}

/// A free one is before it, and top behind it.
#[test]
fn the_last_one_is_merged_with_both(rt: HostRuntime) -> Result<(), Fail> {
    let mut g = five_merged(&rt, rt.alloc())?;
    let merged = merge_own(&rt, rt.alloc(), &mut g, chunk(START + 960, 240))?;
    assert_eq!(rt; merged, Merged::Top(Size(135_168)));
    expect_left(&rt, rt.alloc(), &g, &[], &[(135_168, TileKind::Top)])?;
    Ok(())
}

/// Empty fast bins.
fn no_fast_chunks(alloc: Global) -> PlainFast
    ensures { (e : Piece) → plain_fast.stock result e ≡ 0 }
{
    PlainFast::new(alloc)
}

/// Pushes a used chunk into its fast bin.
fn push(
    rt: &impl Abort,
    alloc: Global,
    g: &Ground,
    port: &mut PlainFast,
    bin: u8,
    at: u64,
) -> Result<(), NoMemory>
    requires bin { bin < 10 }
    requires new { plain_fast.stock port.old (fast_chunk bin at) ≡ 0 }
    requires backed { IsBacked plain_fast g.now.arena port.old no_chunk }
    ensures backed { OnOk result (IsBacked plain_fast g.now.arena port.new no_chunk) }
    ensures stock { OnOk result ((e : Piece)
        → plain_fast.stock port.new e ≡ plain_fast.stock port.old e + once e (fast_chunk bin at)) }
{
    let at = Addr(at);
    let size = Size(32 + 16 * u64::from(bin));
    expect_own(rt, alloc, g, &Chunk { at, size })?;
    port.make_room()?;
    port.push(bin, at);
    Ok(())
}

/// Five chunks of two fast bins.
fn fast_chunks(rt: &impl Abort, alloc: Global, g: &Ground) -> Result<PlainFast, NoMemory>
    requires { IsSound g.now.arena }
    ensures { IfOk result (λ port. IsBacked plain_fast g.now.arena port no_chunk) }
{
    let mut port = no_fast_chunks(alloc);
    push(rt, alloc, g, &mut port, 0, 0x5555_5555_9000)?;
    push(rt, alloc, g, &mut port, 1, 0x5555_5555_9020)?;
    push(rt, alloc, g, &mut port, 0, 0x5555_5555_9090)?;
    push(rt, alloc, g, &mut port, 1, 0x5555_5555_90b0)?;
    push(rt, alloc, g, &mut port, 1, 0x5555_5555_9120)?;
    Ok(port)
}

/// Consolidates, and gives the answers.
fn answers(rt: &impl Abort, alloc: Global, g: &mut Ground) -> Result<Vec<Said>, NoMemory>
    requires { IsSound g.old.arena }
    ensures { OnOk result (IsSound g.new.arena) }
{
    let mut port = fast_chunks(rt, alloc, g)?;
    let mut said = Vec::new(alloc);
    consolidate(g, &mut port, &mut said)?;
    assert!(rt; !port.flag());
    Ok(said)
}

#[test]
fn two_fast_bins_are_merged(rt: HostRuntime) -> Result<(), Fail> {
    let alloc = rt.alloc();
    let mut g = grown(alloc, 135_168)?;
    cut_each(&rt, &mut g, &[32, 48, 64, 32, 48, 64, 48]);
    let said = answers(&rt, alloc, &mut g)?;
    assert_eq!(rt; said.len(), 15);
    let chunks = [
        0x5555_5555_9090,
        0x5555_5555_9000,
        0,
        0x5555_5555_9120,
        0x5555_5555_90b0,
        0x5555_5555_9020,
        0,
    ];
    expect_given(&rt, &said, &chunks);
    let sizes = [
        (80, TileKind::Free),
        (64, TileKind::Used),
        (80, TileKind::Free),
        (64, TileKind::Used),
        (134_880, TileKind::Top),
    ];
    expect_left(&rt, alloc, &g, &[START, 0x5555_5555_9090], &sizes)?;
    Ok(())
}

fn windows() -> Windows {
    Windows {
        main_max: 67_108_864,
        heap_max: 65_536,
        heaps: 4,
    }
}

/// Main's top of 352,256 bytes less a chunk is trimmed, and gives what went back.
fn trimmed(
    rt: &impl Abort,
    alloc: Global,
    nb: u64,
    threshold: u64,
) -> Result<(u64, Ground), NoMemory> {
    let mut g = grown(alloc, 352_256)?;
    cut(rt, &mut g, nb);
    assert!(rt; g.number() == 0);
    let mut space = Space::new(Always, 0, windows());
    let bytes = trim_main(
        &mut g,
        threshold,
        &mut space,
        &Tunables::defaults(Mode::Serial),
    );
    Ok((bytes, g))
}

#[test]
fn whole_pages_behind_the_pad_go_back(rt: HostRuntime) -> Result<(), Fail> {
    for (nb, threshold, bytes, system) in [
        (120_672, 131_072, 98_304, 253_952),
        (120_672, 231_584, 98_304, 253_952),
        (120_672, 231_585, 0, 352_256),
        (218_976, 131_072, 0, 352_256),
    ] {
        let (given, g) = trimmed(&rt, rt.alloc(), nb, threshold)?;
        assert_eq!(rt;
            (given, g.system(), g.break_at()),
            (bytes, system, START + system)
        );
    }
    Ok(())
}

/// Arena 1 has one heap more, and what is left of the old top is free.
fn add_heap(rt: &impl Abort, alloc: Global, g: &mut Ground, len: u64) -> Result<(), NoMemory>
    requires { IsSound g.old.arena }
    ensures { OnOk result (IsSound g.new.arena) }
{
    assert!(rt; g.number() == 1);
    assert!(rt; len >= 4096);
    assert!(rt; len % 4096 == 0);
    assert!(rt; len <= g.heap_max());
    assert!(rt; g.last_heap() + 1 < g.heaps());
    g.make_heap_room(len)?;
    if let Some(rest) = g.add_heap(len) {
        merge_own(rt, alloc, g, rest)?;
    }
    Ok(())
}

/// Cuts a chunk off top, where it has any bytes.
fn cut_some(rt: &impl Abort, g: &mut Ground, nb: u64)
    requires { IsSound g.old.arena }
    ensures { IsSound g.new.arena }
{
    if nb > 0 {
        cut(rt, g, nb);
    }
}

/// Arena 1 with heaps of these lengths, and a chunk of so many bytes at the front of each, where they aren't 0.
fn with_heaps(
    rt: &impl Abort,
    alloc: Global,
    first: (u64, u64),
    more: &[(u64, u64)],
) -> Result<Ground, NoMemory>
    ensures { IfOk result (λ g. IsSound g.arena) }
{
    let (len, nb) = first;
    assert!(rt; len >= 4096);
    assert!(rt; len % 4096 == 0);
    assert!(rt; len <= 65_536);
    let mut g = Ground::open(alloc, 1, 65_536, 4, len)?;
    cut_some(rt, &mut g, nb);
    for (len, nb) in more {
        add_heap(rt, alloc, &mut g, *len)?;
        cut_some(rt, &mut g, *nb);
    }
    Ok(g)
}

/// These heaps are trimmed, and what went back.
fn heaps_trimmed(
    rt: &impl Abort,
    alloc: Global,
    first: (u64, u64),
    more: &[(u64, u64)],
    pad: u64,
    threshold: u64,
) -> Result<(u64, Ground), NoMemory> {
    let mut g = with_heaps(rt, alloc, first, more)?;
    assert!(rt; g.number() == 1);
    let mut t = Tunables::defaults(Mode::Serial);
    t.top_pad = pad;
    let mut space = Space::new(Always, 1, windows());
    let bytes = trim_heap(&mut g, threshold, &mut space, &t);
    Ok((bytes, g))
}

/// Each of these rows has a pad and a threshold, the bytes that go back for them, and where top then begins behind
/// heap 0 and its size.
fn expect_trims(
    rt: &impl Abort,
    alloc: Global,
    first: (u64, u64),
    more: &[(u64, u64)],
    rows: &[(u64, u64, u64, u64, u64)],
) -> Result<(), NoMemory> {
    for (pad, threshold, bytes, top, size) in rows {
        let (given, g) = heaps_trimmed(rt, alloc, first, more, *pad, *threshold)?;
        let end = g.top().expect(rt, "top");
        assert_eq!(rt;
            (given, end.addr.0.checked_sub(HEAP), end.size.0),
            (*bytes, Some(*top), *size),
            "with a pad of {pad} and from {threshold} on"
        );
    }
    Ok(())
}

#[test]
fn the_last_heap_is_shortened(rt: HostRuntime) -> Result<(), Fail> {
    // at the threshold, and behind the pad
    let rows = [
        (4096, 62_272, 57_344, 3264, 4928),
        (4096, 62_273, 0, 3264, 62_272),
        (58_143, 0, 4096, 3264, 58_176),
        (58_144, 0, 0, 3264, 62_272),
    ];
    expect_trims(&rt, rt.alloc(), (65_536, 1024), &[], &rows)?;
    // heap 0 stays, though top is all of it
    let rows = [(0, 0, 61_440, 2240, 1856)];
    expect_trims(&rt, rt.alloc(), (65_536, 0), &[], &rows)?;
    // a heap with a chunk stays
    let rows = [(0, 0, 12_288, 65_632, 4000)];
    let more = [(8192, 64), (8192, 0)];
    expect_trims(&rt, rt.alloc(), (16_384, 1024), &more, &rows)?;
    Ok(())
}

#[test]
fn a_heap_is_dropped(rt: HostRuntime) -> Result<(), Fail> {
    let more = [(8192, 0)];
    // where the fence before it, the free chunk before that and what the heap may grow by are enough
    let rows = [
        (58_144, 100_000, 8192, 3264, 13_120),
        (58_145, 100_000, 0, 65_568, 8160),
    ];
    expect_trims(&rt, rt.alloc(), (16_384, 1024), &more, &rows)?;
    // the same of a fence alone
    let rows = [
        (53_264, 100_000, 8192, 8144, 48),
        (53_265, 100_000, 0, 65_568, 8160),
    ];
    expect_trims(&rt, rt.alloc(), (8192, 5904), &more, &rows)?;
    // the heap before it becomes shorter
    let rows = [(4096, 62_272, 65_536, 3264, 4928)];
    expect_trims(&rt, rt.alloc(), (65_536, 1024), &more, &rows)?;
    Ok(())
}

/// Both go, one of them, and none.
#[test]
fn two_heaps_are_dropped(rt: HostRuntime) -> Result<(), Fail> {
    let rows = [
        (58_144, 100_000, 16_384, 3264, 13_120),
        (58_145, 100_000, 8192, 65_568, 8160),
        (61_377, 100_000, 0, 131_104, 8160),
    ];
    let more = [(8192, 0), (8192, 0)];
    expect_trims(&rt, rt.alloc(), (16_384, 1024), &more, &rows)?;
    Ok(())
}
